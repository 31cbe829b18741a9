//! A sink in memory.
ghost use Rattle.std.specs.Prelude.{◌≡◌, []};
ghost use Rattle.srm_interfaces.specs.declared.sink.Stage.{Stage as AStage};

use srm_interfaces::sink::{RowSink, SinkFault, Stage};
use srm_member::row::Row;
use std::alloc::Global;

/// Keeps the rows that it takes. It has no device that fails.
#[derive(Drop)]
pub struct KeptRows {
    rows: Vec<Row>,
    stage: Stage,
}

impl KeptRows {
    ghost use Rattle.srm_engine.specs.Kept.{rows_kept, stage_of_kept};

    /// It has no row yet. It does not allocate.
    pub fn new(alloc: Global) -> Self
        ensures rows { rows_kept result ≡ [] }
        ensures stage { stage_of_kept result ≡ Stage.Fresh }
    {
        KeptRows {
            rows: Vec::new(alloc),
            stage: Stage::Fresh,
        }
    }

    /// The rows that it took, in order.
    pub fn into_rows(self) -> Vec<Row>
        ensures { result.items ≡ rows_kept self }
    {
        let KeptRows { rows, .. } = self;
        rows
    }
}

impl RowSink for KeptRows {
    ghost use Rattle.std.specs.Prelude.{refl, List, ◌++◌};
    ghost use Rattle.srm_engine.specs.Kept.{rows_kept, stage_of_kept, Keeps, KeepsFront};
    ghost use Rattle.srm_engine.specs.KeptLaws.{keeps_none, keeps_more, front_kept_none, front_kept_more, front_kept_longer};

    ghost stage = { stage_of_kept };

    ghost failures = { λ _. 0 };

    ghost same = { λ _ _. Unit {0} };

    ghost took = { Keeps };

    ghost part = { KeepsFront };

    ghost same_self = { λ a. tt };

    ghost same_more = { λ a b c p q. tt };

    ghost took_none = { keeps_none };

    ghost took_more = { keeps_more };

    ghost part_none = { front_kept_none };

    ghost part_more = { front_kept_more };

    ghost part_longer = { front_kept_longer };

    fn rows(&mut self, _alloc: Global, rows: Vec<Row>) -> Result<(), SinkFault> {
        let mut rows = rows;
        if self.rows.append(&mut rows).is_err() {
            let fault = SinkFault::NoMemory;
            self.stage = Stage::Refused { fault };
            return Err(fault);
        }
        self.stage = Stage::Live;
        Ok(())
    }
}
