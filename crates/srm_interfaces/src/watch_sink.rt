//! A sink that keeps of rows what a watch keeps of them.
ghost use Rattle.std.specs.Prelude.{◌≡◌, ◌<◌};

use crate::keeping::{none_of, take_rows};
use crate::sink::{RowSink, SinkFault, Stage};
use crate::watch::Watch;
use srm_member::row::Row;
use std::alloc::{AllocError, Global};

/// Takes rows as they come, and keeps of each of so many members what a watch keeps of its rows, and no row. It has no device that
/// fails.
#[derive(Drop)]
pub struct WatchSink<K, W> {
    watch: W,
    // What is kept of each member, in order of their numbers.
    kept: Vec<K>,
    stage: Stage,
}

impl<K: Drop, W: Watch<K> + Copy> WatchSink<K, W> {
    ghost use Rattle.std.specs.Prelude.{[], IfOk, length};
    ghost use Rattle.srm_interfaces.specs.Watches.{KeepMembers};
    ghost use Rattle.srm_interfaces.specs.WatchSinks.{kept_in, stage_of, watch_in};

    /// It took no row yet.
    ///
    /// # Errors
    /// [`AllocError`].
    pub fn new(alloc: Global, watch: W, members: usize) -> Result<Self, AllocError>
        ensures stage { IfOk result (λ s. stage_of s ≡ Stage.Fresh) }
        ensures watch { IfOk result (λ s. watch_in s ≡ watch) }
        ensures many { IfOk result (λ s. length (kept_in s) ≡ members) }
        ensures kept { IfOk result (λ s. KeepMembers (W.keeps watch) 0 (kept_in s) []) }
    {
        let kept = none_of(alloc, &watch, members)?;
        Ok(WatchSink {
            watch,
            kept,
            stage: Stage::Fresh,
        })
    }

    /// What is kept of each member, in order of their numbers.
    pub fn into_kept(self) -> Vec<K>
        ensures { result.items ≡ kept_in self }
    {
        let WatchSink { kept, .. } = self;
        kept
    }
}

impl<K: Drop, W: Watch<K> + Copy> RowSink for WatchSink<K, W> {
    ghost use Rattle.std.specs.Prelude.{OnOk, IfErr, length};
    ghost use Rattle.srm_interfaces.specs.Sinks.{stage_after};
    ghost use Rattle.srm_interfaces.specs.WatchSinks.{stage_of, TakesIn, takes_none, takes_more};

    ghost stage = { stage_of };

    ghost failures = { λ _. 0 };

    ghost same = { λ _ _. Unit {0} };

    ghost took = { TakesIn W.keeps };

    ghost part = { λ _ _ _. Unit {0} };

    ghost same_self = { λ a. tt };

    ghost same_more = { λ a b c p q. tt };

    ghost took_none = { takes_none W.keeps };

    ghost took_more = { takes_more W.keeps };

    ghost part_none = { λ a. tt };

    ghost part_more = { λ a b c xs ys p q. tt };

    ghost part_longer = { λ a b xs ys p. tt };

    /// The watch takes in the rows. Rows of members past the last are let be.
    ///
    /// # Errors
    /// `NoMemory`, where the watch was refused memory. There are rows then: a call without rows is not refused.
    fn rows(&mut self, _alloc: Global, rows: Vec<Row>) -> Result<(), SinkFault>
        ensures stage { stage_of self.new ≡ stage_after result }
        ensures rows { OnOk result (TakesIn W.keeps self.old rows.items self.new) }
        ensures fault { IfErr result (λ e. (e ≡ SinkFault.NoMemory) × (0 < length rows.items)) }
    {
        match take_rows(&self.watch, self.kept.as_mut_slice(), rows.as_slice()) {
            Ok(()) => {
                self.stage = Stage::Live;
                Ok(())
            }
            Err(AllocError) => {
                let fault = SinkFault::NoMemory;
                self.stage = Stage::Refused { fault };
                Err(fault)
            }
        }
    }
}
