//! A sink of rows, as one that takes what is kept of each member.
use crate::merge::merge;
use srm_interfaces::kept_sink::KeptSink;
use srm_interfaces::sink::{RowSink, SinkFault};
use srm_member::row::Row;
use std::alloc::Global;

/// A sink that is handed the rows that were kept of each member, merged.
pub(crate) struct MergedRows<'a, S> {
    /// The sink.
    pub(crate) sink: &'a mut S,
    /// Whether memory was refused to a merge, after which the sink is handed no more.
    pub(crate) is_refused: bool,
}

impl<'a, S: RowSink> RowSink for MergedRows<'a, S> {
    ghost use Rattle.std.specs.Prelude.{◌≡◌, refl};
    ghost use Rattle.std.proofs.Common.{◌∙◌};
    ghost use Rattle.srm_engine.specs.Kept.{stage_merged};

    ghost stage = { λ a. stage_merged a.is_refused (S.stage a.sink.now) };

    ghost failures = { λ a. S.failures a.sink.now };

    ghost same = { λ a b. (b.sink.ghost_name ≡ a.sink.ghost_name) × S.same a.sink.now b.sink.now };

    ghost took = { λ a rows b. S.took a.sink.now rows b.sink.now };

    ghost part = { λ a rows b. S.part a.sink.now rows b.sink.now };

    ghost same_self = { λ a. (refl, S.same_self a.sink.now) };

    ghost same_more = { λ a b c p q. (q.0 ∙ p.0, S.same_more a.sink.now b.sink.now c.sink.now p.1 q.1) };

    ghost took_none = { λ a. S.took_none a.sink.now };

    ghost took_more = { λ a b c xs ys p q. S.took_more a.sink.now b.sink.now c.sink.now xs ys p q };

    ghost part_none = { λ a. S.part_none a.sink.now };

    ghost part_more = { λ a b c xs ys p q. S.part_more a.sink.now b.sink.now c.sink.now xs ys p q };

    ghost part_longer = { λ a b xs ys p. S.part_longer a.sink.now b.sink.now xs ys p };

    fn rows(&mut self, alloc: Global, rows: Vec<Row>) -> Result<(), SinkFault> {
        self.sink.rows(alloc, rows)
    }
}

impl<'a, S: RowSink> KeptSink<Vec<Row>> for MergedRows<'a, S> {
    ghost use Rattle.std.specs.Prelude.{◌≡◌, ◌<◌, ◌+◌, ◌-◌, ◌^◌, List, MatchResult};
    ghost use Rattle.srm_member.specs.declared.row.Row.{Row as OneRow};
    ghost use Rattle.srm_interfaces.specs.Grouped.{sizes};
    ghost use Rattle.srm_interfaces.specs.InTurn.{KeepInGroups};
    ghost use Rattle.srm_interfaces.specs.Sinks.{IsOpen, stage_after, stops_in};
    ghost use Rattle.srm_engine.specs.Kept.{stage_merged};

    ghost keeps = { KeepInGroups (λ list own. list.items ≡ own) (λ old new. new ≡ old) };

    fn kept(&mut self, alloc: Global, groups: &mut [Vec<Vec<Row>>]) -> Result<(), SinkFault>
        requires open { IsOpen (stage_merged self.old.is_refused (S.stage self.old.sink.now)) }
        requires failures { S.failures self.old.sink.now < 2 ^ 64 - 1 }
        ensures same { (self.new.sink.ghost_name ≡ self.old.sink.ghost_name) × S.same self.old.sink.now self.new.sink.now }
        ensures stage { stage_merged self.new.is_refused (S.stage self.new.sink.now) ≡ stage_after result }
        ensures failures { S.failures self.new.sink.now ≡ S.failures self.old.sink.now + stops_in result }
        ensures each { sizes groups.new ≡ sizes groups.old }
        ensures rows { (rows : List OneRow)
            → KeepInGroups (λ list own. list.items ≡ own) (λ old new. new ≡ old) groups.old rows
            → MatchResult result (λ _. S.took self.old.sink.now rows self.new.sink.now)
            (λ _. S.part self.old.sink.now rows self.new.sink.now) }
    {
        let Ok(rows) = merge(alloc, groups) else {
            self.is_refused = true;
            return Err(SinkFault::NoMemory);
        };
        self.sink.rows(alloc, rows)
    }
}
