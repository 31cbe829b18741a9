//! Who takes what is kept of the rows of a run, in place of the rows.
ghost use Rattle.std.specs.Prelude.{◌≡◌, ◌<◌, ◌+◌, ◌-◌, ◌^◌, List, MatchResult};
ghost use Rattle.std.specs.Global.{Vec as AVec};
ghost use Rattle.srm_member.specs.declared.row.Row.{Row as OneRow};
ghost use Rattle.srm_interfaces.specs.Sinks.{IsOpen, stage_after, stops_in};
ghost use Rattle.srm_interfaces.specs.Grouped.{sizes};

use crate::sink::{RowSink, SinkFault};
use std::alloc::Global;

/// Who takes rows by what is kept of the members': a `K` of each.
pub trait KeptSink<K>: RowSink {
    // This is what is kept of exactly these rows, group after group.
    ghost keeps: { List (AVec K) → List OneRow → Type 0 };

    /// Takes rows, after those that it took before, of which this is kept of the members, group after group, in order of their
    /// numbers. It is told no more of them: whatever rows this is kept of, it took these. It may move out what is kept.
    ///
    /// # Errors
    /// As of `rows`.
    fn kept(&mut self, alloc: Global, groups: &mut [Vec<K>]) -> Result<(), SinkFault>
        requires open { IsOpen (Self.stage self.old) }
        requires failures { Self.failures self.old < 2 ^ 64 - 1 }
        ensures same { Self.same self.old self.new }
        ensures stage { Self.stage self.new ≡ stage_after result }
        ensures failures { Self.failures self.new ≡ Self.failures self.old + stops_in result }
        ensures each { sizes groups.new ≡ sizes groups.old }
        ensures rows { (rows : List OneRow) → keeps groups.old rows
            → MatchResult result (λ _. Self.took self.old rows self.new) (λ _. Self.part self.old rows self.new) };
}
