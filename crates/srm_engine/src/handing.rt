//! The call by which a run hands its sink no rows, before all others.
ghost use Rattle.std.specs.Prelude.{◌≡◌, ◌+◌, [], MatchResult};
ghost use Rattle.srm_interfaces.specs.Sinks.{IsReady, stage_after, stops_in};

use srm_interfaces::sink::{RowSink, SinkFault};
use std::alloc::Global;

/// Hands a sink no rows: the call by which a run begins.
pub(crate) fn hand_none<S: RowSink>(alloc: Global, sink: &mut S) -> Result<(), SinkFault>
    requires sink { IsReady (S.stage sink.old) (S.failures sink.old) }
    ensures same { S.same sink.old sink.new }
    ensures stage { S.stage sink.new ≡ stage_after result }
    ensures failures { S.failures sink.new ≡ S.failures sink.old + stops_in result }
    ensures rows { MatchResult result (λ _. S.took sink.old [] sink.new) (λ _. S.part sink.old [] sink.new) }
{
    sink.rows(alloc, Vec::new(alloc))
}
