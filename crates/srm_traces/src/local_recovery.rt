//! Worked scenarios of local recovery. Of each also the requests and repairs that were sent, with their scopes,
//! and what the members end with.
ghost use Rattle.std.specs.Prelude.{◌≡◌};
ghost use Rattle.srm_traces.specs.Runs.{whole_trace, whole_totals, whole_recovery, whole_exits, IsWhole};
ghost use Rattle.srm_traces.specs.LocalScenarios;
ghost use Rattle.srm_traces.specs.LocalTraces;

/// A scope that grows until the source hears the request: its repair goes in two steps.
pub fn scope_that_grows()
    ensures trace { whole_trace LocalScenarios.scope_that_grows 0 ≡ LocalTraces.scope_that_grows_trace }
    ensures totals { whole_totals LocalScenarios.scope_that_grows 0 ≡ LocalTraces.scope_that_grows_totals }
    ensures recovery { whole_recovery LocalScenarios.scope_that_grows 0 ≡ LocalTraces.scope_that_grows_recovery }
    ensures exits { whole_exits LocalScenarios.scope_that_grows 0 ≡ LocalTraces.scope_that_grows_exits }
    ensures whole { IsWhole LocalScenarios.scope_that_grows 0 }
{}

/// Two members answer one request; the requester sends the first of the repairs on.
pub fn two_first_steps()
    ensures trace { whole_trace LocalScenarios.two_first_steps 0 ≡ LocalTraces.two_first_steps_trace }
    ensures totals { whole_totals LocalScenarios.two_first_steps 0 ≡ LocalTraces.two_first_steps_totals }
    ensures recovery { whole_recovery LocalScenarios.two_first_steps 0 ≡ LocalTraces.two_first_steps_recovery }
    ensures exits { whole_exits LocalScenarios.two_first_steps 0 ≡ LocalTraces.two_first_steps_exits }
    ensures whole { IsWhole LocalScenarios.two_first_steps 0 }
{}

/// One loss on a chain of five, where requests go one hop: two members ask, and each sends its repair on.
pub fn chain_of_five_in_two_steps()
    ensures trace { whole_trace LocalScenarios.chain_of_five_in_two_steps 0 ≡ LocalTraces.chain_of_five_in_two_steps_trace }
    ensures totals { whole_totals LocalScenarios.chain_of_five_in_two_steps 0 ≡ LocalTraces.chain_of_five_in_two_steps_totals }
    ensures recovery { whole_recovery LocalScenarios.chain_of_five_in_two_steps 0 ≡ LocalTraces.chain_of_five_in_two_steps_recovery }
    ensures exits { whole_exits LocalScenarios.chain_of_five_in_two_steps 0 ≡ LocalTraces.chain_of_five_in_two_steps_exits }
    ensures whole { IsWhole LocalScenarios.chain_of_five_in_two_steps 0 }
{}

/// A loss at one member of a star: three first steps at one tick, and one second step.
pub fn star_loss_in_two_steps()
    ensures trace { whole_trace LocalScenarios.star_loss_in_two_steps 0 ≡ LocalTraces.star_loss_in_two_steps_trace }
    ensures totals { whole_totals LocalScenarios.star_loss_in_two_steps 0 ≡ LocalTraces.star_loss_in_two_steps_totals }
    ensures recovery { whole_recovery LocalScenarios.star_loss_in_two_steps 0 ≡ LocalTraces.star_loss_in_two_steps_recovery }
    ensures exits { whole_exits LocalScenarios.star_loss_in_two_steps 0 ≡ LocalTraces.star_loss_in_two_steps_exits }
    ensures whole { IsWhole LocalScenarios.star_loss_in_two_steps 0 }
{}
