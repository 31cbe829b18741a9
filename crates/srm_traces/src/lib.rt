//! Worked scenarios, whose whole traces and crossings the checker computes from the definitions; of some, what their
//! members end with, or the constants of their timers at the end.
#![tactic(auto)]

ghost use Rattle.std.specs.Prelude.{◌≡◌};
ghost use Rattle.srm_traces.specs.Runs.{whole_trace, whole_totals, whole_exits, whole_constants, IsWhole};
ghost use Rattle.srm_traces.specs.Scenarios;
ghost use Rattle.srm_traces.specs.Traces.{chain_of_five_one_loss_trace, chain_of_five_one_loss_totals, loss_on_the_source_link_trace, loss_on_the_source_link_totals, repair_before_the_timer_of_its_tick_trace, repair_before_the_timer_of_its_tick_totals, stopped_before_the_repair_trace, stopped_before_the_repair_totals, stopped_before_the_repair_exits, drawn_timers_trace, drawn_timers_totals, star_loss_at_the_source_trace, star_loss_at_the_source_totals, star_loss_at_one_member_trace, star_loss_at_one_member_totals, receiver_that_leaves_trace, receiver_that_leaves_totals, receiver_that_leaves_exits, late_joiner_trace, late_joiner_totals, late_joiner_exits, session_reveals_a_loss_trace, session_reveals_a_loss_totals, two_nodes_trace, two_nodes_totals, mended_by_the_data_itself_trace, mended_by_the_data_itself_totals, loss_learnt_from_a_request_trace, loss_learnt_from_a_request_totals};
ghost use Rattle.srm_traces.specs.Traces.{outage_of_one_tick_trace, outage_of_one_tick_totals};
ghost use Rattle.srm_traces.specs.Traces.{request_timers_adapted_trace, request_timers_adapted_totals, request_timers_adapted_constants, repair_timers_adapted_trace, repair_timers_adapted_totals, repair_timers_adapted_constants, two_ask_together_trace, two_ask_together_totals, two_ask_together_constants};

pub mod local_recovery;

/// One loss on a chain of five: its request, and the repair by the nearest that holds it.
pub fn chain_of_five_one_loss()
    ensures trace { whole_trace Scenarios.chain_of_five_one_loss 0 ≡ chain_of_five_one_loss_trace }
    ensures totals { whole_totals Scenarios.chain_of_five_one_loss 0 ≡ chain_of_five_one_loss_totals }
    ensures whole { IsWhole Scenarios.chain_of_five_one_loss 0 }
{}

/// A loss on the link of the source: the second request comes at an ignore time, and during a rest.
pub fn loss_on_the_source_link()
    ensures trace { whole_trace Scenarios.loss_on_the_source_link 0 ≡ loss_on_the_source_link_trace }
    ensures totals { whole_totals Scenarios.loss_on_the_source_link 0 ≡ loss_on_the_source_link_totals }
    ensures whole { IsWhole Scenarios.loss_on_the_source_link 0 }
{}

/// A repair that arrives at the tick of the request timer ends it.
pub fn repair_before_the_timer_of_its_tick()
    ensures trace { whole_trace Scenarios.repair_before_the_timer_of_its_tick 0
        ≡ repair_before_the_timer_of_its_tick_trace }
    ensures totals { whole_totals Scenarios.repair_before_the_timer_of_its_tick 0
        ≡ repair_before_the_timer_of_its_tick_totals }
    ensures whole { IsWhole Scenarios.repair_before_the_timer_of_its_tick 0 }
{}

/// The same run, cut short before the repair is sent: the operation stays missing.
pub fn stopped_before_the_repair()
    ensures trace { whole_trace Scenarios.stopped_before_the_repair 0 ≡ stopped_before_the_repair_trace }
    ensures totals { whole_totals Scenarios.stopped_before_the_repair 0 ≡ stopped_before_the_repair_totals }
    ensures exits { whole_exits Scenarios.stopped_before_the_repair 0 ≡ stopped_before_the_repair_exits }
    ensures whole { IsWhole Scenarios.stopped_before_the_repair 0 }
{}

/// Timers of random length.
pub fn drawn_timers()
    ensures trace { whole_trace Scenarios.drawn_timers 42 ≡ drawn_timers_trace }
    ensures totals { whole_totals Scenarios.drawn_timers 42 ≡ drawn_timers_totals }
    ensures whole { IsWhole Scenarios.drawn_timers 42 }
{}

/// A loss at the source of a star: three requests at one tick, one repair.
pub fn star_loss_at_the_source()
    ensures trace { whole_trace Scenarios.star_loss_at_the_source 0 ≡ star_loss_at_the_source_trace }
    ensures totals { whole_totals Scenarios.star_loss_at_the_source 0 ≡ star_loss_at_the_source_totals }
    ensures whole { IsWhole Scenarios.star_loss_at_the_source 0 }
{}

/// A loss at one member of a star: one request, three repairs.
pub fn star_loss_at_one_member()
    ensures trace { whole_trace Scenarios.star_loss_at_one_member 0 ≡ star_loss_at_one_member_trace }
    ensures totals { whole_totals Scenarios.star_loss_at_one_member 0 ≡ star_loss_at_one_member_totals }
    ensures whole { IsWhole Scenarios.star_loss_at_one_member 0 }
{}

/// A receiver that leaves hears what arrives at that tick, and nothing more.
pub fn receiver_that_leaves()
    ensures trace { whole_trace Scenarios.receiver_that_leaves 0 ≡ receiver_that_leaves_trace }
    ensures totals { whole_totals Scenarios.receiver_that_leaves 0 ≡ receiver_that_leaves_totals }
    ensures exits { whole_exits Scenarios.receiver_that_leaves 0 ≡ receiver_that_leaves_exits }
    ensures whole { IsWhole Scenarios.receiver_that_leaves 0 }
{}

/// A late joiner asks for the page that it wants, and not for the other.
pub fn late_joiner()
    ensures trace { whole_trace Scenarios.late_joiner 0 ≡ late_joiner_trace }
    ensures totals { whole_totals Scenarios.late_joiner 0 ≡ late_joiner_totals }
    ensures exits { whole_exits Scenarios.late_joiner 0 ≡ late_joiner_exits }
    ensures whole { IsWhole Scenarios.late_joiner 0 }
{}

/// A session message reveals a loss.
pub fn session_reveals_a_loss()
    ensures trace { whole_trace Scenarios.session_reveals_a_loss 0 ≡ session_reveals_a_loss_trace }
    ensures totals { whole_totals Scenarios.session_reveals_a_loss 0 ≡ session_reveals_a_loss_totals }
    ensures whole { IsWhole Scenarios.session_reveals_a_loss 0 }
{}

/// A sender and a listener.
pub fn two_nodes()
    ensures trace { whole_trace Scenarios.two_nodes 0 ≡ two_nodes_trace }
    ensures totals { whole_totals Scenarios.two_nodes 0 ≡ two_nodes_totals }
    ensures whole { IsWhole Scenarios.two_nodes 0 }
{}

/// A loss that the data itself mends in the same tick.
pub fn mended_by_the_data_itself()
    ensures trace { whole_trace Scenarios.mended_by_the_data_itself 0 ≡ mended_by_the_data_itself_trace }
    ensures totals { whole_totals Scenarios.mended_by_the_data_itself 0 ≡ mended_by_the_data_itself_totals }
    ensures whole { IsWhole Scenarios.mended_by_the_data_itself 0 }
{}

/// A loss that a request reveals, which backs off at once.
pub fn loss_learnt_from_a_request()
    ensures trace { whole_trace Scenarios.loss_learnt_from_a_request 0 ≡ loss_learnt_from_a_request_trace }
    ensures totals { whole_totals Scenarios.loss_learnt_from_a_request 0 ≡ loss_learnt_from_a_request_totals }
    ensures whole { IsWhole Scenarios.loss_learnt_from_a_request 0 }
{}

/// An outage of one tick, in which the first of two packets comes to the second link: only the second packet reaches
/// the last member.
pub fn outage_of_one_tick()
    ensures trace { whole_trace Scenarios.outage_of_one_tick 0 ≡ outage_of_one_tick_trace }
    ensures totals { whole_totals Scenarios.outage_of_one_tick 0 ≡ outage_of_one_tick_totals }
    ensures whole { IsWhole Scenarios.outage_of_one_tick 0 }
{}

/// A member that alone asks, at two losses: the second time it asks sooner.
pub fn request_timers_adapted()
    ensures trace { whole_trace Scenarios.request_timers_adapted 0 ≡ request_timers_adapted_trace }
    ensures totals { whole_totals Scenarios.request_timers_adapted 0 ≡ request_timers_adapted_totals }
    ensures constants { whole_constants Scenarios.request_timers_adapted 0 ≡ request_timers_adapted_constants }
    ensures whole { IsWhole Scenarios.request_timers_adapted 0 }
{}

/// Two members that answer together, at two losses of another, and a third that hears both: its repair timers get longer.
pub fn repair_timers_adapted()
    ensures trace { whole_trace Scenarios.repair_timers_adapted 0 ≡ repair_timers_adapted_trace }
    ensures totals { whole_totals Scenarios.repair_timers_adapted 0 ≡ repair_timers_adapted_totals }
    ensures constants { whole_constants Scenarios.repair_timers_adapted 0 ≡ repair_timers_adapted_constants }
    ensures whole { IsWhole Scenarios.repair_timers_adapted 0 }
{}

/// Two members that ask together, at two losses, and a third that hears both: its request timers get longer.
pub fn two_ask_together()
    ensures trace { whole_trace Scenarios.two_ask_together 0 ≡ two_ask_together_trace }
    ensures totals { whole_totals Scenarios.two_ask_together 0 ≡ two_ask_together_totals }
    ensures constants { whole_constants Scenarios.two_ask_together 0 ≡ two_ask_together_constants }
    ensures whole { IsWhole Scenarios.two_ask_together 0 }
{}
