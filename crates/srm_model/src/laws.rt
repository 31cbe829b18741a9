//! The laws of the model, over its definitions alone.
ghost use Rattle.srm_model.specs.Laws.{RunsBeginEmpty, OutcomesAreOne, TracesAreFronts, TracesAreNested, KeysRise, PendingKeysDiffer, StepsTakeTheLeast, CreatedEventsAreLater, RunEnds, OwnRunsEnd, NeverSpent, SchedulesAgree, SchedulesAreAnswered, RefusalsAreMet, CellsRunAlone, WindowsAreSafe, PromisesAreSafe, LinkDelaysAreSafe, PromiseEndsAreSafe, MergesAgree};

/// A run begins with no row.
pub fn runs_begin_empty()
    ensures { RunsBeginEmpty }
{}

/// A complete run has one last world, and no step of it meets a packet count that is used up.
pub fn outcomes_are_one()
    ensures { OutcomesAreOne }
{}

/// The rows of each world of a sequential run are a front of those of the complete run.
pub fn traces_are_fronts()
    ensures { TracesAreFronts }
{}

/// Of each two worlds of a sequential run, the rows of one are a front of those of the other.
pub fn traces_are_nested()
    ensures { TracesAreNested }
{}

/// The keys of the rows of a sequential run rise: no two events have one key.
pub fn keys_rise()
    ensures { KeysRise }
{}

/// No two pending events of a world of the sequential run have one key.
pub fn pending_keys_differ()
    ensures { PendingKeysDiffer }
{}

/// Each step of the sequential run takes the least pending event of all members.
pub fn steps_take_the_least()
    ensures { StepsTakeTheLeast }
{}

/// Every event that an event creates has a later time.
pub fn created_events_are_later()
    ensures { CreatedEventsAreLater }
{}

/// The sequential run ends: nothing is pending, or the packet count is used up.
pub fn run_ends()
    ensures { RunEnds }
{}

/// Every own run of a world of the sequential run is finite.
pub fn own_runs_end()
    ensures { OwnRunsEnd }
{}

/// Neither the sequential run nor an own run meets an event at a member that left.
pub fn never_spent()
    ensures { NeverSpent }
{}

/// Every complete schedule to a safe end comes to the world to which the sequential run comes.
pub fn schedules_agree()
    ensures { SchedulesAgree }
{}

/// Where every own run to a safe end has a result, no schedule to that end meets a step that has none.
pub fn schedules_are_answered()
    ensures { SchedulesAreAnswered }
{}

/// Where an own run to a safe end has no result, the sequential run meets a step that has none.
pub fn refusals_are_met()
    ensures { RefusalsAreMet }
{}

/// After a complete schedule to a safe end each cell is what its own run alone leaves, and has heard all packets since.
pub fn cells_run_alone()
    ensures { CellsRunAlone }
{}

/// Windows no wider than any two members are apart are safe.
pub fn windows_are_safe()
    ensures { WindowsAreSafe }
{}

/// An end that no member's next event, with the way from it, falls short of is safe.
pub fn promises_are_safe()
    ensures { PromisesAreSafe }
{}

/// A window no wider than the least link delay is safe, and every end where there is no link.
pub fn link_delays_are_safe()
    ensures { LinkDelaysAreSafe }
{}

/// The end of a promise window is safe, and later than the least pending time.
pub fn promise_ends_are_safe()
    ensures { PromiseEndsAreSafe }
{}

/// The members' rows of a part of the run, merged in order of their keys, are the rows of that part.
pub fn merges_agree()
    ensures { MergesAgree }
{}
