//! The laws of windows, over the definitions alone.
ghost use Rattle.srm_model.specs.WindowLaws.{WindowsAgree, WindowsAreThere, OwnRowsAreSorted, MembersStandAlike, PacketsAreHeardInTurn, WindowPacketsAreNew, PacketsAreHeardInAnyOrder, JobsAreRuns, JobsAreInPlace, JobsRunAll, JobsRefuse, CrossingsKeep, CrossingsAreTotals, WidthsAreRules, LeastIsARule, PromisesAreARule, StartsTell, WindowsAreReached, WindowsFollow, CallsFollow, RefusedWindowsMeetFull, WindowTracesArePrefixes, WindowsAreOne, WindowsEnd};

/// A window to a safe end leaves the first world of the sequential run with no event before the end pending.
pub fn windows_agree()
    ensures { WindowsAgree }
{}

/// Where every own run has a result there is a window.
pub fn windows_are_there()
    ensures { WindowsAreThere }
{}

/// The rows of each cell of a window are in order of their keys.
pub fn own_rows_are_sorted()
    ensures { OwnRowsAreSorted }
{}

/// Each member's rows stand, list after list, in the order in which they stand in a merge.
pub fn members_stand_alike()
    ensures { MembersStandAlike }
{}

/// The packets of a window's rows may be heard one after the other.
pub fn packets_are_heard_in_turn()
    ensures { PacketsAreHeardInTurn }
{}

/// Each packet of a window is new to every cell that hears it after the packets before it.
pub fn window_packets_are_new()
    ensures { WindowPacketsAreNew }
{}

/// The packets of a window's rows may be heard in any order.
pub fn packets_are_heard_in_any_order()
    ensures { PacketsAreHeardInAnyOrder }
{}

/// The jobs of some cells are a first one and those of the rest.
pub fn jobs_are_runs()
    ensures { JobsAreRuns }
{}

/// Each job has its place, the window's end and its run of cells.
pub fn jobs_are_in_place()
    ensures { JobsAreInPlace }
{}

/// The results of a window's jobs, job after job, are those of all its cells.
pub fn jobs_run_all()
    ensures { JobsRunAll }
{}

/// Where a cell of a job meets a packet count that is used up, a member has no result.
pub fn jobs_refuse()
    ensures { JobsRefuse }
{}

/// Crossings do not depend on the order of the rows.
pub fn crossings_keep()
    ensures { CrossingsKeep }
{}

/// The crossings so far and those of all jobs, added, are those of the rows so far and the merged rows.
pub fn crossings_are_totals()
    ensures { CrossingsAreTotals }
{}

/// Windows of a width from 1 to the least link delay are safe, end by the end of the run, and later than they begin.
pub fn widths_are_rules()
    ensures { WidthsAreRules }
{}

/// So are those of the least link delay, and those that end with the run where there is no link.
pub fn least_is_a_rule()
    ensures { LeastIsARule }
{}

/// And promise windows.
pub fn promises_are_a_rule()
    ensures { PromisesAreARule }
{}

/// Where the least pending time is before the end of the run an event is next; else nothing is pending.
pub fn starts_tell()
    ensures { StartsTell }
{}

/// Each window leaves a world of the sequential run; where nothing is pending it is the last.
pub fn windows_are_reached()
    ensures { WindowsAreReached }
{}

/// While something is pending the next window follows, and leaves a world with a later least pending time.
pub fn windows_follow()
    ensures { WindowsFollow }
{}

/// Each window is one call: the list of its jobs.
pub fn calls_follow()
    ensures { CallsFollow }
{}

/// Where an own run of a window has no result, the sequential run meets a step for which the packet count is used up.
pub fn refused_windows_meet_full()
    ensures { RefusedWindowsMeetFull }
{}

/// The rows up to a window are a part from the beginning of those of a complete run.
pub fn window_traces_are_prefixes()
    ensures { WindowTracesArePrefixes }
{}

/// A run has one list of windows.
pub fn windows_are_one()
    ensures { WindowsAreOne }
{}

/// The windows of a run come to its last world, or the packet count is used up.
pub fn windows_end()
    ensures { WindowsEnd }
{}
