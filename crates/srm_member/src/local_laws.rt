//! What holds of local recovery.
ghost use Rattle.srm_member.specs.LocalLaws.{MembersBeginWide, MembersStayWide, WideningDecidesNothing, TenBackoffsGoToAll, WhoHeardIsReached, ServingIsSound, BusyMovesNoTimer, TimersThatExpireEnd, RepairTimersAreOfHeldNames};

/// Without scopes nothing is local: no rest has a mark, no repair timer a width, there is no second step, and nothing that is
/// sent has a scope.
pub fn members_stay_wide()
    ensures begin { MembersBeginWide }
    ensures stay { MembersStayWide }
{}

/// Without scopes neither how scopes widen, nor after how many tries they end, nor in how many steps repairs go decides anything.
pub fn widening_decides_nothing()
    ensures { WideningDecidesNothing }
{}

/// A request with ten backoffs has no scope, so scopes end.
pub fn ten_backoffs_go_to_all()
    ensures { TenBackoffsGoToAll }
{}

/// All that heard a request with a scope are within the repair of any member that answers it in one step.
pub fn who_heard_is_reached()
    ensures { WhoHeardIsReached }
{}

/// Where a repair serves another request too, all that heard that request are reached by the repair or, in two steps, by its
/// second step.
pub fn serving_is_sound()
    ensures { ServingIsSound }
{}

/// A request that is told busy leaves every timer where it was, though it may take a repair timer over.
pub fn busy_moves_no_timer()
    ensures { BusyMovesNoTimer }
{}

/// A timer that expires is not kept: a request timer is set anew, for a later time, and a repair timer ends.
pub fn timers_that_expire_end()
    ensures { TimersThatExpireEnd }
{}

/// A repair timer, of a second step too, is set only for a name that the member holds then.
pub fn repair_timers_are_of_held_names()
    ensures { RepairTimersAreOfHeldNames }
{}
