//! What holds of the intervals of every member's timers.
ghost use Rattle.srm_member.specs.AdaptingLaws.{IntervalsChangeAlone, OtherEventsLeaveIntervals, ListenersIntervalsStay, ConstantsBeginWithinLimits, ConstantsOfMembersStayWithinLimits, FixedTimersIgnoreWhatIsSeen, FixedTimersAreToldAtJoinsAlone, ListenersTellNoIntervals};

/// An event changes a member's intervals by their four changes alone: a period begins, a delay is taken in,
/// the member sends first, or it hears a duplicate.
pub fn intervals_change_alone()
    ensures { IntervalsChangeAlone }
{}

/// Only packets that arrive and request timers that expire change the interval of request timers. Only requests and
/// repairs that arrive and repair timers that expire change that of repair timers.
pub fn other_events_leave_intervals()
    ensures { OtherEventsLeaveIntervals }
{}

/// A listener's intervals stay.
pub fn listeners_intervals_stay()
    ensures { ListenersIntervalsStay }
{}

/// The constants of a member's timers begin within their limits, and stay there, whatever happens.
pub fn constants_of_members_stay_within_limits()
    ensures begin { ConstantsBeginWithinLimits }
    ensures stay { ConstantsOfMembersStayWithinLimits }
{}

/// Where the constants of a member's timers have no room, what it saw of duplicates and delays changes neither its
/// answers nor its timers: fixed timers are adaptive timers without room. Answers may differ in nothing but what they
/// tell of intervals, which a join does.
pub fn fixed_timers_ignore_what_is_seen()
    ensures { FixedTimersIgnoreWhatIsSeen }
{}

/// Where the constants of a member's timers have no room, no event but its join tells of its intervals. No event of
/// a listener does.
pub fn intervals_are_told_at_joins_alone()
    ensures fixed { FixedTimersAreToldAtJoinsAlone }
    ensures listeners { ListenersTellNoIntervals }
{}
