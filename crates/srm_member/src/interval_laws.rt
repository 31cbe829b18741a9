//! What holds of every interval of timers, and worked intervals.
ghost use Rattle.std.specs.Prelude.{◌≡◌, ℕ, Some};
ghost use Rattle.srm_member.specs.declared.backoff.BackoffFactor.TheVariants.{Two, Three};
ghost use Rattle.srm_member.specs.Timers.{span};
ghost use Rattle.srm_member.specs.Backoff.{span_by};
ghost use Rattle.srm_member.specs.IntervalLaws.{ConstantsStayWithinLimits, WithoutRoomConstantsStay};
ghost use Rattle.srm_member.specs.WorkedIntervals.{narrow, asked_alone, asked_alone_twice, answered_together, answered_together_twice, heard_both_answer, asked_together, asked_together_twice, heard_both_ask};

/// The start and the width of an interval stay within their limits, whatever changes it.
pub fn constants_stay_within_limits()
    ensures { ConstantsStayWithinLimits }
{}

/// Where least, first value and most are one, start and width stay as they are, whatever changes the interval: fixed timers are
/// adaptive timers without room.
pub fn without_room_constants_stay()
    ensures { WithoutRoomConstantsStay }
{}

/// With the factor two a span is that of fixed timers.
pub fn doubled_spans_are_those_of_fixed_timers()
    ensures { (i x y d : ℕ) → span_by Two i x y d ≡ span i x y d }
{}

/// Spans with the factor three; from the sixth backoff on they stay.
pub fn worked_triplings()
    ensures first { span_by Three 1 1950 0 40 ≡ (234, 234) }
    ensures fifth { span_by Three 5 1000 1000 40 ≡ (9720, 19440) }
    ensures sixth { span_by Three 6 1000 1000 40 ≡ (29160, 58320) }
    ensures seventh { span_by Three 7 1000 1000 40 ≡ (29160, 58320) }
    ensures longest { span_by Two 10 1024000 1024000 65534000000 ≡ (68717379584000000, 137434759168000000) }
{}

/// Starts and averages of members that see a loss and then a later one, as worked by hand.
pub fn worked_intervals()
    ensures alone { let i = narrow 2000 500 2000 asked_alone in (i.start ≡ 1950) × (i.average_delay ≡ Some 1000) }
    ensures alone_again { let i = narrow 2000 500 2000 asked_alone_twice in
        (i.start ≡ 1900) × (i.average_duplicates ≡ Some 0) × (i.average_delay ≡ Some 993) }
    ensures answers { let i = narrow 1500 500 2000 answered_together in (i.start ≡ 1450) × (i.average_delay ≡ Some 750) }
    ensures answers_again { let i = narrow 1500 500 2000 answered_together_twice in
        (i.start ≡ 1400) × (i.average_duplicates ≡ Some 1000) × (i.average_delay ≡ Some 743) }
    ensures hears_answers { let i = narrow 1500 500 2000 heard_both_answer in (i.start ≡ 1600) × (i.average_delay ≡ Some 625) }
    ensures asks { let i = narrow 1000 500 2000 asked_together in (i.start ≡ 950) × (i.average_delay ≡ Some 500) }
    ensures asks_again { let i = narrow 1000 500 2000 asked_together_twice in
        (i.start ≡ 900) × (i.average_duplicates ≡ Some 1000) × (i.average_delay ≡ Some 493) }
    ensures hears_requests { let i = narrow 1000 500 2000 heard_both_ask in (i.start ≡ 1100) × (i.average_delay ≡ Some 500) }
{}
