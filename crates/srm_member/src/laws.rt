//! What holds of every member, and worked numbers.
ghost use Rattle.std.specs.Prelude.{◌≡◌, [], ◌∷◌};
ghost use Rattle.srm_member.specs.Laws.{FixedPartStays, TimersAreLater, ListenersSendNothing, AnswersAreOne};
ghost use Rattle.srm_member.specs.Timers.{span, timer_length};
ghost use Rattle.srm_member.specs.Examples.{first_words};

/// The fixed part of a member's record stays.
pub fn fixed_part_stays()
    ensures { FixedPartStays }
{}

/// Each timer that a member sets expires later than the event that set it.
pub fn timers_are_later()
    ensures { TimersAreLater }
{}

/// A listener sends nothing.
pub fn listeners_send_nothing()
    ensures { ListenersSendNothing }
{}

/// A cause has one answer, and leaves one record.
pub fn answers_are_one()
    ensures { AnswersAreOne }
{}

/// The first words of the generator of seed 42 and stream 54, as PCG's reference implementation prints them.
pub fn reference_words()
    ensures { first_words 6 42 54 ≡ 0xa15c02b7 ∷ 0x7b47f409 ∷ 0xba1d3330 ∷ 0x83d2f293 ∷ 0xbfa4784b ∷ 0xcbed606e ∷ [] }
{}

/// Lengths that words pick of a span.
pub fn worked_lengths()
    ensures first { timer_length 0xa15c02b7 (20, 40) ≡ 33 }
    ensures second { timer_length 0x7b47f409 (40, 80) ≡ 59 }
    ensures greatest { timer_length 0xffffffff (20, 40) ≡ 40 }
    ensures least { timer_length 0 (0, 0) ≡ 1 }
{}

/// Spans of timers; from the tenth backoff on they stay.
pub fn worked_spans()
    ensures rounded { span 1 1500 0 1 ≡ (3, 3) }
    ensures tenth { span 10 64000 64000 255000000 ≡ (16711680000000, 33423360000000) }
    ensures eleventh { span 11 64000 64000 255000000 ≡ (16711680000000, 33423360000000) }
    ensures longest { span 10 64000 64000 1023000000 ≡ (67043328000000, 134086656000000) }
{}
