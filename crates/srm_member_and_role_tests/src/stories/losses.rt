//! How a receiver asks for what it lost.
use crate::stories::carried::Carried;
use crate::stories::event::Event;
use crate::stories::step::Step;
use crate::stories::story::Story;
use srm_member::due::Due;
use srm_member::told::Told;
use srm_net::packet::Name;
use srm_net::rank::Rank;

const FIRST: Name = Name {
    source: 0,
    page: 0,
    number: 0,
};

const SECOND: Name = Name {
    source: 0,
    page: 0,
    number: 1,
};

/// The second operation arrives without the first, and the first request timer expires.
///
/// The receiver has distance 10 to member 0, and request timers of two to four times the distance, of the words 0xa15c02b7 and
/// 0x7b47f409.
pub const DRAWN: Story = Story {
    member: 1,
    steps: &[
        // 20 to 40 ticks: 110 + 33
        Step {
            at: 110,
            event: Event::Arrival {
                sender: 0,
                carried: Carried::Data {
                    name: SECOND,
                    ink: 8,
                },
            },
            told: Told::Fresh,
            lost: &[FIRST],
            sent: None,
            due: Some(Due {
                time: 143,
                rank: Rank::Request,
                name: FIRST,
            }),
        },
        // 40 to 80 ticks: 143 + 59
        Step {
            at: 143,
            event: Event::Ask { name: FIRST },
            told: Told::Sent,
            lost: &[],
            sent: Some(Carried::Request {
                name: FIRST,
                scope: None,
            }),
            due: Some(Due {
                time: 202,
                rank: Rank::Request,
                name: FIRST,
            }),
        },
    ],
    held: &[(SECOND, 8)],
    missing: &[FIRST],
};

/// The same with request timers of just the distance, and then two requests of another member, at the ignore time and before the
/// next.
pub const BACKING_OFF: Story = Story {
    member: 1,
    steps: &[
        Step {
            at: 110,
            event: Event::Arrival {
                sender: 0,
                carried: Carried::Data {
                    name: SECOND,
                    ink: 8,
                },
            },
            told: Told::Fresh,
            lost: &[FIRST],
            sent: None,
            due: Some(Due {
                time: 120,
                rank: Rank::Request,
                name: FIRST,
            }),
        },
        // 120 + 20; the ignore time is 130
        Step {
            at: 120,
            event: Event::Ask { name: FIRST },
            told: Told::Sent,
            lost: &[],
            sent: Some(Carried::Request {
                name: FIRST,
                scope: None,
            }),
            due: Some(Due {
                time: 140,
                rank: Rank::Request,
                name: FIRST,
            }),
        },
        // 130 + 40; the ignore time is 150
        Step {
            at: 130,
            event: Event::Arrival {
                sender: 2,
                carried: Carried::Request {
                    name: FIRST,
                    scope: None,
                },
            },
            told: Told::Back,
            lost: &[],
            sent: None,
            due: Some(Due {
                time: 170,
                rank: Rank::Request,
                name: FIRST,
            }),
        },
        Step {
            at: 130,
            event: Event::Arrival {
                sender: 2,
                carried: Carried::Request {
                    name: FIRST,
                    scope: None,
                },
            },
            told: Told::Hold,
            lost: &[],
            sent: None,
            due: Some(Due {
                time: 170,
                rank: Rank::Request,
                name: FIRST,
            }),
        },
    ],
    held: &[(SECOND, 8)],
    missing: &[FIRST],
};
