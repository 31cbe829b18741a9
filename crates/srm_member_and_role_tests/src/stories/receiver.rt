//! What a receiver answers.
use crate::stories::carried::Carried;
use crate::stories::event::Event;
use crate::stories::step::Step;
use crate::stories::story::Story;
use srm_member::due::Due;
use srm_member::told::Told;
use srm_net::packet::{Heard, Name};
use srm_net::rank::Rank;

const PAGE_0_NUMBER_0: Name = Name {
    source: 0,
    page: 0,
    number: 0,
};

const PAGE_0_NUMBER_1: Name = Name {
    source: 0,
    page: 0,
    number: 1,
};

const PAGE_0_NUMBER_2: Name = Name {
    source: 0,
    page: 0,
    number: 2,
};

const PAGE_0_NUMBER_3: Name = Name {
    source: 0,
    page: 0,
    number: 3,
};

const PAGE_0_NUMBER_4: Name = Name {
    source: 0,
    page: 0,
    number: 4,
};

/// A receiver, with distance 5 to members 0 and 2, and request timers of two to four times the distance, of the words 0xa15c02b7,
/// 0x7b47f409, 0xba1d3330, 0x83d2f293, 0xbfa4784b and 0xcbed606e.
pub const RECEIVER: Story = Story {
    member: 1,
    steps: &[
        Step {
            at: 0,
            event: Event::Join,
            told: Told::Entered,
            lost: &[],
            sent: None,
            due: None,
        },
        Step {
            at: 10,
            event: Event::Arrival {
                sender: 0,
                carried: Carried::Data {
                    name: PAGE_0_NUMBER_0,
                    ink: 7,
                },
            },
            told: Told::Fresh,
            lost: &[],
            sent: None,
            due: None,
        },
        // 10 to 20 ticks: 20 + 16
        Step {
            at: 20,
            event: Event::Arrival {
                sender: 0,
                carried: Carried::Data {
                    name: PAGE_0_NUMBER_2,
                    ink: 9,
                },
            },
            told: Told::Fresh,
            lost: &[PAGE_0_NUMBER_1],
            sent: None,
            due: Some(Due {
                time: 36,
                rank: Rank::Request,
                name: PAGE_0_NUMBER_1,
            }),
        },
        // 20 to 40 ticks: 36 + 30
        Step {
            at: 36,
            event: Event::Ask {
                name: PAGE_0_NUMBER_1,
            },
            told: Told::Sent,
            lost: &[],
            sent: Some(Carried::Request {
                name: PAGE_0_NUMBER_1,
                scope: None,
            }),
            due: Some(Due {
                time: 66,
                rank: Rank::Request,
                name: PAGE_0_NUMBER_1,
            }),
        },
        // rests until 40 + 3 * 5
        Step {
            at: 40,
            event: Event::Arrival {
                sender: 0,
                carried: Carried::Repair {
                    name: PAGE_0_NUMBER_1,
                    ink: 8,
                    local: None,
                },
            },
            told: Told::Fixed,
            lost: &[],
            sent: None,
            due: None,
        },
        Step {
            at: 41,
            event: Event::Arrival {
                sender: 0,
                carried: Carried::Data {
                    name: PAGE_0_NUMBER_1,
                    ink: 8,
                },
            },
            told: Told::Again,
            lost: &[],
            sent: None,
            due: None,
        },
        Step {
            at: 54,
            event: Event::Arrival {
                sender: 2,
                carried: Carried::Request {
                    name: PAGE_0_NUMBER_1,
                    scope: None,
                },
            },
            told: Told::Rest,
            lost: &[],
            sent: None,
            due: None,
        },
        // 5 ticks, of the third word: 55 + 5
        Step {
            at: 55,
            event: Event::Arrival {
                sender: 2,
                carried: Carried::Request {
                    name: PAGE_0_NUMBER_1,
                    scope: None,
                },
            },
            told: Told::Plan,
            lost: &[],
            sent: None,
            due: Some(Due {
                time: 60,
                rank: Rank::Repair,
                name: PAGE_0_NUMBER_1,
            }),
        },
        // a repair ends the timer
        Step {
            at: 57,
            event: Event::Arrival {
                sender: 0,
                carried: Carried::Repair {
                    name: PAGE_0_NUMBER_1,
                    ink: 8,
                    local: None,
                },
            },
            told: Told::Again,
            lost: &[],
            sent: None,
            due: None,
        },
        Step {
            at: 60,
            event: Event::Answer {
                name: PAGE_0_NUMBER_1,
            },
            told: Told::Skip,
            lost: &[],
            sent: None,
            due: None,
        },
        Step {
            at: 61,
            event: Event::Draw { page: 0, ink: 1 },
            told: Told::Skip,
            lost: &[],
            sent: None,
            due: None,
        },
        Step {
            at: 62,
            event: Event::Report,
            told: Told::Sent,
            lost: &[],
            sent: Some(Carried::Session {
                heard: &[Heard {
                    source: 0,
                    page: 0,
                    highest: 2,
                }],
            }),
            due: None,
        },
        // 10 to 20 ticks: 70 + 15
        Step {
            at: 70,
            event: Event::Arrival {
                sender: 2,
                carried: Carried::Session {
                    heard: &[Heard {
                        source: 0,
                        page: 0,
                        highest: 3,
                    }],
                },
            },
            told: Told::Heard,
            lost: &[PAGE_0_NUMBER_3],
            sent: None,
            due: Some(Due {
                time: 85,
                rank: Rank::Request,
                name: PAGE_0_NUMBER_3,
            }),
        },
        // a loss learnt from a request takes two words, here for 18 and for 36 ticks
        Step {
            at: 80,
            event: Event::Arrival {
                sender: 2,
                carried: Carried::Request {
                    name: PAGE_0_NUMBER_4,
                    scope: None,
                },
            },
            told: Told::Back,
            lost: &[PAGE_0_NUMBER_4],
            sent: None,
            due: Some(Due {
                time: 85,
                rank: Rank::Request,
                name: PAGE_0_NUMBER_3,
            }),
        },
        // 80 + 36
        Step {
            at: 81,
            event: Event::Arrival {
                sender: 2,
                carried: Carried::Repair {
                    name: PAGE_0_NUMBER_3,
                    ink: 6,
                    local: None,
                },
            },
            told: Told::Fixed,
            lost: &[],
            sent: None,
            due: Some(Due {
                time: 116,
                rank: Rank::Request,
                name: PAGE_0_NUMBER_4,
            }),
        },
    ],
    held: &[
        (PAGE_0_NUMBER_0, 7),
        (PAGE_0_NUMBER_1, 8),
        (PAGE_0_NUMBER_2, 9),
        (PAGE_0_NUMBER_3, 6),
    ],
    missing: &[PAGE_0_NUMBER_4],
};
