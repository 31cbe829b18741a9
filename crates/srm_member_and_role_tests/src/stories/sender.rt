//! What a sender answers.
use crate::stories::carried::Carried;
use crate::stories::event::Event;
use crate::stories::step::Step;
use crate::stories::story::Story;
use srm_member::due::Due;
use srm_member::told::Told;
use srm_net::packet::{Heard, Name};
use srm_net::rank::Rank;

const PAGE_3_NUMBER_0: Name = Name {
    source: 0,
    page: 3,
    number: 0,
};

const PAGE_3_NUMBER_1: Name = Name {
    source: 0,
    page: 3,
    number: 1,
};

/// A sender, with distances 5, 10 and 15 to members 1, 2 and 3, repair timers of once the distance, and rests of three times it.
pub const SENDER: Story = Story {
    member: 0,
    steps: &[
        Step {
            at: 0,
            event: Event::Join,
            told: Told::Entered,
            lost: &[],
            sent: None,
            due: None,
        },
        Step {
            at: 0,
            event: Event::Draw { page: 3, ink: 7 },
            told: Told::Sent,
            lost: &[],
            sent: Some(Carried::Data {
                name: PAGE_3_NUMBER_0,
                ink: 7,
            }),
            due: None,
        },
        Step {
            at: 0,
            event: Event::Draw { page: 3, ink: 8 },
            told: Told::Sent,
            lost: &[],
            sent: Some(Carried::Data {
                name: PAGE_3_NUMBER_1,
                ink: 8,
            }),
            due: None,
        },
        Step {
            at: 1,
            event: Event::Report,
            told: Told::Sent,
            lost: &[],
            sent: Some(Carried::Session {
                heard: &[Heard {
                    source: 0,
                    page: 3,
                    highest: 1,
                }],
            }),
            due: None,
        },
        // 20 + 5
        Step {
            at: 20,
            event: Event::Arrival {
                sender: 1,
                carried: Carried::Request {
                    name: PAGE_3_NUMBER_0,
                    scope: None,
                },
            },
            told: Told::Plan,
            lost: &[],
            sent: None,
            due: Some(Due {
                time: 25,
                rank: Rank::Repair,
                name: PAGE_3_NUMBER_0,
            }),
        },
        // the first requester's timer stays
        Step {
            at: 21,
            event: Event::Arrival {
                sender: 2,
                carried: Carried::Request {
                    name: PAGE_3_NUMBER_0,
                    scope: None,
                },
            },
            told: Told::Busy,
            lost: &[],
            sent: None,
            due: Some(Due {
                time: 25,
                rank: Rank::Repair,
                name: PAGE_3_NUMBER_0,
            }),
        },
        // rests until 25 + 3 * 5
        Step {
            at: 25,
            event: Event::Answer {
                name: PAGE_3_NUMBER_0,
            },
            told: Told::Sent,
            lost: &[],
            sent: Some(Carried::Repair {
                name: PAGE_3_NUMBER_0,
                ink: 7,
                local: None,
            }),
            due: None,
        },
        Step {
            at: 39,
            event: Event::Arrival {
                sender: 2,
                carried: Carried::Request {
                    name: PAGE_3_NUMBER_0,
                    scope: None,
                },
            },
            told: Told::Rest,
            lost: &[],
            sent: None,
            due: None,
        },
        // 40 + 10
        Step {
            at: 40,
            event: Event::Arrival {
                sender: 2,
                carried: Carried::Request {
                    name: PAGE_3_NUMBER_0,
                    scope: None,
                },
            },
            told: Told::Plan,
            lost: &[],
            sent: None,
            due: Some(Due {
                time: 50,
                rank: Rank::Repair,
                name: PAGE_3_NUMBER_0,
            }),
        },
        // no timer of this name is pending
        Step {
            at: 41,
            event: Event::Answer {
                name: PAGE_3_NUMBER_1,
            },
            told: Told::Skip,
            lost: &[],
            sent: None,
            due: Some(Due {
                time: 50,
                rank: Rank::Repair,
                name: PAGE_3_NUMBER_0,
            }),
        },
        Step {
            at: 42,
            event: Event::Ask {
                name: PAGE_3_NUMBER_1,
            },
            told: Told::Skip,
            lost: &[],
            sent: None,
            due: Some(Due {
                time: 50,
                rank: Rank::Repair,
                name: PAGE_3_NUMBER_0,
            }),
        },
        // rests until 43 + 3 * 10
        Step {
            at: 43,
            event: Event::Arrival {
                sender: 2,
                carried: Carried::Repair {
                    name: PAGE_3_NUMBER_1,
                    ink: 8,
                    local: None,
                },
            },
            told: Told::Again,
            lost: &[],
            sent: None,
            due: Some(Due {
                time: 50,
                rank: Rank::Repair,
                name: PAGE_3_NUMBER_0,
            }),
        },
        Step {
            at: 50,
            event: Event::Answer {
                name: PAGE_3_NUMBER_0,
            },
            told: Told::Sent,
            lost: &[],
            sent: Some(Carried::Repair {
                name: PAGE_3_NUMBER_0,
                ink: 7,
                local: None,
            }),
            due: None,
        },
        Step {
            at: 72,
            event: Event::Arrival {
                sender: 1,
                carried: Carried::Request {
                    name: PAGE_3_NUMBER_1,
                    scope: None,
                },
            },
            told: Told::Rest,
            lost: &[],
            sent: None,
            due: None,
        },
        // 73 + 5
        Step {
            at: 73,
            event: Event::Arrival {
                sender: 1,
                carried: Carried::Request {
                    name: PAGE_3_NUMBER_1,
                    scope: None,
                },
            },
            told: Told::Plan,
            lost: &[],
            sent: None,
            due: Some(Due {
                time: 78,
                rank: Rank::Repair,
                name: PAGE_3_NUMBER_1,
            }),
        },
    ],
    held: &[(PAGE_3_NUMBER_0, 7), (PAGE_3_NUMBER_1, 8)],
    missing: &[],
};
