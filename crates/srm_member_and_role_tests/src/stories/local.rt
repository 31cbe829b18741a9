//! What receivers answer to requests and repairs with scopes.
use crate::stories::carried::Carried;
use crate::stories::event::Event;
use crate::stories::step::Step;
use crate::stories::story::Story;
use srm_member::due::Due;
use srm_member::told::Told;
use srm_net::packet::{Local, Name};
use srm_net::rank::Rank;

const FIRST: Name = Name {
    source: 0,
    page: 0,
    number: 0,
};

const SECOND: Name = Name {
    source: 0,
    page: 0,
    number: 1,
};

// Of a repair that goes one hop, for a request that went one hop.
const FOR_2: Local = Local {
    scope: 1,
    requester: 2,
    width: 1,
};

const FOR_4: Local = Local {
    scope: 1,
    requester: 4,
    width: 1,
};

/// A receiver at distance 2 from the source. It asks one hop far, and sends the repair that answers it on, a tick later.
pub const REQUESTER: Story = Story {
    member: 2,
    steps: &[
        // 2 ticks: 12 + 2
        Step {
            at: 12,
            event: Event::Arrival {
                sender: 0,
                carried: Carried::Data {
                    name: SECOND,
                    ink: 7,
                },
            },
            told: Told::Fresh,
            lost: &[FIRST],
            sent: None,
            due: Some(Due {
                time: 14,
                rank: Rank::Request,
                name: FIRST,
            }),
        },
        // 4 ticks: 14 + 4
        Step {
            at: 14,
            event: Event::Ask { name: FIRST },
            told: Told::Sent,
            lost: &[],
            sent: Some(Carried::Request {
                name: FIRST,
                scope: Some(1),
            }),
            due: Some(Due {
                time: 18,
                rank: Rank::Request,
                name: FIRST,
            }),
        },
        Step {
            at: 17,
            event: Event::Arrival {
                sender: 1,
                carried: Carried::Repair {
                    name: FIRST,
                    ink: 7,
                    local: Some(FOR_2),
                },
            },
            told: Told::Fixed,
            lost: &[],
            sent: None,
            due: Some(Due {
                time: 18,
                rank: Rank::Repair,
                name: FIRST,
            }),
        },
        Step {
            at: 18,
            event: Event::Answer { name: FIRST },
            told: Told::Sent,
            lost: &[],
            sent: Some(Carried::Repair {
                name: FIRST,
                ink: 7,
                local: Some(FOR_2),
            }),
            due: None,
        },
        Step {
            at: 21,
            event: Event::Arrival {
                sender: 3,
                carried: Carried::Repair {
                    name: FIRST,
                    ink: 7,
                    local: Some(FOR_4),
                },
            },
            told: Told::Again,
            lost: &[],
            sent: None,
            due: None,
        },
    ],
    held: &[(FIRST, 7), (SECOND, 7)],
    missing: &[],
};

/// A receiver at distance 3 from the source, between two that ask. It rests for the first of them, not for the second.
pub const NEIGHBOUR: Story = Story {
    member: 3,
    steps: &[
        // 3 ticks: 13 + 3
        Step {
            at: 13,
            event: Event::Arrival {
                sender: 0,
                carried: Carried::Data {
                    name: SECOND,
                    ink: 7,
                },
            },
            told: Told::Fresh,
            lost: &[FIRST],
            sent: None,
            due: Some(Due {
                time: 16,
                rank: Rank::Request,
                name: FIRST,
            }),
        },
        // 6 ticks: 15 + 6
        Step {
            at: 15,
            event: Event::Arrival {
                sender: 2,
                carried: Carried::Request {
                    name: FIRST,
                    scope: Some(1),
                },
            },
            told: Told::Back,
            lost: &[],
            sent: None,
            due: Some(Due {
                time: 21,
                rank: Rank::Request,
                name: FIRST,
            }),
        },
        Step {
            at: 19,
            event: Event::Arrival {
                sender: 2,
                carried: Carried::Repair {
                    name: FIRST,
                    ink: 7,
                    local: Some(FOR_2),
                },
            },
            told: Told::Fixed,
            lost: &[],
            sent: None,
            due: None,
        },
        // 1 tick: 19 + 1
        Step {
            at: 19,
            event: Event::Arrival {
                sender: 4,
                carried: Carried::Request {
                    name: FIRST,
                    scope: Some(1),
                },
            },
            told: Told::Plan,
            lost: &[],
            sent: None,
            due: Some(Due {
                time: 20,
                rank: Rank::Repair,
                name: FIRST,
            }),
        },
        Step {
            at: 20,
            event: Event::Answer { name: FIRST },
            told: Told::Sent,
            lost: &[],
            sent: Some(Carried::Repair {
                name: FIRST,
                ink: 7,
                local: Some(FOR_4),
            }),
            due: None,
        },
        Step {
            at: 23,
            event: Event::Arrival {
                sender: 4,
                carried: Carried::Repair {
                    name: FIRST,
                    ink: 7,
                    local: Some(FOR_4),
                },
            },
            told: Told::Again,
            lost: &[],
            sent: None,
            due: None,
        },
    ],
    held: &[(FIRST, 7), (SECOND, 7)],
    missing: &[],
};
