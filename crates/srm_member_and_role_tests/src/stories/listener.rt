//! What a listener answers.
use crate::stories::carried::Carried;
use crate::stories::event::Event;
use crate::stories::step::Step;
use crate::stories::story::Story;
use srm_member::told::Told;
use srm_net::packet::{Heard, Name};

const PAGE_0_NUMBER_0: Name = Name {
    source: 0,
    page: 0,
    number: 0,
};

const PAGE_0_NUMBER_1: Name = Name {
    source: 0,
    page: 0,
    number: 1,
};

const PAGE_0_NUMBER_2: Name = Name {
    source: 0,
    page: 0,
    number: 2,
};

/// A listener, which takes in data and repairs, sends nothing, and sets no timer.
pub const LISTENER: Story = Story {
    member: 3,
    steps: &[
        Step {
            at: 0,
            event: Event::Join,
            told: Told::Entered,
            lost: &[],
            sent: None,
            due: None,
        },
        Step {
            at: 10,
            event: Event::Arrival {
                sender: 0,
                carried: Carried::Data {
                    name: PAGE_0_NUMBER_1,
                    ink: 8,
                },
            },
            told: Told::Fresh,
            lost: &[],
            sent: None,
            due: None,
        },
        Step {
            at: 11,
            event: Event::Arrival {
                sender: 1,
                carried: Carried::Repair {
                    name: PAGE_0_NUMBER_1,
                    ink: 8,
                    local: None,
                },
            },
            told: Told::Again,
            lost: &[],
            sent: None,
            due: None,
        },
        Step {
            at: 12,
            event: Event::Arrival {
                sender: 1,
                carried: Carried::Repair {
                    name: PAGE_0_NUMBER_0,
                    ink: 7,
                    local: None,
                },
            },
            told: Told::Fresh,
            lost: &[],
            sent: None,
            due: None,
        },
        Step {
            at: 13,
            event: Event::Arrival {
                sender: 1,
                carried: Carried::Request {
                    name: PAGE_0_NUMBER_0,
                    scope: None,
                },
            },
            told: Told::Skip,
            lost: &[],
            sent: None,
            due: None,
        },
        Step {
            at: 14,
            event: Event::Arrival {
                sender: 1,
                carried: Carried::Session {
                    heard: &[Heard {
                        source: 0,
                        page: 0,
                        highest: 3,
                    }],
                },
            },
            told: Told::Skip,
            lost: &[],
            sent: None,
            due: None,
        },
        Step {
            at: 15,
            event: Event::Ask {
                name: PAGE_0_NUMBER_2,
            },
            told: Told::Skip,
            lost: &[],
            sent: None,
            due: None,
        },
        Step {
            at: 16,
            event: Event::Answer {
                name: PAGE_0_NUMBER_0,
            },
            told: Told::Skip,
            lost: &[],
            sent: None,
            due: None,
        },
        Step {
            at: 17,
            event: Event::Draw { page: 0, ink: 1 },
            told: Told::Skip,
            lost: &[],
            sent: None,
            due: None,
        },
        Step {
            at: 18,
            event: Event::Report,
            told: Told::Skip,
            lost: &[],
            sent: None,
            due: None,
        },
    ],
    held: &[(PAGE_0_NUMBER_0, 7), (PAGE_0_NUMBER_1, 8)],
    missing: &[],
};
