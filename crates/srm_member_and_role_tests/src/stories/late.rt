//! What a late joiner answers.
use crate::stories::carried::Carried;
use crate::stories::event::Event;
use crate::stories::step::Step;
use crate::stories::story::Story;
use srm_member::due::Due;
use srm_member::told::Told;
use srm_net::packet::{Heard, Name};
use srm_net::rank::Rank;

const PAGE_0_NUMBER_1: Name = Name {
    source: 0,
    page: 0,
    number: 1,
};

const PAGE_0_NUMBER_2: Name = Name {
    source: 0,
    page: 0,
    number: 2,
};

const PAGE_1_NUMBER_0: Name = Name {
    source: 0,
    page: 1,
    number: 0,
};

const PAGE_1_NUMBER_1: Name = Name {
    source: 0,
    page: 1,
    number: 1,
};

const PAGE_1_NUMBER_2: Name = Name {
    source: 0,
    page: 1,
    number: 2,
};

const PAGE_2_NUMBER_4: Name = Name {
    source: 0,
    page: 2,
    number: 4,
};

/// A late joiner that wants page 1 whole, with distance 10 to member 0 and 5 to member 1, and request timers of two to four times
/// the distance, of the words 0xa15c02b7, 0x7b47f409 and 0xba1d3330.
pub const LATE: Story = Story {
    member: 2,
    steps: &[
        Step {
            at: 20,
            event: Event::Join,
            told: Told::Entered,
            lost: &[],
            sent: None,
            due: None,
        },
        // page 0 is not wanted: it begins with number 2
        Step {
            at: 30,
            event: Event::Arrival {
                sender: 0,
                carried: Carried::Data {
                    name: PAGE_0_NUMBER_2,
                    ink: 9,
                },
            },
            told: Told::Fresh,
            lost: &[],
            sent: None,
            due: None,
        },
        Step {
            at: 31,
            event: Event::Arrival {
                sender: 0,
                carried: Carried::Data {
                    name: PAGE_0_NUMBER_1,
                    ink: 8,
                },
            },
            told: Told::Skip,
            lost: &[],
            sent: None,
            due: None,
        },
        // 20 to 40 ticks: 40 + 33
        Step {
            at: 40,
            event: Event::Arrival {
                sender: 0,
                carried: Carried::Data {
                    name: PAGE_1_NUMBER_1,
                    ink: 5,
                },
            },
            told: Told::Fresh,
            lost: &[PAGE_1_NUMBER_0],
            sent: None,
            due: Some(Due {
                time: 73,
                rank: Rank::Request,
                name: PAGE_1_NUMBER_0,
            }),
        },
        // page 2 is not wanted: it begins with number 5
        Step {
            at: 45,
            event: Event::Arrival {
                sender: 1,
                carried: Carried::Request {
                    name: PAGE_2_NUMBER_4,
                    scope: None,
                },
            },
            told: Told::Skip,
            lost: &[],
            sent: None,
            due: Some(Due {
                time: 73,
                rank: Rank::Request,
                name: PAGE_1_NUMBER_0,
            }),
        },
        // page 3 is not wanted: it begins with number 7; of page 1 a number is lost, for 20 to 40 ticks: 50 + 30
        Step {
            at: 50,
            event: Event::Arrival {
                sender: 1,
                carried: Carried::Session {
                    heard: &[
                        Heard {
                            source: 0,
                            page: 3,
                            highest: 6,
                        },
                        Heard {
                            source: 0,
                            page: 1,
                            highest: 2,
                        },
                    ],
                },
            },
            told: Told::Heard,
            lost: &[PAGE_1_NUMBER_2],
            sent: None,
            due: Some(Due {
                time: 73,
                rank: Rank::Request,
                name: PAGE_1_NUMBER_0,
            }),
        },
        // 40 to 80 ticks: 60 + 69, later than the other timer
        Step {
            at: 60,
            event: Event::Arrival {
                sender: 1,
                carried: Carried::Request {
                    name: PAGE_1_NUMBER_0,
                    scope: None,
                },
            },
            told: Told::Back,
            lost: &[],
            sent: None,
            due: Some(Due {
                time: 80,
                rank: Rank::Request,
                name: PAGE_1_NUMBER_2,
            }),
        },
        Step {
            at: 61,
            event: Event::Arrival {
                sender: 1,
                carried: Carried::Request {
                    name: PAGE_1_NUMBER_0,
                    scope: None,
                },
            },
            told: Told::Hold,
            lost: &[],
            sent: None,
            due: Some(Due {
                time: 80,
                rank: Rank::Request,
                name: PAGE_1_NUMBER_2,
            }),
        },
        Step {
            at: 70,
            event: Event::Arrival {
                sender: 1,
                carried: Carried::Repair {
                    name: PAGE_1_NUMBER_0,
                    ink: 4,
                    local: None,
                },
            },
            told: Told::Fixed,
            lost: &[],
            sent: None,
            due: Some(Due {
                time: 80,
                rank: Rank::Request,
                name: PAGE_1_NUMBER_2,
            }),
        },
    ],
    held: &[
        (PAGE_0_NUMBER_2, 9),
        (PAGE_1_NUMBER_0, 4),
        (PAGE_1_NUMBER_1, 5),
    ],
    missing: &[PAGE_1_NUMBER_2],
};
