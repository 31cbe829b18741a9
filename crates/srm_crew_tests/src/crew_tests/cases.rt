//! Cases, worked by hand.
use crate::crew_tests::case::{Case, Wanted};
use srm_examples::scenarios::{STAR_LOSS_AT_THE_SOURCE, TWO_NODES};
use srm_interfaces::fault::CrewFault;
use srm_ledger::seat::SHARE_MOST;
use srm_member::row::Word;
use srm_member::told::Told;

// The sender draws at ticks 0 and 5; the first packet crosses the link.
const SENDER_AND_LISTENER: Case = Case {
    scenario: TWO_NODES,
    sent: 0,
    is_over: false,
    counted: 0,
    till: 5,
    wanted: Ok(Wanted {
        rows: &[
            (0, 0, Word::Join, Told::Entered, None),
            (0, 0, Word::Draw, Told::Sent, Some(0)),
            (0, 1, Word::Join, Told::Entered, None),
        ],
        crossings: &[(0, [1, 0, 0, 0, 0])],
        next_times: &[Some(5), None],
        totals: &[[1, 0, 0, 0, 0]],
    }),
};

// The first packet is dropped at once, and the second crosses all links.
const FOUR_ROUND_A_NODE: Case = Case {
    scenario: STAR_LOSS_AT_THE_SOURCE,
    sent: 0,
    is_over: false,
    counted: 0,
    till: 105,
    wanted: Ok(Wanted {
        rows: &[
            (0, 0, Word::Join, Told::Entered, None),
            (0, 0, Word::Draw, Told::Sent, Some(0)),
            (100, 0, Word::Draw, Told::Sent, Some(1)),
            (0, 1, Word::Join, Told::Entered, None),
            (0, 2, Word::Join, Told::Entered, None),
            (0, 3, Word::Join, Told::Entered, None),
        ],
        crossings: &[
            (0, [1, 0, 0, 0, 1]),
            (0, [1, 0, 0, 0, 0]),
            (0, [1, 0, 0, 0, 0]),
            (0, [1, 0, 0, 0, 0]),
        ],
        next_times: &[None, None, None, None],
        totals: &[
            [1, 0, 0, 0, 1],
            [1, 0, 0, 0, 0],
            [1, 0, 0, 0, 0],
            [1, 0, 0, 0, 0],
        ],
    }),
};

// The sender has one packet left, and sends it.
const LAST_PACKET: Case = Case {
    scenario: TWO_NODES,
    sent: 281_474_976_710_655,
    is_over: false,
    counted: 0,
    till: 1,
    wanted: Ok(Wanted {
        rows: &[
            (0, 0, Word::Join, Told::Entered, None),
            (0, 0, Word::Draw, Told::Sent, Some(281_474_976_710_655)),
            (0, 1, Word::Join, Told::Entered, None),
        ],
        crossings: &[(0, [1, 0, 0, 0, 0])],
        next_times: &[Some(5), None],
        totals: &[[1, 0, 0, 0, 0]],
    }),
};

// The sender has one packet left, and is to send two.
const NO_PACKET_LEFT: Case = Case {
    scenario: TWO_NODES,
    sent: 281_474_976_710_655,
    is_over: false,
    counted: 0,
    till: 6,
    wanted: Err(CrewFault::CountFull),
};

// Both members have ended before they join.
const OVER: Case = Case {
    scenario: TWO_NODES,
    sent: 0,
    is_over: true,
    counted: 0,
    till: 1,
    wanted: Err(CrewFault::Spent),
};

// The seat's share of what crosses the link is as large as it may be, and the sender's first packet crosses it.
const FULL_SHARE: Case = Case {
    scenario: TWO_NODES,
    sent: 0,
    is_over: false,
    counted: SHARE_MOST,
    till: 1,
    wanted: Err(CrewFault::ShareFull),
};

/// Each of these cases.
pub(crate) static CASES: [Case; 6] = [
    SENDER_AND_LISTENER,
    FOUR_ROUND_A_NODE,
    LAST_PACKET,
    NO_PACKET_LEFT,
    OVER,
    FULL_SHARE,
];
