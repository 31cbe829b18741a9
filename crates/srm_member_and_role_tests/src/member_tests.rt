//! What stands beside loss recovery in members: held names, maps from names, copies of causes, lengths of timers.
use crate::stories::carried::Carried;
use crate::stories::event::Event;
use crate::stories::following::attempt_twice;
use srm_member::backoff::BackoffFactor;
use srm_member::cause::Cause;
use srm_member::held::Held;
use srm_member::named::Named;
use srm_member::timers::draw;
use srm_net::packet::{Heard, Name};
use std::alloc::{AllocError, Global};
use std::process::Abort;

// The numbers of the names that are put in: more than a map keeps in one block.
const NUMBERS: [u32; 20] = [
    0, 1, 2, 3, 4, 5, 6, 7, 8, 9, 10, 11, 12, 13, 14, 15, 16, 17, 18, 19,
];

fn name(number: u32) -> Name {
    Name {
        source: 1,
        page: 2,
        number,
    }
}

// What is held of each of these names.
fn inks(held: &Held) -> [Option<u32>; 20] {
    NUMBERS.map(|number| held.get(name(number)))
}

// Holds a name, and asserts that all is as it was where memory is refused.
fn hold(rt: &impl Abort, held: &mut Held, key: Name, ink: u32) -> Result<(), AllocError> {
    let before = inks(held);
    if held.put(key, ink).is_err() {
        assert_eq!(rt; inks(held), before);
        return Err(AllocError);
    }
    assert_eq!(rt; held.get(key), Some(ink));
    Ok(())
}

// Asserts that these are the names, in order, each with the second ink that was put in for it.
fn expect_second_inks(rt: &impl Abort, entries: &[(Name, u32)]) {
    assert_eq!(rt; entries.len(), 20);
    for number in 0..20 {
        // The second ink of the name: 7 * 3 is one more than 20.
        let ink = 20 + 3 * number % 20;
        let entry = entries.get(number as usize);
        assert_eq!(rt; entry.copied(), Some((name(number), ink)));
    }
}

// Holds each name twice, in no order.
fn hold_all(rt: &impl Abort, alloc: Global) -> Result<(), AllocError> {
    let mut held = Held::new(alloc);
    for ink in 0..40 {
        hold(rt, &mut held, name(7 * ink % 20), ink)?;
    }
    let entries = held.entries(alloc)?;
    expect_second_inks(rt, entries.as_slice());
    Ok(())
}

#[test]
fn names_are_held_in_order_each_with_its_last_ink(rt: HostRuntime) -> Result<(), AllocError> {
    attempt_twice(&rt, || hold_all(&rt, rt.alloc()))
}

// A map with two values put in for each name, in no order.
fn filled(alloc: Global) -> Result<Named<u32>, AllocError> {
    let mut map = Named::new(alloc);
    for value in 0..40u32 {
        map.put(name(7 * value % 20), value)?;
    }
    Ok(map)
}

// Takes the first name out of a map with each name.
fn take_one(rt: &impl Abort, alloc: Global) -> Result<(), AllocError> {
    let mut map = filled(alloc)?;
    let before = map.get(name(0));
    let taken = map.take(name(0));
    let after = map.take(name(0));
    assert_eq!(rt; (before, taken, after), (Some(20), Some(20), None));
    let names = map.names(alloc)?;
    let first = names.as_slice().first().copied();
    assert_eq!(rt; (names.len(), first), (19, Some(name(1))));
    Ok(())
}

#[test]
fn a_map_has_what_was_put_in_and_not_taken_out(rt: HostRuntime) -> Result<(), AllocError> {
    attempt_twice(&rt, || take_one(&rt, rt.alloc()))
}

// Copies a cause.
fn copy(rt: &impl Abort, alloc: Global) -> Result<(), AllocError> {
    let carried = Carried::Session {
        heard: &[Heard {
            source: 1,
            page: 2,
            highest: 3,
        }],
    };
    let cause = Event::Arrival { sender: 4, carried }.cause(alloc)?;
    let copy = cause.clone()?;
    assert!(rt; is_arrival(&copy, 4, carried));
    Ok(())
}

// Whether a cause is the arrival of a packet of this sender that carries this.
fn is_arrival(cause: &Cause, sender: u16, carried: Carried) -> bool {
    match cause {
        Cause::Arrival { packet } => packet.id.sender == sender && carried.is_in(&packet.body),
        _ => false,
    }
}

#[test]
fn the_copy_of_a_cause_is_that_cause(rt: HostRuntime) -> Result<(), AllocError> {
    attempt_twice(&rt, || copy(&rt, rt.alloc()))
}

// Where the length of a request timer after so many backoffs lies, and its length drawn with a word. The distance is 10 ticks.
fn request_timer(backoffs: u32, word: u32) -> (u64, u64, u64) {
    let (lo, hi) = BackoffFactor::Two.span(backoffs, 2000, 2000, 10);
    (lo, hi, draw(word, lo, hi))
}

// The words are the first two of seed 42 and stream 54.
#[test]
fn lengths_of_timers(rt: HostRuntime) {
    assert_eq!(rt; request_timer(0, 0xa15c_02b7), (20, 40, 33));
    assert_eq!(rt; request_timer(1, 0x7b47_f409), (40, 80, 59));
}
