//! That an outlet of a writer fails exactly where its writer does, or takes nothing.
use srm_report::outlet::{OutFault, Outlet, WriteOutlet};
use std::alloc::Global;
use std::io;
use std::io::{ErrorKind, Write};
use std::process::Abort;

/// What a writer does at the call at which it takes nothing.
#[derive(Clone, Copy, Debug)]
pub(crate) enum Refusal {
    Error(ErrorKind),
    TakesNothing,
}

/// Takes three bytes at a time, and refuses at one call, of those counted from 0.
#[derive(Drop)]
pub(crate) struct RefusesOnce {
    pub(crate) taken: Vec<u8>,
    call: usize,
    refuses_at: usize,
    refusal: Refusal,
}

impl RefusesOnce {
    pub(crate) fn new(alloc: Global, refuses_at: usize, refusal: Refusal) -> Self {
        RefusesOnce {
            taken: Vec::new(alloc),
            call: 0,
            refuses_at,
            refusal,
        }
    }
}

impl Write for RefusesOnce {
    fn write(&mut self, piece: &[u8]) -> io::Result<usize> {
        let call = self.call;
        self.call = call.saturating_add(1);
        if call == self.refuses_at {
            return match self.refusal {
                Refusal::Error(kind) => Err(io::Error::from(kind)),
                Refusal::TakesNothing => Ok(0),
            };
        }
        let count = piece.len().min(3);
        self.taken.extend_from_slice(&piece[..count])?;
        Ok(count)
    }

    fn flush(&mut self) -> io::Result<()> {
        Ok(())
    }
}

const TEXT: &[u8] = b"time,member,cause";

// Puts what is left of the text at an outlet of such a writer, four times, and asserts that just the call fails at which the
// writer refuses.
fn expect_failure_at(rt: &impl Abort, alloc: Global, refuses_at: usize, refusal: Refusal) {
    let mut outlet = WriteOutlet::new(RefusesOnce::new(alloc, refuses_at, refusal));
    let mut taken = 0;
    for call in 0..4 {
        let put = outlet.put(&TEXT[taken..]);
        if call == refuses_at {
            assert_eq!(rt; put, Err(OutFault), "{refusal:?} at call {refuses_at}");
        } else {
            assert_eq!(rt; put, Ok(3), "{refusal:?} at call {refuses_at}");
            taken += 3;
        }
    }
    assert_eq!(rt;
        outlet.into_inner().taken.as_slice(),
        &TEXT[..taken],
        "{refusal:?} at call {refuses_at}"
    );
}

#[test]
fn an_outlet_fails_where_its_writer_does_and_nowhere_else(rt: HostRuntime) {
    for refuses_at in 0..5 {
        for refusal in [
            Refusal::Error(ErrorKind::Other),
            Refusal::Error(ErrorKind::Interrupted),
            Refusal::TakesNothing,
        ] {
            expect_failure_at(&rt, rt.alloc(), refuses_at, refusal);
        }
    }
}

#[test]
fn taking_nothing_of_an_empty_piece_is_no_failure(rt: HostRuntime) {
    let mut outlet = WriteOutlet::new(RefusesOnce::new(rt.alloc(), 0, Refusal::TakesNothing));
    let of_an_empty_piece = outlet.put(b"");
    let of_the_text = outlet.put(TEXT);
    assert_eq!(rt; (of_an_empty_piece, of_the_text), (Ok(0), Ok(3)));
}
