//! That a feed of a reader fails exactly where its reader does.
use srm_scenario::feed::{Feed, FeedFault, ReadFeed};
use std::alloc::{AllocError, Global};
use std::io;
use std::io::{ErrorKind, Read};
use std::test::Fail;

// Gives three bytes at a time, and fails at one call, of those counted from 0.
#[derive(Drop)]
struct FailsOnce {
    left: &'static [u8],
    call: usize,
    fails_at: usize,
    kind: ErrorKind,
}

impl Read for FailsOnce {
    fn read(&mut self, buf: &mut [u8]) -> io::Result<usize> {
        let call = self.call;
        self.call = call.saturating_add(1);
        if call == self.fails_at {
            return Err(io::Error::from(self.kind));
        }
        let count = self.left.len().min(buf.len()).min(3);
        buf[..count].copy_from_slice(&self.left[..count]);
        self.left = &self.left[count..];
        Ok(count)
    }
}

// What five calls give of a reader of seven bytes, with a bar between them: a call's bytes, or an exclamation mark where it
// fails.
fn pieces(alloc: Global, kind: ErrorKind, fails_at: usize) -> Result<Vec<u8>, AllocError> {
    let mut feed = ReadFeed::new(FailsOnce {
        left: b"version",
        call: 0,
        fails_at,
        kind,
    });
    let mut pieces = Vec::new(alloc);
    for call in 0..5_usize {
        if call > 0 {
            pieces.push(b'|')?;
        }
        let mut buf = [0; 8];
        match feed.feed(&mut buf) {
            Ok(count) => pieces.extend_from_slice(&buf[..count])?,
            Err(FeedFault) => pieces.push(b'!')?,
        }
    }
    Ok(pieces)
}

#[test]
fn a_feed_fails_where_its_reader_does_and_nowhere_else(rt: HostRuntime) -> Result<(), Fail> {
    for kind in [ErrorKind::Other, ErrorKind::Interrupted] {
        for (fails_at, want) in [
            (0, "!|ver|sio|n|"),
            (1, "ver|!|sio|n|"),
            (2, "ver|sio|!|n|"),
            (3, "ver|sio|n|!|"),
            (4, "ver|sio|n||!"),
            (5, "ver|sio|n||"),
        ] {
            let told = pieces(rt.alloc(), kind, fails_at)?;
            assert_eq!(rt;
                told.as_slice(),
                want.as_bytes(),
                "failing at call {fails_at}"
            );
        }
    }
    Ok(())
}

#[test]
fn a_feed_without_room_gives_nothing_and_does_not_fail(rt: HostRuntime) {
    let mut feed = ReadFeed::new(&b"version"[..]);
    assert_eq!(rt; feed.feed(&mut []), Ok(0));
    let mut buf = [0; 8];
    assert_eq!(rt; feed.feed(&mut buf), Ok(7));
}
