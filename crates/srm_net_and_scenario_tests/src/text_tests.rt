//! That a text is read to its end, to the first failure, or to one byte too many.
use srm_scenario::bytes::{TextFault, read_text};
use srm_scenario::feed::ReadFeed;
use std::io;
use std::io::{ErrorKind, Read};
use std::test::Fail;

// Gives spaces, at most 1,000 at a time, and fails at one call.
#[derive(Drop)]
struct Spaces {
    left: usize,
    call: usize,
    fails_at: usize,
}

impl Read for Spaces {
    fn read(&mut self, buf: &mut [u8]) -> io::Result<usize> {
        let call = self.call;
        self.call = call.saturating_add(1);
        if call == self.fails_at {
            return Err(io::Error::from(ErrorKind::Other));
        }
        let count = self.left.min(buf.len()).min(1000);
        for byte in buf[..count].iter_mut() {
            *byte = b' ';
        }
        self.left -= count;
        Ok(count)
    }
}

#[test]
fn reads_to_the_end_or_to_the_first_failure(rt: HostRuntime) -> Result<(), Fail> {
    let never = usize::MAX;
    let table = [
        (0, never, Ok(0)),
        (5000, never, Ok(5000)),
        (1_048_576, never, Ok(1_048_576)),
        (1_048_577, never, Err(TextFault::TooLong)),
        (3_000_000, never, Err(TextFault::TooLong)),
        (5000, 0, Err(TextFault::ReadFault)),
        (5000, 3, Err(TextFault::ReadFault)),
        // In place of the end.
        (5000, 5, Err(TextFault::ReadFault)),
        (0, 0, Err(TextFault::ReadFault)),
        // After as many bytes as are ever asked for.
        (1_048_577, 1049, Err(TextFault::TooLong)),
    ];
    for (left, fails_at, want) in table {
        let mut feed = ReadFeed::new(Spaces {
            left,
            call: 0,
            fails_at,
        });
        let len = read_text(rt.alloc(), &mut feed).map(|text| text.len());
        assert_eq!(rt; len, want, "{left} bytes, failing at call {fails_at}");
    }
    Ok(())
}

#[test]
fn keeps_the_bytes_in_order(rt: HostRuntime) -> Result<(), Fail> {
    let mut feed = ReadFeed::new(&b"version = 1\n"[..]);
    let text = read_text(rt.alloc(), &mut feed);
    assert_eq!(rt;
        text.map_err(|_| "no text")?.as_slice(),
        b"version = 1\n".as_slice()
    );
    Ok(())
}
