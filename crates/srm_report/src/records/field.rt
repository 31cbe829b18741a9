//! The bytes of a field of a record.
use itoa::write_digits;
use srm_net::packet::{Name, PacketId};
use std::marker::Model;

// How many bytes there is room for: those of three numbers of up to 20 digits, with two marks between them.
const ROOM: usize = 62;

// The bytes of a field, at the end of their room. Contracts see the bytes.
#[derive(Drop)]
pub(crate) struct Field {
    bytes: [u8; ROOM],
    start: usize,
}

impl Model for Field {
    ghost use Rattle.std.specs.Prelude.{List, ℕ, ◌≤◌, drop};

    ghost Value = { List ℕ };

    ghost view = { λ f. drop f.start f.bytes };

    ghost invariant = { λ f. f.start ≤ 62 };
}

impl Field {
    ghost use Rattle.std.specs.Prelude.{◌≡◌, ◌≤◌, ◌+◌, ◌∷◌, ◌++◌, codes, decimal, length};
    ghost use Rattle.srm_report.specs.Rows.{or_dash};
    ghost use Rattle.srm_report.specs.Trace.{name_text, packet_text};

    // A dash, where there is nothing to be told.
    pub(crate) fn dash() -> Field
        ensures { result ≡ codes "-" }
    {
        Field {
            bytes: [b'-'; ROOM],
            start: ROOM - 1,
        }
    }

    // A number in digits.
    #[inline]
    pub(crate) fn number(number: u64) -> Field
        ensures { result ≡ decimal number }
    {
        let mut bytes = [0; ROOM];
        let start = write_digits(number, &mut bytes, ROOM);
        Field { bytes, start }
    }

    // A number in digits, or a dash where there is none.
    pub(crate) fn or_dash(number: Option<u64>) -> Field
        ensures { result ≡ or_dash decimal number }
    {
        match number {
            None => Field::dash(),
            Some(number) => Field::number(number),
        }
    }

    // A delay over another, as two numbers with a slash.
    pub(crate) fn ratio(took: u64, way: u64) -> Field
        ensures { result ≡ decimal took ++ codes "/" ++ decimal way }
    {
        Field::number(way).behind(took, b'/')
    }

    // A packet, as `sender:count`.
    pub(crate) fn packet(packet: PacketId) -> Field
        ensures { result ≡ packet_text packet }
    {
        Field::number(packet.count).behind(u64::from(packet.sender), b':')
    }

    // A name, as `source/page/number`.
    pub(crate) fn name(name: Name) -> Field
        ensures { result ≡ name_text name }
    {
        Field::number(u64::from(name.number))
            .behind(u64::from(name.page), b'/')
            .behind(u64::from(name.source), b'/')
    }

    // The bytes.
    #[inline]
    pub(crate) fn text(&self) -> &[u8]
        ensures { result.now ≡ self.now }
    {
        &self.bytes[self.start..]
    }

    // These bytes behind a number and a mark.
    fn behind(self, number: u64, mark: u8) -> Field
        requires { length self + 21 ≤ 62 }
        ensures { result ≡ decimal number ++ mark ∷ self }
    {
        let Field { mut bytes, start } = self;
        bytes[start - 1] = mark;
        let start = write_digits(number, &mut bytes, start - 1);
        Field { bytes, start }
    }
}
