//! Lines of a CSV text, made in memory.
ghost use Rattle.std.specs.Prelude.{◌<◌};
ghost use Rattle.srm_report.specs.declared.listing.line_buffer.TheConstants.{SIZE};

use itoa::write_digits;

// How many bytes a line has at most: one of timers thirteen numbers of up to 20 digits, three of them in a name, and a word of up to
// 7 letters, a byte before each of these.
const LONGEST: usize = 281;

/// How many lines there is room for, however long they are. A buffer above two kilobytes takes far longer to clear.
pub(crate) const MOST_LINES: usize = 4;

// How many bytes there are.
const SIZE: usize = 1 + MOST_LINES * LONGEST;

/// Lines that are written from the end of the last to the front of the first, as the digits of a number are: so each byte goes to
/// its place at once. Each field is put with a comma before it, and the one before a line is overwritten by the line feed of the
/// line that is put next.
#[derive(Drop)]
pub struct LineBuffer {
    bytes: [u8; SIZE],
    // Where that which is written starts, with the byte before the first line.
    start: usize,
    ghost within: { start < SIZE },
}

impl LineBuffer {
    ghost use Rattle.std.specs.Prelude.{◌≡◌, ◌+◌, ◌-◌, ◌≤◌, [], ◌∷◌, ◌++◌, drop, length, decimal};
    ghost use Rattle.csv.specs.Machine.{line_feed};
    ghost use Rattle.srm_report.specs.Lines.{full_room, buffer_room, buffer_text, buffer_written, number_room};

    // No line.
    pub(crate) fn new() -> LineBuffer
        ensures room { buffer_room result ≡ full_room }
        ensures text { buffer_text result ≡ [] }
    {
        LineBuffer {
            bytes: [0; SIZE],
            start: SIZE - 1,
        }
    }

    // Takes all lines out.
    pub(crate) fn clear(&mut self)
        ensures room { buffer_room self.new ≡ full_room }
        ensures text { buffer_text self.new ≡ [] }
    {
        self.start = SIZE - 1;
    }

    // The lines.
    #[inline]
    pub(crate) fn text(&self) -> &[u8]
        ensures { result.now ≡ buffer_text self.now }
    {
        &self.bytes[self.start + 1..]
    }

    // Writes the line feed of a line that is put before the others.
    #[inline]
    pub(crate) fn end_line(&mut self)
        ensures room { buffer_room self.new ≡ buffer_room self.old }
        ensures written { buffer_written self.new ≡ line_feed ∷ buffer_text self.old }
    {
        self.bytes[self.start] = b'\n';
    }

    // Writes a byte before the others.
    #[inline]
    pub(crate) fn put_byte(&mut self, byte: u8)
        requires { 0 < buffer_room self.old }
        ensures room { buffer_room self.old ≡ buffer_room self.new + 1 }
        ensures written { buffer_written self.new ≡ byte ∷ buffer_written self.old }
    {
        self.start -= 1;
        self.bytes[self.start] = byte;
    }

    // Writes bytes before the others.
    #[inline]
    pub(crate) fn put_bytes(&mut self, bytes: &[u8])
        requires { length bytes.now ≤ buffer_room self.old }
        ensures room { buffer_room self.old ≡ buffer_room self.new + length bytes.now }
        ensures written { buffer_written self.new ≡ bytes.now ++ buffer_written self.old }
    {
        let start = self.start - bytes.len();
        self.bytes[start..self.start].copy_from_slice(bytes);
        self.start = start;
    }

    // Writes two bytes before the others.
    #[inline(always)]
    pub(crate) fn put_two(&mut self, first: u8, second: u8)
        requires { 2 ≤ buffer_room self.old }
        ensures room { buffer_room self.old ≡ buffer_room self.new + 2 }
        ensures written { buffer_written self.new ≡ first ∷ second ∷ buffer_written self.old }
    {
        self.put_byte(second);
        self.put_byte(first);
    }

    // Writes the last so many of eight bytes before the others.
    //
    // All eight are copied, since that is one move where a copy of fewer is a call: what is put next overwrites those too many.
    #[inline(always)]
    pub(crate) fn put_last(&mut self, bytes: [u8; 8], count: usize)
        requires count { count ≤ 8 }
        requires room { 8 ≤ buffer_room self.old }
        ensures room { buffer_room self.old ≡ buffer_room self.new + count }
        ensures written { buffer_written self.new ≡ drop (8 - count) bytes ++ buffer_written self.old }
    {
        self.put_bytes(&bytes);
        self.start += 8 - count;
    }

    // Writes a mark and a number in digits before the others.
    #[inline(always)]
    pub(crate) fn put_marked(&mut self, mark: u8, number: u64)
        requires { number_room ≤ buffer_room self.old }
        ensures room { buffer_room self.old ≤ buffer_room self.new + number_room }
        ensures written { buffer_written self.new ≡ mark ∷ (decimal number ++ buffer_written self.old) }
    {
        // Most numbers of a trace have one digit.
        if number < 10 {
            self.put_two(mark, b'0' + number as u8);
        } else {
            self.start = write_digits(number, &mut self.bytes, self.start);
            self.put_byte(mark);
        }
    }
}
