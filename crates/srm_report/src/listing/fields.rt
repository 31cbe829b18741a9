//! Fields of a line. Each is put before the fields that are there, with a comma before it. None calls for quotes.
ghost use Rattle.std.specs.Prelude.{◌≡◌, ◌+◌, ◌≤◌, ◌∷◌, ◌++◌, codes, decimal};
ghost use Rattle.csv.specs.Writing.{comma};
ghost use Rattle.srm_report.specs.Lines.{PutsField, buffer_room, buffer_written, name_room, number_room, pair_room};
ghost use Rattle.srm_report.specs.Rows.{or_dash};
ghost use Rattle.srm_report.specs.Trace.{name_text, packet_text};

use crate::listing::line_buffer::LineBuffer;
use srm_net::packet::{Name, PacketId};

// Puts a dash, where there is nothing to be told.
#[inline]
pub(crate) fn put_dash(buffer: &mut LineBuffer)
    requires { 2 ≤ buffer_room buffer.old }
    ensures room { buffer_room buffer.old ≡ buffer_room buffer.new + 2 }
    ensures written { buffer_written buffer.new ≡ comma ∷ (codes "-" ++ buffer_written buffer.old) }
{
    buffer.put_two(b',', b'-');
}

// Puts a number in digits.
#[inline]
pub(crate) fn put_number(buffer: &mut LineBuffer, number: u64)
    requires { number_room ≤ buffer_room buffer.old }
    ensures { PutsField number_room buffer.old (decimal number) buffer.new }
{
    buffer.put_marked(b',', number);
}

// Puts a time in digits, or `-` where there is none.
pub(crate) fn put_time(buffer: &mut LineBuffer, time: Option<u64>)
    requires { number_room ≤ buffer_room buffer.old }
    ensures { PutsField number_room buffer.old (or_dash decimal time) buffer.new }
{
    match time {
        None => put_dash(buffer),
        Some(time) => put_number(buffer, time),
    }
}

// Puts a packet as `sender:count`.
#[inline]
pub(crate) fn put_packet(buffer: &mut LineBuffer, packet: PacketId)
    requires { pair_room ≤ buffer_room buffer.old }
    ensures { PutsField pair_room buffer.old (packet_text packet) buffer.new }
{
    buffer.put_marked(b':', packet.count);
    put_number(buffer, u64::from(packet.sender));
}

// Puts a name as `source/page/number`.
#[inline]
pub(crate) fn put_name(buffer: &mut LineBuffer, name: Name)
    requires { name_room ≤ buffer_room buffer.old }
    ensures { PutsField name_room buffer.old (name_text name) buffer.new }
{
    buffer.put_marked(b'/', u64::from(name.number));
    buffer.put_marked(b'/', u64::from(name.page));
    put_number(buffer, u64::from(name.source));
}
