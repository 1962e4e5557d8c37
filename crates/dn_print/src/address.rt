//! The text of addresses.

ghost use Rattle.std.specs.Prelude.{◌≡◌, ◌≤◌, ◌<◌, ◌+◌, ◌++◌, codes, drop, false, OnOk, IsAscii};
ghost use Rattle.std.specs.Fmt.{digits_onto, digit_glyph};
ghost use Rattle.std.specs.String.{string_bytes};
ghost use Rattle.dn_print.specs.Terms.{address_text};

use crate::OutOfMemory;
use std::str::from_utf8_unchecked;

/// The most digits that a number is given room for.
const DIGITS: usize = 64;

/// Room for two addresses with a sign each.
const ROOM: usize = 134;

/// Appends the first and the last address of a row and a space, to a text that is given up for want of
/// memory. As `write!` would, and several times as fast.
pub(crate) fn write_span(out: &mut String, lo: u64, hi: u64) -> Result<(), OutOfMemory>
    ensures { OnOk result (string_bytes out.new ≡ string_bytes out.old
        ++ (address_text lo ++ (codes "-" ++ (address_text hi ++ codes " ")))) }
{
    let mut room = [0; ROOM];
    room[ROOM - 1] = b' ';
    let second = encode(hi, &mut room, ROOM - 1);
    room[second - 1] = b'-';
    let start = encode(lo, &mut room, second - 1);
    out.push_str(unsafe { from_utf8_unchecked(&room[start..]) })
}

/// Appends `@` and an address, to a text that is given up for want of memory.
pub(crate) fn write_at(out: &mut String, addr: u64) -> Result<(), OutOfMemory>
    ensures { OnOk result (string_bytes out.new ≡ string_bytes out.old
        ++ (codes "@" ++ address_text addr)) }
{
    let mut room = [0; ROOM];
    let first = encode(addr, &mut room, ROOM);
    room[first - 1] = b'@';
    out.push_str(unsafe { from_utf8_unchecked(&room[first - 1..]) })
}

/// Writes a number as an address in front of this place of the room, `0x` and its digits in hexadecimal, and
/// answers where it begins.
fn encode(number: u64, room: &mut [u8; ROOM], end: usize) -> usize
    requires some { 66 ≤ end }
    requires within { end ≤ 134 }
    ensures before { result ≤ end }
    ensures behind { end ≤ result + 66 }
    ensures text { drop result room.new ≡ address_text number ++ drop end room.old }
{
    let first = put_digits(number, room, end);
    room[first - 1] = b'x';
    room[first - 2] = b'0';
    first - 2
}

/// Writes the digits of a number in front of this place of the room, and answers where they begin.
fn put_digits(number: u64, room: &mut [u8; ROOM], end: usize) -> usize
    requires some { 66 ≤ end }
    requires within { end ≤ 134 }
    ensures before { result ≤ end }
    ensures behind { end ≤ result + 64 }
    ensures digits { drop result room.new ≡ digits_onto 64 16 false number (drop end room.old) }
{
    let last = end - DIGITS;
    let mut place = end;
    let mut rest = number;
    while place > last {
        place -= 1;
        room[place] = glyph(rest % 16);
        rest /= 16;
        if rest == 0 {
            break;
        }
    }
    place
}

/// A digit, as it is printed.
fn glyph(digit: u64) -> u8
    requires { digit < 16 }
    ensures { result ≡ digit_glyph false digit }
{
    let low = digit as u8;
    if low < 10 {
        b'0' + low
    } else {
        b'a' + (low - 10)
    }
}
