//! The text of an image.

ghost use Rattle.std.specs.Prelude.{◌≡◌, ◌≤◌, ◌++◌, length, replicate, take, IfOk, OnOk, IsTrue, is_ok};
ghost use Rattle.std.specs.String.{string_bytes};
ghost use Rattle.dn_print.specs.Terms.{Appended, dump_text, heading_text, line_text, lines_text};

use crate::OutOfMemory;
use std::alloc::Global;

/// How many bytes of the image stand in a line.
pub const LINE: usize = 32;

/// The line of 32 bytes that are 0.
const ZERO_LINE: &[u8; 65] = b"0000000000000000000000000000000000000000000000000000000000000000\n";

/// A heading with the number of bytes of an image, and the bytes in lower-case hexadecimal, 32 in a
/// line and in the last as many as are left. `Err` is want of memory.
pub fn dump_text(alloc: Global, image: &[u8]) -> Result<Vec<u8>, OutOfMemory>
    ensures { IfOk result (λ v. v.items ≡ dump_text image.now) }
{
    let mut out = heading_text(alloc, image.len())?.into_bytes();
    write_lines(&mut out, image)?;
    Ok(out)
}

/// The heading above the lines of so many bytes. `Err` is want of memory.
pub fn heading_text(alloc: Global, count: usize) -> Result<String, OutOfMemory>
    ensures { IfOk result (λ s. string_bytes s ≡ heading_text count) }
{
    format!(in alloc; "dump bytes {count}\n")
}

/// Appends the lines of bytes, 32 in a line. Bytes that are handed in one after the other, each time
/// a multiple of 32 but the last, have the lines of all of them. For want of memory nothing is
/// appended.
pub fn push_lines(out: &mut Vec<u8>, bytes: &[u8]) -> Result<(), OutOfMemory>
    ensures { Appended out.old.items out.new.items (is_ok result) (lines_text bytes.now) }
{
    let len = out.len();
    let made = write_lines(out, bytes);
    if made.is_err() {
        out.truncate(len);
    }
    made
}

/// Appends the lines of bytes. What was there stays in front.
fn write_lines(out: &mut Vec<u8>, bytes: &[u8]) -> Result<(), OutOfMemory>
    ensures lines { OnOk result (out.new.items ≡ out.old.items ++ lines_text bytes.now) }
    ensures kept { take (length out.old.items) out.new.items ≡ out.old.items }
{
    for line in bytes.chunks(LINE) {
        write_line(out, line)?;
    }
    Ok(())
}

/// Appends a line of at most 32 bytes, two digits each, and its end. What was there stays in front.
fn write_line(out: &mut Vec<u8>, line: &[u8]) -> Result<(), OutOfMemory>
    requires { length line.now ≤ 32 }
    ensures line { OnOk result (out.new.items ≡ out.old.items ++ line_text line.now) }
    ensures kept { take (length out.old.items) out.new.items ≡ out.old.items }
{
    if line.len() == LINE && is_zero(line) {
        out.extend_from_slice(ZERO_LINE)?;
        return Ok(());
    }
    let mut digits = [0u8; 2 * LINE];
    let size = 2 * line.len();
    hex::encode_to_slice(line, &mut digits[..size]).unwrap();
    out.extend_from_slice(&digits[..size])?;
    out.push(b'\n')?;
    Ok(())
}

/// Whether each byte of a line is 0.
fn is_zero(line: &[u8]) -> bool
    requires { length line.now ≤ 32 }
    ensures { IsTrue result → line.now ≡ replicate (length line.now) 0 }
{
    let mut sum = 0;
    for byte in line {
        sum += u64::from(*byte);
    }
    sum == 0
}
