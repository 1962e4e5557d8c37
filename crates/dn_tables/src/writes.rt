//! Writes of words to a device, each of which is kept once it was made.

ghost use Rattle.std.specs.Prelude.{◌≡◌, ℕ, ◌+◌, ◌*◌, ◌-◌, ◌<◌, ◌≤◌, ◌^◌, true, length, is_err};
ghost use Rattle.dn_base.specs.Terms.{IsCounted, has_word};
ghost use Rattle.dn_tables.specs.Terms.{AreWordsWritten, clears_from, writes_from};

use dn_base::device::{DeviceFault, Tables};
use dn_base::filled::Filled;

/// Whether a write to a device was done, or several in order.
pub type Written = Result<(), DeviceFault>;

/// The words of a record that is cleared, but for its gate word.
const ZEROS: [u64; 3] = [0; 3];

/// Writes values from a word of a unit on, in ascending order, and keeps each that was written.
///
/// # Errors
///
/// `DeviceFault` at the first write that fails; those before it are made and kept.
pub(crate) fn write_all<D: Tables>(
    words: &mut Filled<u64>,
    device: &mut D,
    unit: u16,
    first: u32,
    values: &[u64],
) -> Written
    requires room { first + length values.now ≤ length words.old }
    requires small { first + length values.now < 2 ^ 32 }
    requires there { (word : ℕ) → word < length words.old →
        has_word (D.units device.old) unit word ≡ true }
    ensures written { AreWordsWritten unit (writes_from first values.now) (is_err result)
        (D.log device.old) (D.log device.new) (D.words device.old) (D.words device.new)
        words.old words.new }
    ensures units { D.units device.new ≡ D.units device.old }
    ensures counted { IsCounted (D.faults device.old) (D.faults device.new) (is_err result) }
{
    let mut word = first;
    for value in values {
        device.write(unit, word, *value)?;
        words.set(word as usize, *value);
        word += 1;
    }
    Ok(())
}

/// Writes 0 to the words of a record, the gate word first, and keeps each 0 that was written.
///
/// # Errors
///
/// `DeviceFault` at the first write that fails; those before it are made and kept.
pub(crate) fn clear_all<D: Tables>(
    words: &mut Filled<u64>,
    device: &mut D,
    unit: u16,
    first: u32,
    width: u8,
) -> Written
    requires least { 1 ≤ width }
    requires most { width ≤ 4 }
    requires room { first + width ≤ length words.old }
    requires small { first + width < 2 ^ 32 }
    requires there { (word : ℕ) → word < length words.old →
        has_word (D.units device.old) unit word ≡ true }
    ensures written { AreWordsWritten unit (clears_from first width) (is_err result)
        (D.log device.old) (D.log device.new) (D.words device.old) (D.words device.new)
        words.old words.new }
    ensures units { D.units device.new ≡ D.units device.old }
    ensures counted { IsCounted (D.faults device.old) (D.faults device.new) (is_err result) }
{
    let others = width - 1;
    write_all(words, device, unit, first + u32::from(others), &ZEROS[..1])?;
    write_all(words, device, unit, first, &ZEROS[..usize::from(others)])
}
