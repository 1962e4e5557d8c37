//! The record of a slot, found by the entries of an image of pages.

ghost use Rattle.std.specs.Prelude.{◌≡◌, ◌+◌, ◌*◌, ◌^◌, ◌<◌, ◌≤◌, length, take, IfOk, IsTrue};
ghost use Rattle.dn_base.specs.Terms.{Answers};
ghost use Rattle.dn_kind.specs.Terms.{IsLawful, is_plain_unit_shape, unit_shape};
ghost use Rattle.dn_radix.specs.Terms.{bad_view, room, walked, walked_words};

use crate::build::level_of;
use crate::fault::Bad;
use crate::find::find;
use dn_kind::slots::held_record;
use dn_kind::unit_kind::{Record, UnitKind};
use dn_net::node::Unit;

/// The record of a slot of a unit of this kind, by the entries of an image of pages, whoever made
/// it. The words of the slot are read in ascending order, an entry of 0 gives the word 0, and the
/// record is the one that they spell, where the unit can hold it. It takes no memory.
///
/// # Errors
///
/// `Bad` exactly where the image has fewer than 4,096 bytes, with `at` 0, or where an entry on the
/// way to one of the words is bad, with the first byte of the first such entry. An entry is bad if
/// it is not 0, and it less 1 is no multiple of 4,096 or fewer than 4,096 bytes stand from there on.
pub fn walk(
    image: &[u8],
    unit: &Unit,
    kind: &dyn UnitKind,
    slot: u32,
) -> Result<Option<Record>, Bad>
    requires lawful { IsLawful (meaning kind.now) }
    requires plain { IsTrue (is_plain_unit_shape (unit_shape unit.now)) }
    requires slot { slot < unit.now.slots }
    requires few { unit.now.slots * (meaning kind.now).words ≤ 1048576 }
    requires size { length image.now ≤ 2 ^ 31 }
    ensures { Answers (λ held. held) bad_view result
        (walked image.now unit.now (meaning kind.now) slot) }
{
    if image.len() < 4096 {
        return Err(Bad { at: 0 });
    }
    let width = usize::from(kind.words());
    let level = level_of(unit.slots as usize * width);
    match record_words(image, level, slot as usize * width, width) {
        Ok(words) => Ok(held_record(unit, kind, &words[..width])),
        Err(bad) => Err(bad),
    }
}

/// So many words from a number on, at most four, in the first places; or the first bad entry on the
/// way to them.
fn record_words(image: &[u8], level: u32, first: usize, width: usize) -> Result<[u64; 4], Bad>
    requires level { level ≤ 2 }
    requires whole { 4096 ≤ length image.now }
    requires size { length image.now ≤ 2 ^ 31 }
    requires most { width ≤ 4 }
    requires there { first + width ≤ room level }
    requires low { first + width ≤ 1048576 }
    ensures words { Answers (λ words. take width words) bad_view result
        (walked_words image.now level first width) }
    ensures four { IfOk result (λ words. length words ≡ 4) }
{
    let mut words = [0u64; 4];
    for word in 0..width {
        match find(image, level, first + word) {
            Ok(found) => words[word] = found,
            Err(bad) => return Err(bad),
        }
    }
    Ok(words)
}
