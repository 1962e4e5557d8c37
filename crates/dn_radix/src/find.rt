//! A word of an image of pages, found by its entries.

ghost use Rattle.std.specs.Prelude.{◌≡◌, ℕ, ◌+◌, ◌*◌, ◌^◌, ◌<◌, ◌≤◌, length, IfOk, IfSome};
ghost use Rattle.dn_base.specs.Terms.{Answers};
ghost use Rattle.dn_radix.specs.Terms.{bad_view, found, is_bad, room, word_in_bytes, word_of_page};

use crate::fault::Bad;
use byteorder::{ByteOrder, LittleEndian};

/// How many words there is room for below so many levels of entries.
pub(crate) fn room(level: u32) -> usize
    requires { level ≤ 2 }
    ensures { result ≡ room level }
{
    if level == 0 {
        512
    } else if level == 1 {
        262_144
    } else {
        134_217_728
    }
}

/// Whether an entry that is not 0 leads to no page of an image of so many bytes.
fn is_bad(size: usize, entry: u64) -> bool
    requires { 0 < entry }
    ensures { result ≡ is_bad size entry }
{
    let page = entry - 1;
    if page % 4096 != 0 {
        return true;
    }
    let room = (size as u64).saturating_sub(4096);
    size < 4096 || room < page
}

/// The word whose bytes begin at a place.
#[tactic(auto, using(std::proofs::lemmas::List::take_rest))]
fn word_at(image: &[u8], place: usize) -> u64
    requires { place + 8 ≤ length image.now }
    ensures { result ≡ word_in_bytes image.now place }
{
    LittleEndian::read_u64(&image[place..])
}

/// The byte at which the page of 512 words begins, by its number among such pages, or `None` where an entry of 0
/// stands for it; or the first bad entry on the way to it.
pub(crate) fn page_of(image: &[u8], level: u32, number: usize) -> Result<Option<usize>, Bad>
    requires level { level ≤ 2 }
    requires whole { 4096 ≤ length image.now }
    requires few { length image.now ≤ 2 ^ 31 }
    requires there { 512 * number < room level }
    ensures words { (i : ℕ) → i < 512
        → found image.now level (512 * number + i) 0 ≡ word_of_page image.now result i }
    ensures inside { IfOk result (λ page. IfSome page (λ at. at + 4096 ≤ length image.now)) }
{
    let mut below = level;
    let mut at = number;
    let mut page = 0;
    while below > 0 {
        below -= 1;
        let size = room(below) / 512;
        let place = page + 8 * (at / size);
        let entry = word_at(image, place);
        if entry == 0 {
            return Ok(None);
        }
        if is_bad(image.len(), entry) {
            return Err(Bad { at: place as u32 });
        }
        page = (entry - 1) as usize;
        at %= size;
    }
    Ok(Some(page))
}

/// The word of a number, or the first bad entry on the way to it.
pub(crate) fn find(image: &[u8], level: u32, index: usize) -> Result<u64, Bad>
    requires level { level ≤ 2 }
    requires whole { 4096 ≤ length image.now }
    requires few { length image.now ≤ 2 ^ 31 }
    requires there { index < room level }
    ensures { Answers (λ word. word) bad_view result (found image.now level index 0) }
{
    match page_of(image, level, index / 512) {
        Ok(Some(page)) => Ok(word_at(image, page + 8 * (index % 512))),
        Ok(None) => Ok(0),
        Err(bad) => Err(bad),
    }
}
