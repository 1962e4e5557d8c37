//! The words at the bottom of a tree, of which it is known which pages are all 0.

ghost use Rattle.std.specs.Prelude.{◌≡◌, ◌*◌, ◌^◌, ◌<◌, ◌≤◌, drop, length, take, IfOk};
ghost use Rattle.dn_radix.specs.Terms.{AreMarks, are_all_zero, room};

use crate::OutOfMemory;
use crate::find::room;
use std::alloc::Global;
use std::cmp::min;

/// Words, with a mark for each 512 of them, which is 0 exactly where all of these are 0. So each word
/// is tested once, whatever is asked of pieces of the words.
#[derive(Clone, Copy)]
pub(crate) struct Leaves<'a> {
    pub(crate) words: &'a [u64],
    pub(crate) marks: &'a [u64],
    pub(crate) ghost marked: { AreMarks words.now marks.now },
}

/// The marks of at most 1,048,576 words, each 0 or 1.
pub(crate) fn marks_of(alloc: Global, words: &[u64]) -> Result<Vec<u64>, OutOfMemory>
    requires { length words.now ≤ 1048576 }
    ensures { IfOk result (λ marks. AreMarks words.now marks.items) }
{
    let count = (words.len() + 511) / 512;
    let mut marks = Vec::with_capacity(alloc, count)?;
    for page in 0..count {
        let part = cut(words, 512, page);
        if is_zero(part) {
            marks.push(0)?;
        } else {
            marks.push(1)?;
        }
    }
    Ok(marks)
}

/// Whether each of the words is 0, by their marks.
pub(crate) fn are_zero(leaves: Leaves) -> bool
    ensures { result ≡ are_all_zero leaves.entry.words.now }
{
    is_zero(leaves.marks)
}

/// The piece of a number, of the 512 that are below an entry, where so many levels of entries are below it.
pub(crate) fn piece<'a>(leaves: Leaves<'a>, below: u32, k: usize) -> Leaves<'a>
    requires level { below ≤ 1 }
    requires few { k < 512 }
    ensures { result.words.now ≡ take (room below) (drop (k * room below) leaves.entry.words.now) }
{
    let size = room(below);
    let words = cut(leaves.words, size, k);
    let marks = cut(leaves.marks, size / 512, k);
    Leaves { words, marks }
}

/// Whether each of the words is 0.
fn is_zero(words: &[u64]) -> bool
    ensures { result ≡ are_all_zero words.now }
{
    for word in words {
        if *word != 0 {
            return false;
        }
    }
    true
}

/// The piece of a number, of pieces of so many words.
#[tactic(auto, using(crate::proofs::Cut::cut_is))]
fn cut(words: &[u64], size: usize, k: usize) -> &[u64]
    requires size { size ≤ 2 ^ 27 }
    requires few { k < 2048 }
    ensures { result.now ≡ take size (drop (k * size) words.now) }
{
    let from = min(k * size, words.len());
    let to = min(k * size + size, words.len());
    &words[from..to]
}
