//! The tree of a list of words.

ghost use Rattle.std.specs.Prelude.{◌≡◌, ℕ, ◌+◌, ◌^◌, ◌≤◌, ◌++◌, length, IfOk, OnOk};
ghost use Rattle.dn_base.specs.Terms.{Answers};
ghost use Rattle.dn_radix.specs.Terms.{built, entries, level_of, page_count, pages_of, pieces, radix_fault_view, room, tree, tree_bytes, joined_bytes};

use crate::OutOfMemory;
use crate::fault::RadixFault;
use crate::leaves::{Leaves, are_zero, marks_of, piece};
use byteorder::{ByteOrder, LittleEndian};
use std::alloc::Global;

/// The bytes of the tree of at most 1,048,576 words, in a pool of so many pages of 4,096 bytes. The
/// pages are counted first, so that a pool that is too small costs the memory of a word for each 512.
///
/// # Errors
///
/// `Pool` with the number of pages that the tree has, exactly where these are more than the pool's.
/// `OutOfMemory` where there is no memory for the tree.
pub fn build(alloc: Global, words: &[u64], pool: u64) -> Result<Vec<u8>, RadixFault>
    requires { length words.now ≤ 1048576 }
    ensures { Answers (λ bytes. bytes.items) radix_fault_view result (built words.now pool) }
{
    let Ok(marks) = marks_of(alloc, words) else {
        return Err(RadixFault::OutOfMemory);
    };
    let marks = marks.as_slice();
    let leaves = Leaves { words, marks };
    let need = count_pages(level_of(words.len()), leaves);
    if u64::from(need) > pool {
        return Err(RadixFault::Pool { need });
    }
    tree_over(alloc, leaves, 4096 * need as usize).or(Err(RadixFault::OutOfMemory))
}

/// The least number of levels of entries above so many words.
pub(crate) fn level_of(count: usize) -> u32
    ensures { result ≡ level_of count }
{
    if count <= 512 {
        0
    } else if count <= 262_144 {
        1
    } else {
        2
    }
}

/// How many pages the tree of words has, with so many levels of entries. It calls itself as deep as there are levels.
fn count_pages(level: u32, leaves: Leaves) -> u32
    requires { level ≤ 2 }
    ensures { result ≡ page_count level leaves.entry.words.now }
{
    if level == 0 {
        return 1;
    }
    let below = level - 1;
    let mut count = 1;
    for k in 0..512 {
        let part = piece(leaves, below, k);
        if !are_zero(part) {
            count += count_pages(below, part);
        }
    }
    count
}

/// Appends the tree of words, whose first page is of this number. It calls itself as deep as there are levels.
fn push_tree(
    alloc: Global,
    out: &mut Vec<u8>,
    level: u32,
    at: u32,
    leaves: Leaves,
) -> Result<(), OutOfMemory>
    requires level { level ≤ 2 }
    requires fits { length leaves.words.now ≤ room level }
    requires few { at + page_count level leaves.words.now ≤ 2 ^ 24 }
    ensures { OnOk result (out.new.items
        ≡ out.old.items ++ joined_bytes (tree level at leaves.entry.words.now)) }
{
    if level == 0 {
        return push_page(out, leaves.words);
    }
    let below = level - 1;
    let entries = entries_of(alloc, below, at + 1, leaves)?;
    push_page(out, entries.as_slice())?;
    let mut next = at + 1;
    for k in 0..512 {
        let part = piece(leaves, below, k);
        if !are_zero(part) {
            push_tree(alloc, out, below, next, part)?;
            next += count_pages(below, part);
        }
    }
    Ok(())
}

/// Appends a page: the bytes of words, and 0 after them.
fn push_page(out: &mut Vec<u8>, words: &[u64]) -> Result<(), OutOfMemory>
    requires { length words.now ≤ 512 }
    ensures { OnOk result ((at : ℕ) → out.new.items
        ≡ out.old.items ++ joined_bytes (tree 0 at words.now)) }
{
    push_words(out, words)?;
    for place in words.len()..512 {
        out.extend_from_slice(&[0u8; 8])?;
    }
    Ok(())
}

/// Appends the bytes of words, the lowest byte of each first.
fn push_words(out: &mut Vec<u8>, words: &[u64]) -> Result<(), OutOfMemory>
    requires { length words.now ≤ 512 }
    ensures { OnOk result (out.new.items ≡ out.old.items ++ joined_bytes words.now) }
{
    let mut page = [0u8; 4096];
    let size = 8 * words.len();
    LittleEndian::write_u64_into(words, &mut page[..size]);
    out.extend_from_slice(&page[..size])?;
    Ok(())
}

/// The entries of the pieces of words, whose trees stand from a page on.
fn entries_of(
    alloc: Global,
    below: u32,
    first: u32,
    leaves: Leaves,
) -> Result<Vec<u64>, OutOfMemory>
    requires level { below ≤ 1 }
    requires few { first + pages_of (page_count below) (pieces 512 (room below) leaves.words.now)
        ≤ 2 ^ 24 }
    ensures { IfOk result (λ list. list.items
        ≡ entries (page_count below) first (pieces 512 (room below) leaves.entry.words.now)) }
{
    let mut list = Vec::with_capacity(alloc, 512)?;
    let mut next = first;
    for k in 0..512 {
        let part = piece(leaves, below, k);
        if are_zero(part) {
            list.push(0)?;
        } else {
            list.push(4096 * u64::from(next) + 1)?;
            next += count_pages(below, part);
        }
    }
    Ok(list)
}

/// The bytes of the tree of words, for which there is room for so many at first.
pub(crate) fn tree_of(alloc: Global, words: &[u64], size: usize) -> Result<Vec<u8>, OutOfMemory>
    requires { length words.now ≤ 1048576 }
    ensures { IfOk result (λ bytes. bytes.items ≡ tree_bytes words.now) }
{
    let marks = marks_of(alloc, words)?;
    let marks = marks.as_slice();
    tree_over(alloc, Leaves { words, marks }, size)
}

/// The bytes of the tree of words with their marks, for which there is room for so many at first.
fn tree_over(alloc: Global, leaves: Leaves, size: usize) -> Result<Vec<u8>, OutOfMemory>
    requires { length leaves.words.now ≤ 1048576 }
    ensures { IfOk result (λ bytes. bytes.items ≡ tree_bytes leaves.entry.words.now) }
{
    let mut bytes = Vec::with_capacity(alloc, size)?;
    push_tree(alloc, &mut bytes, level_of(leaves.words.len()), 0, leaves)?;
    Ok(bytes)
}
