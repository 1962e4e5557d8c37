//! The words of a tree.

ghost use Rattle.std.specs.Prelude.{◌≡◌, ◌↔◌, ℕ, ◌+◌, ◌*◌, ◌^◌, ◌<◌, ◌≤◌, ◌++◌, List, length, min, replicate, slice_index, Some, Err, IfOk, IfSome, IsTrue, OnOk};
ghost use Rattle.dn_radix.specs.Terms.{AreOfPage, IsTreeOf};

use crate::OutOfMemory;
use crate::build::{level_of, tree_of};
use crate::fault::LinearFault;
use crate::find::page_of;
use byteorder::{ByteOrder, LittleEndian};
use std::alloc::Global;

/// The words, 1 to 1,048,576 of them, of which the image is the tree. There is one such list at most.
///
/// # Errors
///
/// `NotRadix` exactly where the image is the tree of no list of so many words. `OutOfMemory` where
/// there is no memory for the words or for their tree.
pub fn linear(alloc: Global, image: &[u8], words: u32) -> Result<Vec<u64>, LinearFault>
    requires some { 1 ≤ words }
    requires few { words ≤ 1048576 }
    ensures ok { IfOk result (λ v. IsTreeOf image.now words v.items) }
    ensures none { result ≡ Err LinearFault.NotRadix
        → (ws : List ℕ) → IsTreeOf image.now words ws → ⊥ }
{
    if image.len() < 4096 || image.len() > 2_147_483_648 {
        return Err(LinearFault::NotRadix);
    }
    let list = words_in(alloc, image, words)?;
    words_fit(list.as_slice());
    let tree = tree_of(alloc, list.as_slice(), image.len()).or(Err(LinearFault::OutOfMemory))?;
    let same = same_bytes(tree.as_slice(), image);
    if same {
        Ok(list)
    } else {
        Err(LinearFault::NotRadix)
    }
}

/// Each word is below 2^64.
fn words_fit(words: &[u64])
    ensures { (k : ℕ) → slice_index words.now k < 2 ^ 64 }
{
    let _words = words;
}

/// Whether bytes are the same.
fn same_bytes(one: &[u8], other: &[u8]) -> bool
    ensures { IsTrue result ↔ (one.now ≡ other.now) }
{
    one == other
}

/// So many words that an image gives, or that some are not to be found in it. The way to a page is gone once for its
/// 512 words.
fn words_in(alloc: Global, image: &[u8], words: u32) -> Result<Vec<u64>, LinearFault>
    requires some { 1 ≤ words }
    requires few { words ≤ 1048576 }
    requires whole { 4096 ≤ length image.now }
    requires size { length image.now ≤ 2 ^ 31 }
    ensures found { IfOk result (λ v. (ws : List ℕ) → IsTreeOf image.now words ws → v.items ≡ ws) }
    ensures count { IfOk result (λ v. length v.items ≡ words) }
    ensures none { result ≡ Err LinearFault.NotRadix
        → (ws : List ℕ) → IsTreeOf image.now words ws → ⊥ }
{
    let count = words as usize;
    let level = level_of(count);
    let Ok(mut list) = Vec::with_capacity(alloc, count) else {
        return Err(LinearFault::OutOfMemory);
    };
    for number in 0..(count + 511) / 512 {
        let Ok(page) = page_of(image, level, number) else {
            return Err(LinearFault::NotRadix);
        };
        let left = within_page(count - 512 * number);
        let Ok(()) = push_words(&mut list, image, page, left) else {
            return Err(LinearFault::OutOfMemory);
        };
    }
    Ok(list)
}

/// How many of so many words stand in one page.
fn within_page(count: usize) -> usize
    ensures { result ≡ min 512 count }
{
    if count < 512 { count } else { 512 }
}

/// Appends so many of the words of a page, or zeros where there is none.
fn push_words(
    list: &mut Vec<u64>,
    image: &[u8],
    page: Option<usize>,
    count: usize,
) -> Result<(), OutOfMemory>
    requires few { count ≤ 512 }
    requires inside { IfSome page (λ at. at + 4096 ≤ length image.now) }
    ensures words { OnOk result ((ws : List ℕ) → AreOfPage image.now page count ws
        → list.new.items ≡ list.old.items ++ ws) }
    ensures count { OnOk result (length list.new.items ≡ length list.old.items + count) }
{
    match page {
        Some(at) => push_read(list, &image[at..at + 8 * count], count),
        None => push_zeros(list, count),
    }
}

/// Appends the words that bytes spell, the lowest byte of each first.
fn push_read(list: &mut Vec<u64>, bytes: &[u8], count: usize) -> Result<(), OutOfMemory>
    requires few { count ≤ 512 }
    requires whole { length bytes.now ≡ 8 * count }
    ensures words { OnOk result ((ws : List ℕ) → AreOfPage bytes.now (Some 0) count ws
        → list.new.items ≡ list.old.items ++ ws) }
    ensures count { OnOk result (length list.new.items ≡ length list.old.items + count) }
{
    let mut words = [0u64; 512];
    LittleEndian::read_u64_into(bytes, &mut words[..count]);
    list.extend_from_slice(&words[..count])?;
    Ok(())
}

/// Appends so many words that are 0.
fn push_zeros(list: &mut Vec<u64>, count: usize) -> Result<(), OutOfMemory>
    requires few { count ≤ 512 }
    ensures { OnOk result (list.new.items ≡ list.old.items ++ replicate count 0) }
{
    list.extend_from_slice(&[0u64; 512][..count])?;
    Ok(())
}
