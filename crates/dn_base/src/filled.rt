//! A list of a fixed number of items that takes memory only where it is written.

ghost use Rattle.std.specs.Prelude.{◌≡◌, ◌<◌, ◌≤◌, ◌+◌, ◌-◌, ◌*◌, ◌/◌, ◌++◌, ◌^◌, ℕ, get_or, length, nat_lt, replicate, slice_index_or, slice_set, vec_capacity, vec_len, IfOk, IsTrue};
ghost use Rattle.std.specs.List.{list_all};
ghost use Rattle.dn_base.specs.Terms.{ArePaged, NoneFrom, item_at};

use std::alloc::{AllocError, Global};
use std::marker::Model;

/// How many items a page has.
const PAGE: usize = 256;

/// A list of a fixed number of items, which contracts see as the list itself. The memory of all items is
/// taken when the list is made, and is touched page by page: a page of 256 places is made when an item is
/// first set in one of them. The items of pages that were not made are all one value.
#[derive(Drop)]
pub struct Filled<T> {
    /// The pages that were made, one behind another.
    items: Vec<T>,
    /// For each page where it ends among those, or 0 where it was not made.
    ends: Vec<usize>,
    /// Behind the last page that was made.
    top: usize,
    rest: T,
    count: usize,
}

impl<T> Model for Filled<T> {
    ghost use Rattle.std.specs.Prelude.{List, length, vec_capacity};
    ghost use Rattle.dn_base.specs.Paged.{ArePaged, NoneFrom, paged_items};

    ghost Value = { List T };

    ghost view = { λ s. paged_items s.items.items s.ends.items s.rest s.count };

    ghost invariant = { λ s. ArePaged (length s.items.items) (vec_capacity s.items) s.ends.items s.count
        × NoneFrom s.top s.ends.items };
}

impl<T: Copy> Filled<T> {
    /// So many items of one value. `Err` is want of memory for them.
    pub fn new(alloc: Global, value: T, count: usize) -> Result<Filled<T>, AllocError>
        ensures { IfOk result (λ filled. filled ≡ replicate count value) }
    {
        let pages = pages_of(count);
        let Some(room) = pages.checked_mul(PAGE) else {
            return Err(AllocError);
        };
        let items = Vec::with_capacity(alloc, room)?;
        let ends = vec![in alloc; 0; pages]?;
        Ok(Filled {
            items,
            ends,
            top: 0,
            rest: value,
            count,
        })
    }

    /// How many items there are.
    pub fn len(&self) -> usize
        ensures { result ≡ length self.now }
    {
        self.count
    }

    /// The item at a place.
    pub fn get(&self, at: usize) -> T
        requires { at < length self.now }
        ensures { result ≡ slice_index_or self.now at result }
    {
        shown(self.items.as_slice(), self.ends.as_slice(), self.rest, at)
    }

    /// Puts an item in the place of another. It takes no memory.
    pub fn set(&mut self, at: usize, item: T)
        requires { at < length self.old }
        ensures { self.new ≡ slice_set self.old at item }
    {
        let rest = self.rest;
        let page = at / PAGE;
        let end = page_end(&mut self.items, &mut self.ends, rest, self.count, page);
        self.top = self.top.max(page + 1);
        let place = end - PAGE + at % PAGE;
        self.items[place] = item;
    }
}

impl Filled<u64> {
    /// From which place on each item is 0: behind the last page that was made, or behind all where the items of the
    /// others are not 0.
    pub fn zeros_from(&self) -> usize
        ensures { (k : ℕ) → result ≤ k → get_or self.now k 0 ≡ 0 }
    {
        if self.rest != 0 {
            return self.count;
        }
        self.top * PAGE
    }

    /// How many places the pages have that were made: an item that was never set may have one of them.
    pub fn made(&self) -> usize {
        self.items.len()
    }

    /// Each item is a number of 64 bits, for a proof of its caller. It looks at none of them.
    pub fn word_facts(&self)
        ensures { IsTrue (list_all (λ w. nat_lt w (2 ^ 64)) self.now) }
    {
        words_fit(self.items.as_slice());
        words_fit(&[self.rest]);
    }
}

/// Each word is a number of 64 bits, for a proof of its caller. It does nothing.
fn words_fit(words: &[u64])
    ensures { (k : ℕ) → get_or words.now k 0 < 2 ^ 64 }
{
    let _words = words;
}

/// How many pages so many items need.
fn pages_of(count: usize) -> usize
    ensures { count ≤ result * 256 }
{
    if count == 0 {
        return 0;
    }
    (count - 1) / PAGE + 1
}

/// The item at a place: that of its page, or the rest where the page was not made.
fn shown<T: Copy>(items: &[T], ends: &[usize], rest: T, at: usize) -> T
    requires there { at / 256 < length ends.now }
    requires whole { 0 < get_or ends.now (at / 256) 0 → 256 ≤ get_or ends.now (at / 256) 0 }
    requires within { get_or ends.now (at / 256) 0 ≤ length items.now }
    ensures { result ≡ item_at items.now ends.now rest at }
{
    let page = at / PAGE;
    let end = ends[page];
    if end == 0 {
        return rest;
    }
    let place = end - PAGE + at % PAGE;
    items[place]
}

/// Where a page ends, which is made where it was not, with one value in each of its places. There is room
/// for it.
fn page_end<T: Copy>(
    items: &mut Vec<T>,
    ends: &mut Vec<usize>,
    value: T,
    count: usize,
    page: usize,
) -> usize
    requires paged { ArePaged (length items.old.items) (vec_capacity items.old)
        ends.old.items count }
    requires there { page < length ends.old.items }
    ensures paged { ArePaged (length items.new.items) (vec_capacity items.new)
        ends.new.items count }
    ensures end { result ≡ get_or ends.new.items page 0 }
    ensures made { 0 < result }
    ensures pages { length ends.new.items ≡ length ends.old.items }
    ensures later { (other : ℕ) → page < other
        → get_or ends.new.items other 0 ≡ get_or ends.old.items other 0 }
    ensures same { (at : ℕ) → item_at items.new.items ends.new.items value at
        ≡ item_at items.old.items ends.old.items value at }
{
    let made = ends.as_slice();
    let end = made[page];
    if end > 0 {
        return end;
    }
    let end = items.len() + PAGE;
    fill(items, value, end);
    ends[page] = end;
    end
}

/// Appends items of one value until there are so many, for which there is room.
fn fill<T: Copy>(items: &mut Vec<T>, value: T, end: usize)
    requires { end ≤ vec_capacity items.old }
    ensures items { items.new.items
        ≡ items.old.items ++ replicate (end - vec_len items.old) value }
    ensures room { vec_capacity items.new ≡ vec_capacity items.old }
{
    while items.len() < end {
        items.push_reserved(value);
    }
}
