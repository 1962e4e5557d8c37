//! The outputs of a piece that agree with an input.

ghost use Rattle.std.specs.Prelude.{◌≡◌, ℕ, ◌+◌, ◌%◌, ◌^◌, ◌<◌, ◌≤◌, length, slice_get};
ghost use Rattle.dn_gather.specs.Terms.{AgreeFrom, AreRanked, NoneAgree, agrees_at, first_place, next_place};

use dn_place::exits::Exit;
use dn_place::slots::power;

/// The place of the first output whose address has this place in its slot, or a later one. Time of a binary search.
pub(crate) fn agreeing_from(exits: &[Exit], page: u8, place: u64) -> usize
    requires page { page ≤ 40 }
    requires place { place < 2 ^ page }
    requires ranked { AreRanked page exits.now }
    ensures within { result ≤ length exits.now }
    ensures from { AgreeFrom page place exits.now result }
{
    let least = u128::from(place) * (1 << 59);
    exits.partition_point(|exit| exit.rank < least)
}

/// Whether there is an output at a place of the list, and its address has this place in its slot.
pub(crate) fn agrees_at(exits: &[Exit], at: usize, page: u8, place: u64) -> bool
    requires page { page ≤ 40 }
    ensures { result ≡ agrees_at page place (slice_get exits.now at) }
{
    match exits.get(at) {
        Some(exit) => exit.y % power(page) == place,
        None => false,
    }
}

/// The first input from one on that may agree with an output modulo the page.
pub(crate) fn next_agreeing(exits: &[Exit], page: u8, x: u64) -> u64
    requires page { page ≤ 40 }
    requires few { x ≤ 2 ^ 60 }
    requires ranked { AreRanked page exits.now }
    ensures from { x ≤ result }
    ensures most { result ≤ x + 2 ^ 41 }
    ensures none { (z : ℕ) → x ≤ z → z < result → NoneAgree page (z % 2 ^ page) exits.now }
{
    let size = power(page);
    let place = x % size;
    let from = agreeing_from(exits, page, place);
    x - place + next_place(exits, from, size)
}

/// The place in its slot of an output of the list. Where the list ends before, that of the first output in the next slot.
fn next_place(exits: &[Exit], at: usize, size: u64) -> u64
    requires some { 1 ≤ size }
    requires few { size ≤ 2 ^ 40 }
    ensures { result ≡ next_place size (slice_get exits.now at) exits.now }
{
    match exits.get(at) {
        Some(exit) => exit.y % size,
        None => size + first_place(exits, size),
    }
}

/// The place of the first of the outputs in its slot, where slots have so many addresses. It is 0 where there is none.
fn first_place(exits: &[Exit], size: u64) -> u64
    requires { 1 ≤ size }
    ensures { result ≡ first_place size exits.now }
{
    match exits.first() {
        Some(exit) => exit.y % size,
        None => 0,
    }
}
