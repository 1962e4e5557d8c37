//! The words of one slot.

ghost use Rattle.std.specs.Prelude.{◌≡◌, ◌==◌, ◌+◌, ◌<◌, ◌≤◌, ◌^◌, drop, length, take, IsTrue};
ghost use Rattle.std.specs.List.{list_all};

use dn_base::filled::Filled;
use std::marker::Model;

/// The words of a slot, at most 4. Contracts see the list of them.
#[derive(Drop)]
pub struct SlotWords {
    words: [u64; 4],
    width: u8,
}

impl Model for SlotWords {
    ghost use Rattle.std.specs.Prelude.{◌≤◌, List, ℕ, take};

    ghost Value = { List ℕ };

    ghost view = { λ s. take s.width s.words };

    ghost invariant = { λ s. s.width ≤ 4 };
}

impl SlotWords {
    /// So many of the words of a unit, from the first one of a slot on.
    pub(crate) fn read(words: &Filled<u64>, first: usize, width: u8) -> SlotWords
        requires few { width ≤ 4 }
        requires room { first + width ≤ length words.now }
        requires small { first + width < 2 ^ 32 }
        ensures words { result ≡ take width (drop first words.now) }
        ensures count { length result ≡ width }
    {
        let mut slot = [0; 4];
        for at in 0..usize::from(width) {
            slot[at] = words.get(first + at);
        }
        SlotWords { words: slot, width }
    }

    /// The words.
    pub fn as_slice(&self) -> &[u64]
        ensures { result.now ≡ self.now }
    {
        &self.words[..usize::from(self.width)]
    }
}

/// Whether so many of the words of a unit, from the first one of a slot on, are 0.
pub(crate) fn are_zero(words: &Filled<u64>, first: usize, width: u8) -> bool
    requires room { first + width ≤ length words.now }
    requires small { first + width < 2 ^ 32 }
    ensures { IsTrue result →
        IsTrue (list_all (λ w. w == 0) (take width (drop first words.now))) }
{
    for at in 0..usize::from(width) {
        if words.get(first + at) != 0 {
            return false;
        }
    }
    true
}
