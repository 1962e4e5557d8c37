//! A box taken apart: its pointer, which a handle of C can keep, and what it owns.
//!
//! ```text
//! let loose = Loose::of(boxed);            // the pointer is to bytes
//! let boxed = loose.into_box();
//! ```
//!
//! A struct that crosses to C may hold no pointer to a type with a list in it. It holds the pointer
//! of a `Loose`, and a ghost field says what stands there. The two walks are proved once, for any
//! type.
#![tactic(auto)]

ghost use Rattle.std.specs.Prelude.{◌≡◌};
ghost use Rattle.std.specs.Box.Ownership.{box_owns};

use std::alloc::Allocator;
use std::marker::Model;

/// What a box owned, and where it lies.
pub struct Loose<T, A: Allocator> {
    /// Where the value lies, in a block of its own.
    pub at: *mut T,
    /// The heap that has the block.
    pub alloc: A,
    pub ghost value: { T },
}

impl<T, A: Allocator> Model for Loose<T, A> {
    ghost also_owns = { λ l. box_owns (A.dealloc_token l.alloc) T.row l.at l.value };
}

impl<T: Drop, A: Allocator> Loose<T, A> {
    /// Takes a box apart.
    pub fn of(value: Box<T, A>) -> Loose<T, A>
        ensures { result.value ≡ value.value }
    {
        let (at, alloc) = Box::into_raw_with_allocator(value);
        Loose { at, alloc }
    }

    /// Makes the box again.
    pub fn into_box(self) -> Box<T, A>
        ensures { result.value ≡ self.value }
    {
        let Loose { at, alloc } = self;
        unsafe { Box::from_raw(alloc, at) }
    }
}
