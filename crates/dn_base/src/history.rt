//! What a source gave so far, as contracts see it: a value without bytes.
//!
//! A reader of the system lends nothing that it gave before, and a copy of it would cost memory. So [`History`]
//! has it in a ghost field alone. Both of its functions are proved by hand, since no statement of a body
//! changes what only contracts see.

ghost use Rattle.std.specs.Prelude.{◌≡◌, ◌++◌, [], List, ℕ};

use std::marker::{Model, PhantomData};

/// The bytes that were given so far, in order. It takes no memory.
#[derive(Drop)]
pub struct History {
    marker: PhantomData<u8>,
    /// The bytes.
    pub ghost bytes: { List ℕ },
}

impl Model for History {
    ghost use base.Fml.{ftrue};

    ghost also_owns = { λ _. ftrue };
}

/// Nothing was given so far.
pub fn none() -> History
    ensures { result.bytes ≡ [] }
{
    History {
        marker: PhantomData,
    }
}

/// What was given before, and then the bytes of a piece.
pub fn with_piece(given: &History, piece: &[u8]) -> History
    ensures { result.bytes ≡ given.now.bytes ++ piece.now }
{
    let _ = given;
    let _ = piece;
    History {
        marker: PhantomData,
    }
}
