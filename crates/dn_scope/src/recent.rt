//! The texts that were met lately.

ghost use Rattle.std.specs.Prelude.{◌≡◌, IfOk};
ghost use Rattle.std.specs.Rc.{rc_str_bytes};

use std::alloc::{AllocError, Global};
use std::rc::RcStr;

/// How many texts are kept.
const PLACES: usize = 1_024;

/// How many bytes of texts are kept at most: those of the longest text that is read.
const ROOM: usize = 4_194_304;

/// The texts that were met lately, of which each has one place where it can be kept: so no text makes the
/// look for another longer, and what is kept is bounded.
#[derive(Drop)]
pub struct Recent {
    /// The memory that the texts take, and what is made with them.
    pub alloc: Global,
    texts: Vec<RcStr>,
    /// How many bytes were kept since the texts were last let go.
    bytes: usize,
}

impl Recent {
    /// No texts. It takes no memory.
    pub fn new(alloc: Global) -> Recent {
        Recent {
            alloc,
            texts: Vec::new(alloc),
            bytes: 0,
        }
    }

    /// The text, which it shares with those who asked for it lately. `Err` is want of memory.
    pub fn text(&mut self, text: &str) -> Result<RcStr, AllocError>
        ensures { IfOk result (λ t. rc_str_bytes t ≡ text.now) }
    {
        let place = place_of(text);
        if let Some(kept) = self.texts.get(place) {
            if kept.as_str() == text {
                return kept.clone();
            }
        }
        let new = RcStr::from_str(self.alloc, text)?;
        self.keep(place, new.clone()?)?;
        Ok(new)
    }

    /// Keeps a text in its place. Where there is no room for it, the others are let go.
    fn keep(&mut self, place: usize, text: RcStr) -> Result<(), AllocError> {
        let bytes = self.bytes.saturating_add(text.len());
        if bytes <= ROOM {
            self.bytes = bytes;
        } else {
            self.texts.clear();
            self.bytes = text.len();
        }
        if self.texts.is_empty() {
            self.texts.resize(PLACES, text.clone()?)?;
        }
        if let Some(kept) = self.texts.get_mut(place) {
            *kept = text;
        }
        Ok(())
    }
}

/// The place of a text.
fn place_of(text: &str) -> usize {
    let mut sum = 0_usize;
    for byte in text.as_bytes() {
        sum = sum.wrapping_mul(31).wrapping_add(usize::from(*byte));
    }
    sum % PLACES
}
