//! A text that contracts see as its bytes.

ghost use Rattle.std.specs.Prelude.{◌≡◌, IfOk};
ghost use Rattle.std.specs.Rc.{rc_str_bytes};
ghost use Rattle.std.specs.String.{string_bytes};

use std::alloc::{AllocError, Global};
use std::marker::Model;
use std::rc::RcStr;

/// A text in UTF-8, which all who hold it share, and which contracts see as the list of its bytes.
#[derive(Drop)]
pub struct Text {
    text: RcStr,
}

impl Model for Text {
    ghost use Rattle.std.specs.Prelude.{List, ℕ};
    ghost use Rattle.std.specs.Rc.{rc_str_bytes};

    ghost Value = { List ℕ };

    ghost view = { λ t. rc_str_bytes t.text };
}

impl Text {
    /// A copy of the text, in just the memory that it needs.
    pub fn of(alloc: Global, text: &str) -> Result<Text, AllocError>
        ensures { IfOk result (λ t. t ≡ text.now) }
    {
        Ok(Text {
            text: RcStr::from_str(alloc, text)?,
        })
    }

    /// The text of a string, which is not copied.
    pub fn from_string(text: String) -> Result<Text, AllocError>
        ensures { IfOk result (λ t. t ≡ string_bytes text) }
    {
        Ok(Text {
            text: RcStr::from_string(text)?,
        })
    }

    /// The text with those who hold it. It takes no memory.
    pub fn into_shared(self) -> RcStr
        ensures { rc_str_bytes result ≡ self }
    {
        self.text
    }

    /// Another holder of this text, which is not copied: only the number of its holders changes.
    pub fn share(&self) -> Result<Text, AllocError>
        ensures { IfOk result (λ t. t ≡ self.now) }
    {
        let text = self.text.clone()?;
        Ok(Text { text })
    }

    /// The text.
    pub fn as_str(&self) -> &str
        ensures { result.now ≡ self.now }
    {
        self.text.as_str()
    }
}
