//! The full names to which the statements of a body refer.

ghost use Rattle.std.specs.Prelude.{◌≡◌, [], ◌++◌, IfOk, IfSome, unwrap_or};
ghost use Rattle.std.specs.Rc.{rc_str_bytes};
ghost use Rattle.std.specs.String.{string_bytes};

use dn_base::text::Text;
use std::alloc::{AllocError, Global};
use std::marker::Model;
use std::rc::RcStr;

/// A full name as a body has it: the full name of the use in whose body it stands, which all names of that
/// body share, and the text behind it. Contracts see the list of all its bytes.
#[derive(Drop)]
pub struct ScopedName {
    /// The full name of the use, where it stands in the body of one.
    front: Option<Text>,
    /// What stands behind it.
    own: RcStr,
}

impl Model for ScopedName {
    ghost use Rattle.std.specs.Prelude.{List, ℕ, [], ◌++◌, unwrap_or};
    ghost use Rattle.std.specs.Rc.{rc_str_bytes};

    ghost Value = { List ℕ };

    ghost view = { λ n. unwrap_or n.front [] ++ rc_str_bytes n.own };
}

impl ScopedName {
    /// The name of a text outside of modules. It takes no memory.
    pub fn outside(own: RcStr) -> ScopedName
        ensures { result ≡ rc_str_bytes own }
    {
        ScopedName { front: None, own }
    }

    /// The name in the body of a use, behind whose full name the text stands. It takes no memory.
    pub fn within(front: Text, own: RcStr) -> ScopedName
        ensures { result ≡ front ++ rc_str_bytes own }
    {
        ScopedName {
            front: Some(front),
            own,
        }
    }

    /// Another holder of this name, which is not copied: only the numbers of holders change.
    pub fn share(&self) -> Result<ScopedName, AllocError>
        ensures { IfOk result (λ n. n ≡ self.now) }
    {
        let front = shared_front(&self.front)?;
        let own = self.own.clone()?;
        Ok(ScopedName { front, own })
    }

    /// The whole text, where it is in one piece.
    pub fn whole(&self) -> Option<&str>
        ensures { IfSome result (λ t. t.now ≡ self.now) }
    {
        match &self.front {
            Some(_) => None,
            None => Some(self.own.as_str()),
        }
    }

    /// A copy of the whole text.
    pub fn to_text(&self, alloc: Global) -> Result<String, AllocError>
        ensures { IfOk result (λ t. string_bytes t ≡ self.now) }
    {
        let mut text = front_text(alloc, &self.front)?;
        text.push_str(self.own.as_str())?;
        Ok(text)
    }
}

/// The full name of a use once more, where there is one.
fn shared_front(front: &Option<Text>) -> Result<Option<Text>, AllocError>
    ensures { IfOk result (λ f. f ≡ front.now) }
{
    match front {
        Some(front) => Ok(Some(front.share()?)),
        None => Ok(None),
    }
}

/// A copy of the full name of a use, or no text where there is none.
fn front_text(alloc: Global, front: &Option<Text>) -> Result<String, AllocError>
    ensures { IfOk result (λ t. string_bytes t ≡ unwrap_or front.now []) }
{
    match front {
        Some(front) => String::from_str(alloc, front.as_str()),
        None => Ok(String::new(alloc)),
    }
}
