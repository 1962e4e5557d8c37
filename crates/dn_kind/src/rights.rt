//! Accesses, and the rights of a record.

ghost use Rattle.std.specs.Prelude.{⊤, ◌≡◌, [], ◌∷◌, codes};
ghost use Rattle.dn_kind.specs.Terms.{allows, both_rights};

use bitflags::{Flag, Flags, bitflag_items};

/// What an agent does at an address.
#[derive(Clone, Copy, Debug, PartialEq, Eq)]
pub enum Access {
    Read,
    Write,
}

/// The accesses that a record lets through: a set of [`Rights::READ`] and [`Rights::WRITE`].
#[derive(Clone, Copy, Debug, PartialEq, Eq)]
pub struct Rights(u8);

bitflag_items! {
    impl Rights: u8 {
        const READ = 1;
        const WRITE = 2;
    }
}

impl Flags for Rights {
    type Bits = u8;

    ghost exact = { ⊤ };

    ghost table = { (codes "READ", 1) ∷ (codes "WRITE", 2) ∷ [] };

    ghost set_of = { λ rights. rights.0 };

    fn flags<'a>() -> &'a [Flag<Rights>] {
        Rights::FLAGS
    }

    fn bits(&self) -> u8 {
        self.0
    }

    fn from_bits_retain(bits: u8) -> Rights {
        Rights(bits)
    }
}

impl Rights {
    /// Reading and writing.
    pub fn both() -> Rights
        ensures { result ≡ both_rights }
    {
        Rights::READ.union(Rights::WRITE)
    }

    /// Whether the access is one of these.
    pub fn allows(self, access: Access) -> bool
        ensures { result ≡ allows self access }
    {
        match access {
            Access::Read => self.contains(Rights::READ),
            Access::Write => self.contains(Rights::WRITE),
        }
    }
}
