//! The rules on walks that a net can break.

ghost use Rattle.std.specs.Prelude.{◌≡◌};
ghost use Rattle.dn_walk.specs.declared.fault.WalkFault.TheVariants.{OutOfMemory as no_memory};

use dn_base::items::Items;
use dn_net::node::Name;
use std::alloc::AllocError;
use std::fmt;
use std::fmt::{Debug, Formatter, Write};
use thiserror::Error;

/// The first rule on walks that a net breaks, or want of memory.
#[derive(Drop, Error)]
pub enum WalkFault {
    /// There are more than 1,048,576 live walks. Walks longer than the shortest cycle are not
    /// counted.
    #[error("Wide")]
    Wide,
    /// An address comes back to itself within 64 steps. The names are those of a shortest cycle,
    /// from its start back to its start; the least such list in the order of names.
    #[error("Loop")]
    Loop { cycle: Items<Name> },
    /// An address can be followed for 65 steps. The names are the 66 of such a path; the least such
    /// list in the order of names.
    #[error("Deep")]
    Deep { path: Items<Name> },
    /// A name with two or more destinations reaches a unit. The name is the least such name, by
    /// node and then by address, and the unit the least that it reaches, by number.
    #[error("Fork")]
    Fork { name: Name, unit: u16 },
    /// Four units stand in a row, in which each leads to the next, or the slots of the units of a
    /// row multiply to more than 1,048,576. The units are the first row of four, in order of their
    /// numbers; where there is none, the first row of one, two or three units with too many slots,
    /// the shorter first and then by their numbers. A unit may stand in a row several times.
    #[error("Chain")]
    Chain { units: Items<u16> },
    /// There was no memory for the walks.
    #[error("OutOfMemory")]
    OutOfMemory,
}

/// The name of the rule; what it carries is left out.
impl Debug for WalkFault {
    fn fmt<W: Write>(&self, f: &mut Formatter<W>) -> Result<(), fmt::Error> {
        write!(f, "{self}")
    }
}

impl From<AllocError> for WalkFault {
    ghost from_gives = { λ _ e. e ≡ no_memory };

    fn from(_error: AllocError) -> WalkFault {
        WalkFault::OutOfMemory
    }
}
