//! Why a tree gives no net.

ghost use Rattle.std.specs.Prelude.{◌≡◌};
ghost use Rattle.dn_scope.specs.declared.fault.ExpandFault.TheVariants.{OutOfMemory as no_memory};

use std::alloc::AllocError;
use thiserror::Error;

/// Why a tree gives no net. Each line is that of the statement's first token, counted from 1; a turn of a
/// loop has the line of its loop.
#[derive(Clone, Copy, Debug, PartialEq, Eq, Error)]
pub enum ExpandFault {
    /// A module's name or one of its parameters, or a node's full name, was there before.
    #[error("Duplicate")]
    Duplicate { line: u32 },
    /// A variable, a module, a kind or a node that is referred to does not exist.
    #[error("Unknown")]
    Unknown { line: u32 },
    /// A use has another number of arguments than its module has parameters, or a number for a node or a
    /// node for a number.
    #[error("Arguments")]
    Arguments { line: u32 },
    /// A sum, a product or a difference is not from 0 to 2^64 - 1, or a unit's page or reach is above 255 or
    /// its slots above 4,294,967,295.
    #[error("Value")]
    Value { line: u32 },
    /// A statement passes a limit: 65,536 steps, 256 modules, 1,024 nodes, 64 agents, 64 units or 16,384
    /// parts.
    #[error("TooMany")]
    TooMany { line: u32, limit: u32 },
    /// There was no memory for the net.
    #[error("OutOfMemory")]
    OutOfMemory,
}

impl From<AllocError> for ExpandFault {
    ghost from_gives = { λ _ e. e ≡ no_memory };

    fn from(_error: AllocError) -> ExpandFault {
        ExpandFault::OutOfMemory
    }
}
