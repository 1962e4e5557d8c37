//! Why there is no net.

use dn_kind::units::UnitFault;
use dn_net::rules::NodeFault;
use dn_walk::fault::WalkFault;
use std::alloc::{AllocError, AllocFailed};

/// Why a plan or a text has no net, or a net no answer.
#[derive(Clone, Copy, Debug, PartialEq, Eq)]
pub enum Unmade {
    /// A part was given before a node.
    Nowhere,
    /// A node is malformed, or refers to a node that is not there, or its name is taken, or there
    /// are too many.
    Unformed,
    /// A rule on nodes is broken.
    Nodes(NodeFault),
    /// The rule on units is broken.
    Units(UnitFault),
    /// A rule on walks is broken.
    Walks,
    /// A text is refused, or something names a node that is not there.
    Refused,
    /// There was no memory.
    OutOfMemory,
}

impl From<NodeFault> for Unmade {
    fn from(fault: NodeFault) -> Unmade {
        Unmade::Nodes(fault)
    }
}

impl From<UnitFault> for Unmade {
    fn from(fault: UnitFault) -> Unmade {
        Unmade::Units(fault)
    }
}

impl From<WalkFault> for Unmade {
    fn from(_fault: WalkFault) -> Unmade {
        Unmade::Walks
    }
}

impl From<AllocError> for Unmade {
    fn from(_error: AllocError) -> Unmade {
        Unmade::OutOfMemory
    }
}

impl<T: Drop> From<AllocFailed<T>> for Unmade {
    fn from(_error: AllocFailed<T>) -> Unmade {
        Unmade::OutOfMemory
    }
}
