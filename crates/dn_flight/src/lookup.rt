//! Lookups, and where they are.

ghost use Rattle.std.specs.Prelude.{◌≡◌};
ghost use Rattle.dn_flight.specs.Terms.{is_flying};

use dn_kind::rights::Access;
use dn_net::names::Names;
use dn_net::node::Name;

/// Where a lookup is.
#[derive(Drop)]
pub enum LookState {
    /// In flight, at a name in a unit.
    At(Name),
    /// It has ended with these names.
    Ended(Names),
}

impl LookState {
    /// Whether a lookup is in flight.
    pub fn is_flying(&self) -> bool
        ensures { result ≡ is_flying self.now }
    {
        matches!(self, LookState::At(_))
    }
}

/// A lookup of an agent's address for an access.
#[derive(Drop)]
pub struct Lookup {
    /// The number of the agent.
    pub agent: u16,
    /// The address that it looks up.
    pub start: u64,
    /// Whether it is to read or to write.
    pub access: Access,
    /// Where the lookup is.
    pub state: LookState,
}
