//! The law on additions, as the contract of a function that does nothing.

ghost use Rattle.dn_view.specs.Terms.{RefusalIsComplete};

/// Where records in free slots, as many as may be and wherever, give an agent exactly one name more, an
/// admissible placement of that one address is there: the refusal of one address is complete.
pub fn refusal_is_complete()
    ensures { RefusalIsComplete }
{}
