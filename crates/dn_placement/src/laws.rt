//! Laws on the definitions, each the contract of a function that does nothing.

ghost use Rattle.dn_placement.specs.Terms.{FirstIsOne, PlacementsAreOrdered};

/// The order of placements is strict, and of two different placements of one request one comes
/// before the other.
pub fn placements_are_ordered()
    ensures { PlacementsAreOrdered }
{}

/// A request has one first placement at most.
pub fn first_is_one()
    ensures { FirstIsOne }
{}
