//! Laws on live walks, on gaps, and on what the rules on walks and units leave of a net, each the contract of a function that
//! does nothing.

ghost use Rattle.dn_net.specs.Terms.{ChainIsFirst, ChainIsWalk, CycleIsRow, EndlessIsRefused, ForkIsLeast, GapsAreAll, LegalBreaksNoRule, LiveWalksAreAll, LiveWalksAreInOrder, NoFaultIsShallow, ReachIsWithin};

/// The list has exactly the live walks of 1 to k choices.
pub fn live_walks_are_all()
    ensures { LiveWalksAreAll }
{}

/// Each of them comes before those behind it, in the order of length, start, span and choices; so each stands once.
pub fn live_walks_are_in_order()
    ensures { LiveWalksAreInOrder }
{}

/// A chain of a number of steps is a live walk of as many choices that its first name follows, and back.
pub fn chain_is_walk()
    ensures { ChainIsWalk }
{}

/// A cycle of a number of steps is a row of the walks of that many choices whose base is its own start.
pub fn cycle_is_row()
    ensures { CycleIsRow }
{}

/// The gaps that are listed of a node are exactly its gaps.
pub fn gaps_are_all()
    ensures { GapsAreAll }
{}

/// A name with a chain that never ends breaks `Wide`, `Loop` or `Deep`.
pub fn endless_is_refused()
    ensures { EndlessIsRefused }
{}

/// In a net that breaks none of these three no chain has 65 steps.
pub fn no_fault_is_shallow()
    ensures { NoFaultIsShallow }
{}

/// In a net that breaks none of these three what is reached at all is reached within 65 steps.
pub fn reach_is_within()
    ensures { ReachIsWithin }
{}

/// The fork that is carried is the least name with two or more destinations that reaches a unit, with the least unit that it
/// reaches; where there is none, no such name is there.
pub fn fork_is_least()
    ensures { ForkIsLeast }
{}

/// The row of units that is carried is the first of four, or else the first of one to three with too many slots; where there
/// is none, every row has at most three units, and not too many slots.
pub fn chain_is_first()
    ensures { ChainIsFirst }
{}

/// A net with each node to which it refers breaks neither a node rule nor a rule on walks, and has units of plain shapes,
/// exactly where it is legal.
pub fn legal_breaks_no_rule()
    ensures { LegalBreaksNoRule }
{}
