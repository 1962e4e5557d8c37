//! Laws on splitting and absorbing, each the contract of a function that does nothing.

ghost use Rattle.dn_shape.specs.Terms.{AbsorbKeepsRules, AbsorbKeepsViews, FreeNumberIsFirst, SpansAreMaximal, SplitKeepsRules, SplitKeepsViews};

/// The spans of a new node have exactly the addresses that the divided one accepted; no two of
/// them overlap or are adjacent.
pub fn spans_are_maximal()
    ensures { SpansAreMaximal }
{}

/// The name of a new node names no node before it, and each such name with a lower number does.
pub fn free_number_is_first()
    ensures { FreeNumberIsFirst }
{}

/// Splitting keeps every view, with each accepted name of a divided node renamed to its new node.
pub fn split_keeps_views()
    ensures { SplitKeepsViews }
{}

/// A split net is a net that keeps the node rules, and no node of it both accepts and translates.
pub fn split_keeps_rules()
    ensures { SplitKeepsRules }
{}

/// Absorbing keeps every view.
pub fn absorb_keeps_views()
    ensures { AbsorbKeepsViews }
{}

/// A net past a node is a net that keeps the node rules, and no node of it leads to the absorbed
/// one.
pub fn absorb_keeps_rules()
    ensures { AbsorbKeepsRules }
{}
