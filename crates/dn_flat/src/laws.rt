//! Laws on views, each the contract of a function that does nothing.

ghost use Rattle.dn_flat.specs.Terms.{NodesReachTheirNames, ViewRowsAreNormal};

/// The rows of a view are the normal rows of what the addresses of its node resolve to.
pub fn view_rows_are_normal()
    ensures { ViewRowsAreNormal }
{}

/// What the flattened nodes of a net tell of an address is what it resolves to, and its stops.
pub fn nodes_reach_their_names()
    ensures { NodesReachTheirNames }
{}
