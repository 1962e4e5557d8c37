//! The limits that a net can pass when it is made of another.

ghost use Rattle.std.specs.Prelude.{◌≡◌, ◌<◌, length, slice_get, option_map, Some, nat_lt};
ghost use Rattle.std.specs.List.{list_any};
ghost use Rattle.dn_net.specs.Terms.{parts_of_node};
ghost use Rattle.dn_shape.specs.Terms.{dest_limit, has_long_entry, part_limit, parts_of_net, passed_limit};

use dn_net::net::Net;
use dn_net::node::Entry;

/// The most parts of a net: an accept block, a map entry and an `over` are one each.
pub(crate) const MAX_PARTS: u32 = 16_384;

/// The most destinations of a map entry.
pub(crate) const MAX_DESTS: u32 = 8;

/// The first limit that a net passes: 16,384 parts, 8 destinations. It never has more than 1,024
/// nodes.
pub(crate) fn passed_limit(net: &Net) -> Option<u32>
    ensures { result ≡ passed_limit net.now }
{
    net.facts();
    if has_many_parts(net) {
        return Some(MAX_PARTS);
    }
    if has_long_entry(net) {
        return Some(MAX_DESTS);
    }
    None
}

/// Whether the nodes have too many parts.
fn has_many_parts(net: &Net) -> bool
    ensures { result ≡ nat_lt part_limit (parts_of_net net.now) }
{
    let mut room = MAX_PARTS as usize;
    for node in 0..net.nodes() {
        let parts = parts_of_node(net, node);
        if room < parts {
            return true;
        }
        room -= parts;
    }
    false
}

/// The parts of a node.
pub(crate) fn parts_of_node(net: &Net, node: u16) -> usize
    requires { node < length net.now }
    ensures { option_map parts_of_node (slice_get net.now node) ≡ Some result }
{
    net.accepts(node).len() + net.entries(node).len() + usize::from(net.over(node).is_some())
}

/// Whether some entry has too many destinations.
pub(crate) fn has_long_entry(net: &Net) -> bool
    ensures { result ≡ list_any has_long_entry net.now }
{
    for node in 0..net.nodes() {
        if has_many_dests(net.entries(node)) {
            return true;
        }
    }
    false
}

/// Whether one of the entries has too many destinations.
fn has_many_dests(entries: &[Entry]) -> bool
    ensures { result ≡ list_any (λ e. nat_lt dest_limit (length e.dests)) entries.now }
{
    for entry in entries {
        if entry.dests.as_slice().len() > MAX_DESTS as usize {
            return true;
        }
    }
    false
}
