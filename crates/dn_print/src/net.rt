//! The text of a net: a statement for each node, in order.
//!
//! Each `write_` call appends to a text that is given up for want of memory; the text then has any part.

ghost use Rattle.std.specs.Prelude.{◌≡◌, ◌<◌, ◌++◌, length, slice_get, IfOk, OnOk, IsTrue};
ghost use Rattle.std.specs.List.{list_all};
ghost use Rattle.std.specs.String.{string_bytes};
ghost use Rattle.dn_net.specs.Terms.{is_closed};
ghost use Rattle.dn_kind.specs.Terms.{AreKinds, has_kind, kinds_of};
ghost use Rattle.dn_print.specs.Terms.{net_text, parts_at, role_text, statement_text_at};

use crate::{OutOfMemory, parts};
use dn_kind::kinded::KindedNet;
use dn_net::net::Net;
use dn_net::node::Role;
use std::alloc::Global;

/// The text of a net: one statement for each node, in order, each a line. `Err` is want of memory.
///
/// A block is printed as `lo-hi` and a destination with its `at`, also where the reader would take
/// less. Addresses are in hexadecimal, and a unit's page, slots and reach are decimal. A unit's kind is
/// called by its name, where each unit's kind is there.
pub fn net_text(alloc: Global, on: KindedNet) -> Result<Vec<u8>, OutOfMemory>
    requires closed { IsTrue (is_closed on.net.now) }
    requires kinds { AreKinds meaning on.kinds.now }
    requires known { IsTrue
        (list_all (λ n. has_kind (length on.kinds.now.list.items) n.unit) on.net.now) }
    ensures { IfOk result (λ v. v.items
        ≡ net_text (kinds_of meaning on.entry.kinds.now) on.entry.net.now) }
{
    let mut out = String::new(alloc);
    for node in 0..on.net.nodes() {
        write_statement(&mut out, on, node)?;
    }
    Ok(out.into_bytes())
}

/// The statement of a node and the end of its line, as [`net_text`] has it. `Err` is want of memory.
pub fn statement_text(alloc: Global, on: KindedNet, node: u16) -> Result<String, OutOfMemory>
    requires there { node < length on.net.now }
    requires closed { IsTrue (is_closed on.net.now) }
    requires kinds { AreKinds meaning on.kinds.now }
    requires known { IsTrue
        (list_all (λ n. has_kind (length on.kinds.now.list.items) n.unit) on.net.now) }
    ensures { IfOk result (λ text. string_bytes text ≡ statement_text_at
        (kinds_of meaning on.entry.kinds.now) on.entry.net.now (slice_get on.entry.net.now node)) }
{
    let mut out = String::new(alloc);
    write_statement(&mut out, on, node)?;
    Ok(out)
}

/// Appends the statement of a node and the end of its line.
fn write_statement(out: &mut String, on: KindedNet, node: u16) -> Result<(), OutOfMemory>
    requires there { node < length on.net.now }
    requires closed { IsTrue (is_closed on.net.now) }
    requires kinds { AreKinds meaning on.kinds.now }
    requires known { IsTrue
        (list_all (λ n. has_kind (length on.kinds.now.list.items) n.unit) on.net.now) }
    ensures { OnOk result (string_bytes out.new ≡ string_bytes out.old ++ statement_text_at
        (kinds_of meaning on.entry.kinds.now) on.entry.net.now (slice_get on.entry.net.now node)) }
{
    out.push_str(role_word(on.net.role(node)))?;
    out.push_str(on.net.text(node))?;
    match on.net.unit(node) {
        Some(unit) => {
            let kind = on.kinds.kind(usize::from(unit.kind));
            parts::write_unit(out, on.net, kind.name(), unit)?;
            out.push_str(";\n")
        }
        None => {
            write_parts(out, on.net, node)?;
            out.push_str(";\n")
        }
    }
}

/// The word before a node's name, and the space after it.
fn role_word(role: Role) -> &'static str
    ensures { result.now ≡ role_text role }
{
    match role {
        Role::Plain => "",
        Role::Agent => "agent ",
        Role::Vectors => "vectors ",
        Role::Unit => "unit ",
    }
}

/// Appends the parts of a node that is no unit.
fn write_parts(out: &mut String, net: &Net, node: u16) -> Result<(), OutOfMemory>
    requires there { node < length net.now }
    requires closed { IsTrue (is_closed net.now) }
    ensures { OnOk result (string_bytes out.new ≡
        string_bytes out.old ++ parts_at net.now (slice_get net.now node)) }
{
    out.push_str(" is")?;
    parts::write_accept(out, net, net.accepts(node))?;
    parts::write_map(out, net, net.entries(node))?;
    parts::write_over(out, net, net.over(node))
}
