//! The text of the parts of a node: blocks, entries, destinations, and the parts of a unit.
//!
//! Each call appends to a text that is given up for want of memory; the text then has any part.

ghost use Rattle.std.specs.Prelude.{◌≡◌, ◌++◌, length, true, nat_lt, OnOk, IsTrue};
ghost use Rattle.std.specs.List.{list_all};
ghost use Rattle.std.specs.String.{string_bytes};
ghost use Rattle.dn_net.specs.Terms.{over_within};
ghost use Rattle.dn_print.specs.Terms.{accept_text, block_text, dest_text, dests_within, entries_within, entry_text, map_text, node_name, over_text, unit_text};

use crate::OutOfMemory;
use crate::joined::{Item, write_joined};
use dn_net::net::Net;
use dn_net::node::{Block, Dest, Entry, Unit};

/// Appends what a node accepts, if it accepts anything.
pub(crate) fn write_accept(out: &mut String, net: &Net, blocks: &[Block]) -> Result<(), OutOfMemory>
    ensures { OnOk result (string_bytes out.new ≡ string_bytes out.old ++ accept_text blocks.now) }
{
    if blocks.is_empty() {
        return Ok(());
    }
    out.push_str(" accept [")?;
    write_joined(out, net, ", ", blocks)?;
    out.push_str("]")
}

/// Appends what a node maps, if it maps anything.
pub(crate) fn write_map(out: &mut String, net: &Net, entries: &[Entry]) -> Result<(), OutOfMemory>
    requires { IsTrue (entries_within (length net.now) entries.now) }
    ensures { OnOk result (string_bytes out.new ≡
        string_bytes out.old ++ map_text net.now entries.now) }
{
    if entries.is_empty() {
        return Ok(());
    }
    out.push_str(" map [")?;
    write_joined(out, net, ", ", entries)?;
    out.push_str("]")
}

/// Appends the node that serves the rest, if there is one.
pub(crate) fn write_over(out: &mut String, net: &Net, over: Option<u16>) -> Result<(), OutOfMemory>
    requires { IsTrue (over_within (length net.now) over) }
    ensures { OnOk result (string_bytes out.new ≡ string_bytes out.old ++ over_text net.now over) }
{
    match over {
        Some(node) => {
            let text = net.text(node);
            write!(out, " over {text}")
        }
        None => Ok(()),
    }
}

/// Appends the parts of a unit of a kind of this name.
pub(crate) fn write_unit(
    out: &mut String,
    net: &Net,
    kind: &str,
    unit: &Unit,
) -> Result<(), OutOfMemory>
    requires { IsTrue (list_all (λ p. nat_lt p (length net.now)) unit.now.ports) }
    ensures { OnOk result (string_bytes out.new ≡
        string_bytes out.old ++ unit_text kind.now net.now unit.now) }
{
    let page = unit.page;
    let slots = unit.slots;
    let reach = unit.reach;
    write!(
        out,
        " kind {kind} page {page} slots {slots} reach {reach} to "
    )?;
    write_joined(out, net, ", ", unit.ports.as_slice())
}

/// Its first and its last address.
impl Item for Block {
    ghost text = { λ net b. block_text b };

    ghost within = { λ count b. true };

    fn write(&self, out: &mut String, _net: &Net) -> Result<(), OutOfMemory> {
        let Block { lo, hi } = *self;
        write!(out, "0x{lo:x}-0x{hi:x}")
    }
}

/// Its block, and where it is sent.
impl Item for Entry {
    ghost text = { λ net e. entry_text net e };

    ghost within = { λ count e. dests_within count e.dests };

    fn write(&self, out: &mut String, net: &Net) -> Result<(), OutOfMemory> {
        self.block.write(out, net)?;
        out.push_str(" to ")?;
        write_joined(out, net, " and ", self.dests.as_slice())
    }
}

/// The full name of its node, and its address.
impl Item for Dest {
    ghost text = { λ net d. dest_text net d };

    ghost within = { λ count d. nat_lt d.node count };

    fn write(&self, out: &mut String, net: &Net) -> Result<(), OutOfMemory> {
        let text = net.text(self.node);
        let addr = self.addr;
        write!(out, "{text} at 0x{addr:x}")
    }
}

/// The full name of the node of this number.
impl Item for u16 {
    ghost text = { λ net m. node_name net m };

    ghost within = { λ count m. nat_lt m count };

    fn write(&self, out: &mut String, net: &Net) -> Result<(), OutOfMemory> {
        out.push_str(net.text(*self))
    }
}
