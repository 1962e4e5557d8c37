//! Parts of a pass that follows names level by level: the names one step on, and sets of names.

ghost use Rattle.std.specs.Prelude.{◌≡◌, ◌++◌, [], ◌∷◌, ◌+◌, ◌<◌, ◌^◌, map, nat_le, IfOk, OnOk, IsTrue};
ghost use Rattle.std.specs.List.{list_all};
ghost use Rattle.dn_net.specs.Terms.{dest_name, sorted_names, top};
ghost use Rattle.dn_kind.specs.Terms.{name_list};

use crate::OutOfMemory;
use dn_net::names::Names;
use dn_net::node::{Dest, Name};
use std::alloc::Global;

/// How many levels of names there are: the name itself, and those after each of 1 to 259 steps.
pub const LEVELS: u16 = 260;

/// The first level: the name alone.
pub fn first_level(alloc: Global, name: Name) -> Result<Names, OutOfMemory>
    ensures { IfOk result (λ level. level ≡ name ∷ []) }
{
    let mut level = Names::new(alloc);
    level.insert(name)?;
    Ok(level)
}

/// Appends the name, where there is one.
pub fn push_sent(next: &mut Vec<Name>, sent: Option<Name>) -> Result<(), OutOfMemory>
    ensures { OnOk result (next.new.items ≡ next.old.items ++ name_list sent) }
{
    match sent {
        Some(name) => Ok(next.push(name)?),
        None => Ok(()),
    }
}

/// Appends the destinations, the address of each raised by the offset.
pub fn push_moved(next: &mut Vec<Name>, dests: &[Dest], offset: u64) -> Result<(), OutOfMemory>
    requires { IsTrue (list_all (λ d. nat_le (d.addr + offset) top) dests.now) }
    ensures { OnOk result (next.new.items ≡ next.old.items ++ map (dest_name offset) dests.now) }
{
    for dest in dests {
        next.push(dest_name(*dest, offset))?;
    }
    Ok(())
}

/// The destination, its address raised by the offset.
fn dest_name(dest: Dest, offset: u64) -> Name
    requires { dest.addr + offset < 2 ^ 64 }
    ensures { result ≡ dest_name offset dest }
{
    Name {
        node: dest.node,
        addr: dest.addr + offset,
    }
}

/// The set of these names: once they are sorted, each is put behind those that were put in before it.
pub fn set_of(alloc: Global, mut names: Vec<Name>) -> Result<Names, OutOfMemory>
    ensures { IfOk result (λ set. set ≡ sorted_names names.items) }
{
    names.sort_unstable_by_key(|name| (name.node, name.addr));
    let sorted = names.as_slice();
    let mut set = Names::new(alloc);
    for name in sorted {
        set.insert(*name)?;
    }
    Ok(set)
}
