//! One step of decoding.

ghost use Rattle.std.specs.Prelude.{◌≡◌, ◌≢◌, ◌↔◌, ℕ, Option, length, map, ◌-◌, ◌<◌, ◌≤◌, nat_lt, nat_le, IsTrue, slice_get, Some};
ghost use Rattle.std.specs.List.{All, list_all, count_by};
ghost use Rattle.dn_net.specs.Terms.{KeepsRules, by_entries, by_over, decode, entry_in_range, is_accepted, is_closed, is_stop, leads_in_range, leads_within, over_dests, sent_names, step_view, steps, top, within};

use crate::entries::{EntryList, entry_at};
use crate::net::Net;
use crate::node::{Dest, Name, TOP};

/// To what one name decodes.
#[derive(Clone, Copy)]
pub enum Step<'a> {
    /// The node accepts the address.
    Accepted,
    /// The name stands in a unit.
    Stop,
    /// One step to each destination, its address raised by the number. For `over` the destination is
    /// the node at 0 and the number is the address.
    To(&'a [Dest], u64),
    /// There is no step.
    Nothing,
}

impl Net {
    /// Decodes a name by one step.
    pub fn step(&self, name: Name) -> Step<'_>
        requires there { name.node < length self.now }
        requires rules { All KeepsRules self.now }
        ensures accepted { result ≡ Step.Accepted ↔ IsTrue (is_accepted self.now name) }
        ensures stop { result ≡ Step.Stop ↔ IsTrue (is_stop self.now name) }
        ensures sent { step_view result ≡ decode name.addr (slice_get self.now name.node) }
        ensures steps { sent_names (step_view result) ≡ steps self.now name }
        ensures reach { IsTrue (leads_in_range result) }
        ensures closed { IsTrue (is_closed self.now)
            → IsTrue (leads_within (length self.now) result) }
    {
        if name.addr > TOP {
            return Step::Nothing;
        }
        if self.is_unit(name.node) {
            return Step::Stop;
        }
        if self.is_accepting(name.node, name.addr) {
            return Step::Accepted;
        }
        let over = self.over_dests(name.node);
        lead(self.entry_list(name.node), over, name.addr)
    }
}

/// The step of an address that is not accepted: by the map entry that has it, and else by `over`.
fn lead<'a>(entries: &'a EntryList, over: &'a [Dest], addr: u64) -> Step<'a>
    requires addr { addr ≤ top }
    requires in_range { IsTrue (list_all entry_in_range entries.now) }
    requires apart { (a : ℕ) → count_by (λ e. within a e.block) entries.now ≤ 1 }
    requires based { IsTrue (list_all (λ d. nat_le d.addr 0) over.now) }
    ensures accepted { result ≢ Step.Accepted }
    ensures stop { result ≢ Step.Stop }
    ensures sent { (o : Option ℕ) → over.now ≡ over_dests o → step_view result
        ≡ by_entries addr o entries.now }
    ensures reach { IsTrue (leads_in_range result) }
    ensures closed { (count : ℕ)
        → IsTrue (list_all (λ e. list_all (λ d. nat_lt d.node count) e.dests) entries.now)
        → IsTrue (list_all (λ d. nat_lt d.node count) over.now)
        → IsTrue (leads_within count result) }
{
    match entry_at(entries, addr) {
        Some(entry) => Step::To(entry.dests.as_slice(), addr - entry.block.lo),
        None => over_step(over, addr),
    }
}

/// The step of an address that the node's `over` serves, if there is one.
fn over_step(over: &[Dest], addr: u64) -> Step<'_>
    requires addr { addr ≤ top }
    requires based { IsTrue (list_all (λ d. nat_le d.addr 0) over.now) }
    ensures accepted { result ≢ Step.Accepted }
    ensures stop { result ≢ Step.Stop }
    ensures sent { (o : Option ℕ) → over.now ≡ over_dests o → step_view result ≡ by_over addr o }
    ensures reach { IsTrue (leads_in_range result) }
    ensures closed { (count : ℕ) → IsTrue (list_all (λ d. nat_lt d.node count) over.now)
        → IsTrue (leads_within count result) }
{
    match over {
        [] => Step::Nothing,
        _ => Step::To(over, addr),
    }
}
