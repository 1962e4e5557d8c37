//! The hops that can come next in a placement, nearer to the agent, one after another.

ghost use Rattle.std.specs.Prelude.{◌≡◌, ℕ, ◌+◌, ◌%◌, ◌<◌, ◌≤◌, false, List, IfOk, IfSome, IfNone, IsTrue, None, Some, get_or, length};
ghost use Rattle.dn_net.specs.Terms.{unit_at};
ghost use Rattle.dn_tables.specs.declared.placement.Hop.{Hop};
ghost use Rattle.dn_tables.specs.Placement.{Place};
ghost use Rattle.dn_place.specs.Sought.{Sought};
ghost use Rattle.dn_place.specs.Terms.{Advances, AreAllToCome, AreAllUseless, AreExitsOf, AreInputs, AreUnitsFrom, EndsInputs, GoesByInputs, HandsOut, HasNoneUsable, HasRange, HasUnitBounds, IsChosen, IsCursor, IsInputRange, IsNextUsable, IsOutputIn, IsSearch, IsUnder, IsUsableInput, NoneToCome, NoneUnder, StandsAt, hops_view, mark_at, sought, to_output, to_unit};

use crate::OutOfMemory;
use crate::exits::{Exit, ExitSearch, exits_to};
use crate::hops::Hops;
use crate::inputs::next_try;
use crate::reach::{ReachMarks, can_enter, can_stand, entry_at};
use crate::search::Search;
use crate::slots::{Input, power};
use crate::unit::unit_in;
use dn_net::node::Unit;
use dn_tables::placement::Hop;
use std::alloc::Global;

/// The inputs that a hop may have through an output: from one on to a last one, each a page after the one before it.
#[derive(Clone, Copy, Debug, PartialEq, Eq)]
pub(crate) struct Inputs {
    pub(crate) unit: u16,
    /// The port of the output, by its place among the unit's ports.
    pub(crate) port: u8,
    /// The address of the port's node.
    pub(crate) y: u64,
    /// How many addresses a page of the unit has.
    pub(crate) page: u64,
    /// The first of the inputs.
    pub(crate) x: u64,
    /// No input is past this one.
    pub(crate) last: u64,
    /// The slots from the one of `x` on are known to be free before this slot.
    pub(crate) free: u32,
    /// How many inputs were handed out before `x`: 255 stands for any more.
    pub(crate) handed: u8,
}

/// Where a search stands among the hops that can come next, in the order of their unit, port, output and input.
#[derive(Drop)]
pub(crate) struct HopCursor {
    /// How many of the units were begun.
    pub(crate) begun: usize,
    /// The unit that was begun last.
    pub(crate) unit: u16,
    /// Its outputs, ascending.
    pub(crate) exits: Vec<Exit>,
    /// How many of the outputs were begun.
    pub(crate) at: usize,
    /// What is left of the inputs through the output that was begun last.
    pub(crate) inputs: Option<Inputs>,
}

impl HopCursor {
    /// A cursor before the first hop.
    pub(crate) fn new(alloc: Global) -> HopCursor
        ensures cursor { (s : Sought) (count : ℕ) (nearer : List Hop) (units : List ℕ) →
            AreUnitsFrom s.net 0 units → IsCursor s count nearer units result }
        ensures all { (s : Sought) (count : ℕ) (nearer : List Hop) (units : List ℕ) →
            AreUnitsFrom s.net 0 units → length nearer < count →
            AreAllToCome s count nearer units result }
    {
        HopCursor {
            begun: 0,
            unit: 0,
            exits: Vec::new(alloc),
            at: 0,
            inputs: None,
        }
    }

    /// How many inputs of the output at hand were handed out: 255 stands for any more.
    pub(crate) fn handed(&self) -> u8 {
        match self.inputs {
            Some(inputs) => inputs.handed,
            None => 0,
        }
    }

    /// The next hop that can come before the nearer ones. Hops that are passed over serve no placement. `None` exactly
    /// where none is left. `Err` means that memory ran out.
    pub(crate) fn next(
        &mut self,
        alloc: Global,
        search: Search,
        nearer: Hops,
    ) -> Result<Option<Hop>, OutOfMemory>
        requires search { IsSearch meaning search }
        requires chosen { IsChosen (sought meaning search) search.count (hops_view nearer) }
        requires more { length (hops_view nearer) < search.count }
        requires cursor { StandsAt meaning search nearer self.old }
        ensures some { IfOk result (λ found. IfSome found
            (λ hop. HandsOut meaning search.entry nearer self.old self.new hop)) }
        ensures none { IfOk result (λ found. found ≡ None →
            NoneToCome meaning search.entry nearer self.old) }
    {
        'steps: loop {
            if let Some(hop) = self.next_input(search, nearer) {
                return Ok(Some(hop));
            }
            if !self.advance(alloc, search, nearer)? {
                return Ok(None);
            }
        }
    }

    /// The next hop through the output at hand, if one is left.
    fn next_input(&mut self, search: Search, nearer: Hops) -> Option<Hop>
        requires search { IsSearch meaning search }
        requires chosen { IsChosen (sought meaning search) search.count (hops_view nearer) }
        requires more { length (hops_view nearer) < search.count }
        requires cursor { StandsAt meaning search nearer self.old }
        ensures some { IfSome result
            (λ hop. HandsOut meaning search.entry nearer self.old self.new hop) }
        ensures none { IfNone result (EndsInputs meaning search.entry nearer self.old self.new) }
    {
        let Some(inputs) = self.inputs else {
            return None;
        };
        match usable_input(search, search.count - nearer.count(), inputs) {
            Some(input) => {
                self.inputs = Some(past_input(inputs, input));
                Some(Hop {
                    unit: inputs.unit,
                    port: inputs.port,
                    x: input.x,
                    y: inputs.y,
                })
            }
            None => {
                self.inputs = None;
                None
            }
        }
    }

    /// Begins the next output of the unit, or the next unit. `false` where none is left.
    fn advance(&mut self, alloc: Global, search: Search, nearer: Hops) -> Result<bool, OutOfMemory>
        requires search { IsSearch meaning search }
        requires chosen { IsChosen (sought meaning search) search.count (hops_view nearer) }
        requires more { length (hops_view nearer) < search.count }
        requires cursor { StandsAt meaning search nearer self.old }
        requires none { self.old.inputs ≡ None }
        ensures more { IfOk result (λ more. IsTrue more →
            Advances meaning search.entry nearer self.old self.new) }
        ensures none { IfOk result (λ more. more ≡ false →
            NoneToCome meaning search.entry nearer self.old) }
    {
        if self.next_exit(search, nearer) {
            return Ok(true);
        }
        self.next_unit(alloc, search, nearer)
    }

    /// Begins the next output of the unit. `false` where none is left.
    fn next_exit(&mut self, search: Search, nearer: Hops) -> bool
        requires search { IsSearch meaning search }
        requires chosen { IsChosen (sought meaning search) search.count (hops_view nearer) }
        requires more { length (hops_view nearer) < search.count }
        requires cursor { StandsAt meaning search nearer self.old }
        requires none { self.old.inputs ≡ None }
        ensures yes { IsTrue result → Advances meaning search.entry nearer self.old self.new }
        ensures no { result ≡ false → self.new ≡ self.old }
        ensures past { result ≡ false → length self.old.exits.items ≤ self.old.at }
    {
        let exits = self.exits.as_slice();
        if self.at >= exits.len() {
            return false;
        }
        let exit = exits[self.at];
        self.inputs = inputs_of(search, nearer, self.unit, exit);
        self.at += 1;
        true
    }

    /// Begins the next unit. `false` where none is left.
    fn next_unit(
        &mut self,
        alloc: Global,
        search: Search,
        nearer: Hops,
    ) -> Result<bool, OutOfMemory>
        requires search { IsSearch meaning search }
        requires chosen { IsChosen (sought meaning search) search.count (hops_view nearer) }
        requires more { length (hops_view nearer) < search.count }
        requires cursor { StandsAt meaning search nearer self.old }
        requires none { self.old.inputs ≡ None }
        requires past { length self.old.exits.items ≤ self.old.at }
        ensures more { IfOk result (λ more. IsTrue more →
            Advances meaning search.entry nearer self.old self.new) }
        ensures none { IfOk result (λ more. more ≡ false →
            NoneToCome meaning search.entry nearer self.old) }
    {
        let units = search.reach.units.as_slice();
        let place = search.count - nearer.count();
        let next = first_marked(search.reach, place, units, self.begun);
        if next >= units.len() {
            return Ok(false);
        }
        let unit = units[next];
        self.exits = exits_of(alloc, search, nearer, unit)?;
        self.unit = unit;
        self.begun = next + 1;
        self.at = 0;
        Ok(true)
    }
}

/// The index of the first unit, from one on, in which a hop at this place from the agent's end can stand. If there is none,
/// it is past the last unit.
fn first_marked(reach: &ReachMarks, place: u8, units: &[u16], from: usize) -> usize
    ensures onward { from ≤ result }
    ensures none { (k : ℕ) → from ≤ k → k < result → mark_at reach.now.first.items
        reach.now.second.items reach.now.third.items place (get_or units.now k 0) ≡ false }
{
    let mut next = from;
    'units: while next < units.len() {
        if can_stand(reach, place, units[next]) {
            return next;
        }
        next += 1;
    }
    next
}

/// The outputs of a unit through which a hop can lead to the nearer ones, ascending: none where the address that is asked
/// for does not lead there.
fn exits_of(
    alloc: Global,
    search: Search,
    nearer: Hops,
    unit: u16,
) -> Result<Vec<Exit>, OutOfMemory>
    requires search { IsSearch meaning search }
    requires chosen { IsChosen (sought meaning search) search.count (hops_view nearer) }
    requires more { length (hops_view nearer) < search.count }
    ensures exits { IfOk result (λ exits. AreExitsOf (sought meaning search.entry)
        search.entry.count (hops_view nearer) unit exits.items) }
    ensures few { IfOk result (λ exits. length exits.items < 18446744073709551616) }
{
    let Some(translator) = unit_for(search, nearer, unit) else {
        return Ok(Vec::new(alloc));
    };
    let wanted = ExitSearch {
        system: search.system,
        request: search.request,
        nearer,
        translator,
        block: search.block,
    };
    let exits = exits_to(alloc, wanted)?;
    // For the proof.
    let _count = exits.as_slice().len();
    Ok(exits)
}

/// The unit, if the address that is asked for lets a hop that comes before the nearer ones enter it.
fn unit_for<'a>(search: Search<'a>, nearer: Hops, unit: u16) -> Option<&'a Unit>
    requires search { IsSearch meaning search }
    requires chosen { IsChosen (sought meaning search) search.count (hops_view nearer) }
    requires more { length (hops_view nearer) < search.count }
    ensures some { IfSome result (λ u. unit_at search.entry.system.on.net.now unit ≡ Some u.now) }
    ensures bounds { IfSome result (λ u. HasUnitBounds search.entry.system.on.net.now u.now) }
    ensures none { IfNone result (NoneUnder (sought meaning search.entry)
        (to_unit search.entry.count (hops_view nearer) unit)) }
{
    if !can_enter(search.reach, search.count - nearer.count(), unit) {
        return None;
    }
    unit_in(search.system, unit)
}

/// The inputs that a hop may have through an output of a unit, if it may have any.
fn inputs_of(search: Search, nearer: Hops, unit: u16, exit: Exit) -> Option<Inputs>
    requires search { IsSearch meaning search }
    requires chosen { IsChosen (sought meaning search) search.count (hops_view nearer) }
    requires more { length (hops_view nearer) < search.count }
    requires output { IsOutputIn (sought meaning search) (hops_view nearer) unit exit.port exit.y }
    ensures inputs { IfSome result (λ i. AreInputs (sought meaning search.entry)
        search.entry.count (hops_view nearer) i) }
    ensures unit { IfSome result (λ i. i.unit ≡ unit) }
    ensures port { IfSome result (λ i. i.port ≡ exit.port) }
    ensures output { IfSome result (λ i. i.y ≡ exit.y) }
    ensures all { (q : Place) → IsUnder (sought meaning search.entry)
        (to_output search.entry.count (hops_view nearer) unit exit.port exit.y) q →
        GoesByInputs (sought meaning search.entry) search.entry.count (hops_view nearer) result q }
{
    let Some(translator) = unit_in(search.system, unit) else {
        return None;
    };
    let page = power(translator.page);
    let end = u64::from(translator.slots) * page;
    let size = search.request.size;
    if end < size {
        return None;
    }
    let inputs = Inputs {
        unit,
        port: exit.port,
        y: exit.y,
        page,
        x: exit.y % page,
        last: end - size,
        free: 0,
        handed: 0,
    };
    match entry_at(search.reach, search.count - nearer.count()) {
        Some(entry) => only_input(inputs, entry.base),
        None => Some(inputs),
    }
}

/// Of inputs the one that is this number, if it is among them.
fn only_input(inputs: Inputs, x: u64) -> Option<Inputs>
    requires some { 1 ≤ inputs.page }
    ensures is { IfSome result (λ i. i ≡ record {
      unit = inputs.unit;
      port = inputs.port;
      y = inputs.y;
      page = inputs.page;
      x = x;
      last = x;
      free = inputs.free;
      handed = inputs.handed;
    }) }
    ensures within { IfSome result (λ _. x ≤ inputs.last) }
    ensures agree { IfSome result (λ _. x % inputs.page ≡ inputs.x) }
    ensures none { IfNone result (x ≤ inputs.last → x % inputs.page ≡ inputs.x → ⊥) }
{
    if x <= inputs.last && x % inputs.page == inputs.x {
        Some(Inputs {
            x,
            last: x,
            ..inputs
        })
    } else {
        None
    }
}

/// The first of the inputs that may serve a hop at this place from the agent's end.
fn usable_input(search: Search, place: u8, inputs: Inputs) -> Option<Input>
    requires search { IsSearch meaning search }
    requires range { HasRange (sought meaning search) inputs }
    ensures some { IfSome result
        (λ input. IsNextUsable (sought meaning search.entry) place inputs input) }
    ensures none { IfNone result (HasNoneUsable (sought meaning search.entry) place inputs) }
{
    match unit_in(search.system, inputs.unit) {
        Some(translator) => usable_from(search, place, translator, inputs),
        None => None,
    }
}

/// The first of the inputs of a unit that may serve a hop at this place from the agent's end.
fn usable_from(search: Search, place: u8, translator: &Unit, inputs: Inputs) -> Option<Input>
    requires search { IsSearch meaning search }
    requires range { IsInputRange (sought meaning search) translator.now inputs }
    ensures some { IfSome result (λ input. IsUsableInput (sought meaning search.entry)
        translator.now place inputs input) }
    ensures none { IfNone result (AreAllUseless (sought meaning search.entry)
        translator.now place inputs) }
{
    let mut x = inputs.x;
    let mut free = inputs.free;
    'inputs: while x <= inputs.last {
        let tried = next_try(search, place, translator, hop_at(inputs, x), free);
        if tried.x == x {
            return Some(tried);
        }
        x = tried.x;
        free = tried.free;
    }
    None
}

/// The inputs after one of them.
fn past_input(inputs: Inputs, input: Input) -> Inputs
    requires { input.x + inputs.page < 18446744073709551616 }
    ensures { (handed : ℕ) × (result ≡ record {
      unit = inputs.unit;
      port = inputs.port;
      y = inputs.y;
      page = inputs.page;
      x = input.x + inputs.page;
      last = inputs.last;
      free = input.free;
      handed = handed;
    }) }
{
    Inputs {
        x: input.x + inputs.page,
        free: input.free,
        handed: inputs.handed.saturating_add(1),
        ..inputs
    }
}

/// The hop that has this one of the inputs.
fn hop_at(inputs: Inputs, x: u64) -> Hop
    ensures { result ≡ record { unit = inputs.unit; port = inputs.port; x = x; y = inputs.y } }
{
    Hop {
        unit: inputs.unit,
        port: inputs.port,
        x,
        y: inputs.y,
    }
}
