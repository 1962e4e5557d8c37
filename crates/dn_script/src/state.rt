//! What is kept of a script while its commands are answered.

ghost use Rattle.std.specs.Prelude.{◌≡◌, ◌<◌, [], true, is_ok, length, IfOk, IfSome, IsSome, OnOk, Some};
ghost use Rattle.dn_base.specs.Terms.{IsCounted, is_device_fault};
ghost use Rattle.dn_kind.specs.Terms.{kinds_of};
ghost use Rattle.dn_flat.specs.Terms.{AreFlats};
ghost use Rattle.dn_image.specs.Terms.{image};
ghost use Rattle.dn_tables.specs.Terms.{AreUnitsMade, FitsNet, fresh_set, tables_of_set, words_of};
ghost use Rattle.dn_walk.specs.Terms.{AreWalksOf};
ghost use Rattle.dn_book.specs.Terms.{IsFaithful, IsKept};
ghost use Rattle.dn_script.specs.Terms.{AreUnmade, IsFirstView, IsMachine, IsReadyOn, IsStill, start, state_view};

use crate::OutOfMemory;
use crate::ids::Ids;
use crate::machine::Machine;
use crate::reshape::Unmade;
use dn_base::device::{DeviceOrMemory, Tables};
use dn_base::items::Items;
use dn_book::book::Book;
use dn_flat::flat::{Flat, flatten};
use dn_flat::flats::{Flats, flatten_all};
use dn_image::write;
use dn_tables::set::TableSet;
use std::alloc::Global;

/// The agent whose view was asked for first, and what it sees in the net.
#[derive(Drop)]
pub struct FirstView {
    pub agent: u16,
    pub flat: Flat,
}

/// The book with its tables, the ids that came so far, and what is made once and kept: the image of
/// the present tables, a view of the net, what its nodes reach, and why nets were not made of it.
#[derive(Drop)]
pub struct Session {
    /// The live grants, and the tables that hold their records.
    pub book: Book,
    /// The ids of grants, routes, pieces and revokes, with their numbers.
    pub ids: Ids,
    /// The image of the tables, where a command asked for it since they changed last.
    pub image: Option<Items<u8>>,
    /// What the agent sees in the net whose view was asked for first.
    pub first: Option<FirstView>,
    /// What each node reaches in the net, where a command asked for all.
    pub flats: Option<Flats>,
    /// Why nets were not made of the net, where a command asked for one.
    pub unmade: Unmade,
}

impl Session {
    /// Makes the units of a net on a device, in the order of their nodes, with words 0: no grant lives,
    /// and no id came.
    ///
    /// # Errors
    ///
    /// `Device` only where the device's count of faults rose in this call, or stands at the last
    /// value of its counter; `OutOfMemory` for want of memory. Units were made in order so far, and
    /// nothing else was done to the device.
    pub fn make<D: Tables>(
        alloc: Global,
        machine: Machine,
        device: &mut D,
    ) -> Result<Session, DeviceOrMemory>
        requires machine { IsMachine meaning machine }
        requires none { D.units device.old ≡ [] }
        ensures ready { IfOk result (λ s.
            IsReadyOn meaning machine.entry s (D.units device.new) (D.words device.new)) }
        ensures start { IfOk result (λ s. state_view s ≡ start) }
        ensures made { AreUnitsMade (tables_of_set
            (fresh_set (kinds_of meaning machine.entry.on.kinds.now) machine.entry.on.net.now))
            (is_ok result) (is_device_fault result) (D.log device.old)
            (D.log device.new) (D.units device.new) (D.words device.old) (D.words device.new) }
        ensures counted { IsCounted (D.faults device.old)
            (D.faults device.new) (is_device_fault result) }
    {
        let book = Book::make(alloc, machine.on, device)?;
        let unmade = Unmade::new(alloc);
        Ok(Session {
            book,
            ids: Ids::new(alloc),
            image: None,
            first: None,
            flats: None,
            unmade,
        })
    }
}

/// Makes the image of the tables, where it is not kept. `Err` is want of memory.
pub fn keep_image(
    alloc: Global,
    machine: Machine,
    tables: &TableSet,
    kept: &mut Option<Items<u8>>,
) -> Result<(), OutOfMemory>
    requires machine { IsMachine meaning machine }
    requires fits { FitsNet machine.on.net.now (kinds_of meaning machine.on.kinds.now) tables.now }
    requires kept { IfSome kept.old (λ bytes. bytes
        ≡ image machine.on.net.now (kinds_of meaning machine.on.kinds.now) (words_of tables.now)) }
    ensures kept { IfSome kept.new (λ bytes. bytes ≡ image machine.entry.on.net.now
        (kinds_of meaning machine.entry.on.kinds.now) (words_of tables.now)) }
    ensures made { OnOk result (IsSome kept.new) }
{
    if kept.is_some() {
        return Ok(());
    }
    let bytes = write::write(alloc, machine.on, tables)?;
    *kept = Some(Items::from_vec(bytes));
    Ok(())
}

/// Makes what an agent sees, where no view of an agent was asked for before. `Err` is want of memory.
pub fn keep_first(
    alloc: Global,
    machine: Machine,
    first: &mut Option<FirstView>,
    agent: u16,
) -> Result<(), OutOfMemory>
    requires walked { AreWalksOf machine.on.net.now machine.walks.now }
    requires first { IfSome first.old (IsFirstView machine.on.net.now) }
    requires there { agent < length machine.on.net.now }
    ensures first { IfSome first.new (IsFirstView machine.entry.on.net.now) }
{
    if first.is_some() {
        return Ok(());
    }
    let flat = flatten(alloc, machine.on.net, machine.walks, agent)?;
    *first = Some(FirstView { agent, flat });
    Ok(())
}

/// Makes what the nodes of a net reach, where that is not kept. `Err` is want of memory.
pub fn keep_flats(
    alloc: Global,
    machine: Machine,
    flats: &mut Option<Flats>,
) -> Result<(), OutOfMemory>
    requires walked { AreWalksOf machine.on.net.now machine.walks.now }
    requires flat { IfSome flats.old (AreFlats machine.on.net.now) }
    ensures flat { IfSome flats.new (AreFlats machine.entry.on.net.now) }
    ensures made { OnOk result (IsSome flats.new) }
{
    if flats.is_some() {
        return Ok(());
    }
    *flats = Some(flatten_all(alloc, machine.on.net, machine.walks)?);
    Ok(())
}

/// What the nodes of a net reach, which is kept.
pub fn kept_flats(flats: &Option<Flats>) -> &Flats
    requires made { IsSome flats.now }
    ensures { flats.now ≡ Some result.now }
{
    match flats {
        Some(flats) => flats,
        None => unreachable!(),
    }
}

/// Drops the image, since the tables have changed.
pub fn renew(machine: Machine, state: &mut Session)
    requires machine { IsMachine meaning machine }
    requires unfailed { state.old.book.unfailed ≡ true }
    requires faithful { IsFaithful machine.on.net.now state.old.book.grants }
    requires kept { IsKept machine.on.net.now
        (kinds_of meaning machine.on.kinds.now) state.old.book.grants state.old.book.set }
    requires first { IfSome state.old.first (IsFirstView machine.on.net.now) }
    requires flat { IfSome state.old.flats (AreFlats machine.on.net.now) }
    requires unmade { AreUnmade machine.on.net.now state.old.unmade }
    ensures still { IsStill meaning machine.entry state.old state.new }
{
    state.image = None;
}
