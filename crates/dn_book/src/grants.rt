//! The live grants in the order of granting, each found by its id.

ghost use Rattle.std.specs.Prelude.{◌≡◌, ◌-◌, ◌<◌, ◌≤◌, ◌==◌, [], ◌∷◌, ◌++◌, false, find, length, nat_eq, option_copied, max, slice_get, vec_capacity, vec_len, IfNone, IfSome, IsOk, OnOk, OnErr};
ghost use Rattle.std.specs.List.{IsDistinct, remove};
ghost use Rattle.std.specs.Map.{keys_of};
ghost use Rattle.dn_book.specs.Terms.{has_id, without_id, without_place};
ghost use Rattle.dn_book.specs.declared.grant.Grant.{Grant as GrantPart};

use crate::grant::Grant;
use slab::Slab;
use std::alloc::{AllocError, Global};
use std::collections::HashMap;
use std::marker::Model;

/// The live grants in the order in which they were granted, with room for more.
///
/// Each grant is kept at a place of its own, which is used again once the grant is gone. So neither a
/// grant that comes nor one that goes moves another: what moves is the numbers in `order`.
#[derive(Drop)]
pub struct Grants {
    /// The grants at their places.
    kept: Slab<Grant>,
    /// The id and the place of each grant, in the order of granting.
    order: Vec<(u32, usize)>,
    /// The place of the grant of an id.
    places: HashMap<u32, usize>,
    /// For how many more grants there is room at least.
    spare: usize,
}

impl Model for Grants {
    ghost use Rattle.std.specs.Prelude.{◌+◌, ◌≤◌};
    ghost use Rattle.std.specs.Vec.{vec_len, vec_capacity};
    ghost use Rattle.std.specs.HashMap.{spare as map_spare};
    ghost use Rattle.slab.specs.Slab.{HasRoomFor};
    ghost use Rattle.dn_book.specs.Placed.{AreFoundById, kept_grants};
    ghost use Rattle.dn_book.specs.State.{GrantsState};

    ghost Value = { GrantsState };

    ghost view = { λ s. record { live = kept_grants s.kept s.order.items; spare = s.spare } };

    ghost invariant = { λ s. AreFoundById s.kept s.order.items s.places.entries × HasRoomFor s.kept s.spare
        × (vec_len s.order + s.spare ≤ vec_capacity s.order) × (s.spare ≤ map_spare s.places) };
}

impl Grants {
    /// No grant.
    pub(crate) fn new(alloc: Global) -> Grants
        ensures { result ≡ record { live = []; spare = 0 } }
    {
        Grants {
            kept: Slab::new(alloc),
            order: Vec::new(alloc),
            places: HashMap::new(alloc),
            spare: 0,
        }
    }

    /// How many grants live.
    pub fn len(&self) -> usize
        ensures { result ≡ length self.now.live }
    {
        self.order.len()
    }

    /// The grant that was granted after so many others that live. `None` where there are no more.
    pub fn nth(&self, at: usize) -> Option<&Grant>
        ensures { option_copied result ≡ slice_get self.now.live at }
    {
        match self.order.get(at) {
            Some(entry) => self.kept.get(entry.1),
            None => None,
        }
    }

    /// Whether a live grant has the id.
    pub fn has_id(&self, id: u32) -> bool
        ensures { result ≡ has_id id self.now.live }
    {
        self.places.contains_key(&id)
    }

    /// The grant of an id. `None` exactly where no live grant has it.
    pub fn get(&self, id: u32) -> Option<&Grant>
        ensures { option_copied result ≡ find (λ g. g.id == id) self.now.live }
    {
        match self.places.get(&id) {
            Some(place) => self.kept.get(*place),
            None => None,
        }
    }

    /// Makes room for so many more grants.
    ///
    /// # Errors
    ///
    /// `AllocError` for want of memory: nothing has changed.
    pub(crate) fn reserve(&mut self, more: usize) -> Result<(), AllocError>
        ensures reserved { OnOk result (self.new
            ≡ record self.old { spare = max self.old.spare more }) }
        ensures refused { OnErr result (self.new ≡ self.old) }
        ensures there { more ≤ self.old.spare → IsOk result }
    {
        if self.spare < more {
            self.kept.reserve(more)?;
            self.order.reserve(more)?;
            self.places.reserve(more)?;
            self.spare = more;
        }
        Ok(())
    }

    /// Appends a grant of a new id. Where there is room it takes no memory.
    ///
    /// # Errors
    ///
    /// `AllocError` for want of memory: nothing has changed.
    pub(crate) fn push(&mut self, grant: Grant) -> Result<(), AllocError>
        requires { has_id grant.id self.old.live ≡ false }
        ensures pushed { OnOk result (self.new.live ≡ self.old.live ++ grant ∷ []) }
        ensures spare { OnOk result (self.new.spare ≡ self.old.spare - 1) }
        ensures refused { OnErr result (self.new ≡ self.old) }
        ensures room { OnErr result (self.old.spare ≡ 0) }
    {
        self.reserve(1)?;
        self.push_reserved(grant);
        Ok(())
    }

    /// Appends a grant of a new id where there is room.
    fn push_reserved(&mut self, grant: Grant)
        requires new { has_id grant.id self.old.live ≡ false }
        requires room { 0 < self.old.spare }
        ensures pushed { self.new.live ≡ self.old.live ++ grant ∷ [] }
        ensures spare { self.new.spare ≡ self.old.spare - 1 }
    {
        let id = grant.id;
        let place = self.kept.insert_reserved(grant);
        self.order.push_reserved((id, place));
        let put: Result<_, _> = self.places.insert(id, place);
        put.unwrap();
        self.spare -= 1;
    }

    /// Takes the grant of an id out, where one has it. It takes no memory, and the room stays.
    pub(crate) fn remove(&mut self, id: u32)
        ensures left { self.new.live ≡ without_id id self.old.live }
        ensures spare { self.new.spare ≡ self.old.spare }
    {
        if let Some(place) = self.places.remove(&id) {
            drop(self.kept.remove(place));
            take_out(&mut self.order, id);
        }
    }
}

/// Takes the entry of an id out, where there is one.
fn take_out(order: &mut Vec<(u32, usize)>, id: u32)
    requires apart { IsDistinct nat_eq (keys_of order.old.items) }
    ensures left { order.new.items ≡ without_place id order.old.items }
    ensures most { vec_len order.new ≤ vec_len order.old }
    ensures capacity { vec_capacity order.new ≡ vec_capacity order.old }
{
    if let Some(at) = entry_of(order, id) {
        let _entry = order.remove(at);
    }
}

/// Where the entry of an id is, if there is one: ids differ, so it is the only one.
fn entry_of(order: &[(u32, usize)], id: u32) -> Option<usize>
    requires apart { IsDistinct nat_eq (keys_of order.now) }
    ensures there { IfSome result (λ at. at < length order.now) }
    ensures out { IfSome result (λ at. remove order.now at ≡ without_place id order.now) }
    ensures none { IfNone result (order.now ≡ without_place id order.now) }
{
    for (at, entry) in order.iter().enumerate() {
        if entry.0 == id {
            return Some(at);
        }
    }
    None
}
