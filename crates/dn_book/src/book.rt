//! The live grants, with the tables that hold their records.

ghost use Rattle.std.specs.Prelude.{◌≡◌, ◌≢◌, ◌+◌, ◌-◌, ◌≤◌, ◌↔◌, [], ◌∷◌, ◌++◌, Err, true, false, length, max, not, IfOk, OnOk, OnErr, is_ok, is_err};
ghost use Rattle.dn_net.specs.Terms.{Member};
ghost use Rattle.dn_base.specs.Terms.{IsCounted, is_device_fault};
ghost use Rattle.dn_kind.specs.Terms.{IsKinded, kinds_of};
ghost use Rattle.dn_tables.specs.Terms.{AreUnitsMade, IsOnDevice, fresh_set, tables_of_set, words_of};
ghost use Rattle.dn_book.specs.Terms.{AreAdded, IsCaught, IsChangedBook, IsFaithful, IsGrantFor, IsKept, MayChange, grant_events, has_id, is_full, is_revoke_fault, revoke_events, without_id};
ghost use Rattle.dn_base.specs.declared.device.DeviceOrMemory.TheVariants.{Device as device_fault, OutOfMemory as no_memory};
ghost use Rattle.dn_book.specs.declared.book.RevokeFault.TheVariants.{Device as revoke_fault, NoGrant as no_grant};
ghost use Rattle.dn_book.specs.declared.grant.Grant.{Grant as GrantPart};

use crate::clears::clear_grant;
use crate::grant::Grant;
use crate::grants::Grants;
use crate::puts::write_grant;
use crate::uses::{add_uses, end_uses};
use dn_base::OutOfMemory;
use dn_base::device::{DeviceOrMemory, Tables};
use dn_kind::kinded::KindedNet;
use dn_tables::set::{Made, TableSet};
use std::alloc::Global;
use std::marker::Model;
use thiserror::Error;

/// The most grants of a book.
const MAX_GRANTS: usize = 4096;

/// Why a grant is not revoked.
#[derive(Clone, Copy, Debug, PartialEq, Eq, Error)]
pub enum RevokeFault {
    /// No live grant has the id.
    #[error("NoGrant")]
    NoGrant,
    /// The device failed. It counts its faults.
    #[error("Device")]
    Device,
}

/// The live grants in order of granting, at most 4,096, and the tables that hold their records.
#[derive(Drop)]
pub struct Book {
    grants: Grants,
    tables: TableSet,
    cleared: bool,
    unfailed: bool,
}

impl Model for Book {
    ghost use Rattle.dn_book.specs.State.{BookState};

    ghost Value = { BookState };

    ghost view = { λ b. record {
      grants = b.grants.live;
      set = b.tables;
      cleared = b.cleared;
      unfailed = b.unfailed;
      spare = b.grants.spare;
    } };
}

impl Book {
    /// Makes the units of the net on a device, in the order of their nodes; no grant lives.
    ///
    /// # Errors
    ///
    /// As `TableSet::make`: `Device` only where the device's count of faults rose in this call, or
    /// stands at the last value of its counter; `OutOfMemory` for want of memory. Units were made on
    /// the device in order so far, and nothing else was done to it.
    pub fn make<D: Tables>(alloc: Global, on: KindedNet, device: &mut D) -> Made<Book>
        requires on { IsKinded meaning on }
        requires none { D.units device.old ≡ [] }
        ensures empty { IfOk result (λ book. book.grants ≡ []) }
        ensures unfailed { IfOk result (λ book. book.unfailed ≡ true) }
        ensures cleared { IfOk result (λ book. book.cleared ≡ false) }
        ensures kept { IfOk result (λ book.
            IsKept on.entry.net.now (kinds_of meaning on.entry.kinds.now) book.grants book.set) }
        ensures faithful { IfOk result (λ book. IsFaithful on.entry.net.now book.grants) }
        ensures on_device { IfOk result (λ book.
            IsOnDevice book.set (D.units device.new) (D.words device.new)) }
        ensures made { AreUnitsMade (tables_of_set (fresh_set (kinds_of meaning on.entry.kinds.now)
            on.entry.net.now)) (is_ok result) (is_device_fault result) (D.log device.old)
            (D.log device.new) (D.units device.new) (D.words device.old) (D.words device.new) }
        ensures counted { IsCounted (D.faults device.old)
            (D.faults device.new) (is_device_fault result) }
    {
        Ok(Book {
            grants: Grants::new(alloc),
            tables: TableSet::make(alloc, on, device)?,
            cleared: false,
            unfailed: true,
        })
    }

    /// The live grants, in the order in which they were granted.
    pub fn grants(&self) -> &Grants
        ensures { result.now.live ≡ self.now.grants }
    {
        &self.grants
    }

    /// The tables.
    pub fn tables(&self) -> &TableSet
        ensures { result.now ≡ self.now.set }
    {
        &self.tables
    }

    /// Whether no call of the device failed so far. A book for which one failed is only read.
    pub fn is_unfailed(&self) -> bool
        ensures { result ≡ self.now.unfailed }
    {
        self.unfailed
    }

    /// Whether a record was cleared since the last fence, or since the units were made.
    pub fn has_cleared(&self) -> bool
        ensures { result ≡ self.now.cleared }
    {
        self.cleared
    }

    /// Whether there is no room for a further grant.
    pub fn is_full(&self) -> bool
        ensures { result ≡ is_full self.now.grants }
    {
        self.grants.len() >= MAX_GRANTS
    }

    /// Whether a live grant has the id.
    pub fn has_id(&self, id: u32) -> bool
        ensures { result ≡ has_id id self.now.grants }
    {
        self.grants.has_id(id)
    }

    /// Makes room for so many more grants: that many of `commit` then take no memory.
    ///
    /// # Errors
    ///
    /// `OutOfMemory` for want of memory: nothing has changed.
    pub fn reserve(&mut self, more: u32) -> Result<(), OutOfMemory>
        requires few { length self.old.grants + more ≤ 4096 }
        ensures reserved { OnOk result (self.new
            ≡ record self.old { spare = max self.old.spare more }) }
        ensures refused { OnErr result (self.new ≡ self.old) }
    {
        self.grants.reserve(more as usize)
    }

    /// Commits a grant: a fence where a record was cleared since the last one, then the records of its
    /// free slots from memory's end to the agent's, and in each hop by ascending slot. All memory is
    /// taken before the first call of the device.
    ///
    /// # Errors
    ///
    /// `Device` only where the device's count of faults rose in this call, or stands at the last value
    /// of its counter: the writes before the one that failed are done, and under them each name resolves
    /// as before the grant or as with it. No grant comes in, and the book is only read from then on.
    /// `OutOfMemory` for want of memory, and only where no room is kept: nothing has changed.
    pub fn commit<D: Tables>(
        &mut self,
        alloc: Global,
        on: KindedNet,
        grant: Grant,
        device: &mut D,
    ) -> Result<(), DeviceOrMemory>
        requires ready { MayChange meaning on self.old (D.units device.old) (D.words device.old) }
        requires placed { IsGrantFor on.net.now self.old.grants grant }
        ensures granted { OnOk result (self.new.grants ≡ self.old.grants ++ grant ∷ []) }
        ensures changed { IsChangedBook on.entry.net.now (kinds_of meaning on.entry.kinds.now) false
            result (is_device_fault result) self.new (D.units device.new) (D.words device.new)
            (D.faults device.old) (D.faults device.new) }
        ensures refused { OnErr result (self.new.grants ≡ self.old.grants) }
        ensures memory { result ≡ Err no_memory → (self.new ≡ self.old) × (self.old.spare ≡ 0) }
        ensures spare { OnOk result (self.new.spare ≡ self.old.spare - 1) }
        ensures added { result ≢ Err no_memory → AreAdded (grant_events on.entry.net.now
            (kinds_of meaning on.entry.kinds.now) self.old.grants self.old.cleared grant)
            (is_err result) (D.log device.old) (D.log device.new) }
        ensures untouched { result ≡ Err no_memory → device.new ≡ device.old }
        ensures caught { result ≡ Err device_fault → IsCaught on.entry.net.now
            (kinds_of meaning on.entry.kinds.now) (words_of self.new.set) self.old.grants
            (self.old.grants ++ grant ∷ []) }
    {
        let id = grant.id;
        let Ok(()) = self.grants.push(grant) else {
            return Err(DeviceOrMemory::OutOfMemory);
        };
        let Some(live) = self.grants.get(id) else {
            unreachable!()
        };
        if write_grant(&mut self.tables, on, live, self.cleared, device).is_err() {
            self.grants.remove(id);
            self.unfailed = false;
            return Err(DeviceOrMemory::Device);
        }
        add_uses(&mut self.tables, on.net, live);
        self.cleared = false;
        Ok(())
    }

    /// Takes the grant of an id out: from the agent's end to memory's, and in each hop by ascending
    /// slot, the slots that no other live grant uses are cleared. It takes no memory.
    ///
    /// # Errors
    ///
    /// `NoGrant` exactly where no live grant has the id: nothing has changed. `Device` only where the
    /// device's count of faults rose in this call, or stands at the last value of its counter: the
    /// writes before the one that failed are done, and under them each name resolves as with the grant
    /// or as without it. The grants are as they were, and the book is not sound any more.
    pub fn revoke<D: Tables>(
        &mut self,
        on: KindedNet,
        id: u32,
        device: &mut D,
    ) -> Result<(), RevokeFault>
        requires ready { MayChange meaning on self.old (D.units device.old) (D.words device.old) }
        ensures revoked { OnOk result (self.new.grants ≡ without_id id self.old.grants) }
        ensures changed { IsChangedBook on.entry.net.now (kinds_of meaning on.entry.kinds.now) true
            result (is_revoke_fault result) self.new (D.units device.new) (D.words device.new)
            (D.faults device.old) (D.faults device.new) }
        ensures faithful { OnOk result (IsFaithful on.entry.net.now self.old.grants
            → IsFaithful on.entry.net.now self.new.grants) }
        ensures refused { OnErr result (self.new.grants ≡ self.old.grants) }
        ensures spare { self.new.spare ≡ self.old.spare }
        ensures unknown { result ≡ Err no_grant ↔ (has_id id self.old.grants ≡ false) }
        ensures unchanged { result ≡ Err no_grant → (self.new ≡ self.old) ×
            (device.new ≡ device.old) }
        ensures added { (g : GrantPart) → Member g self.old.grants → g.id ≡ id → AreAdded
            (revoke_events on.entry.net.now (kinds_of meaning on.entry.kinds.now) self.old.grants g)
            (is_err result) (D.log device.old) (D.log device.new) }
        ensures caught { result ≡ Err revoke_fault → IsCaught on.entry.net.now
            (kinds_of meaning on.entry.kinds.now) (words_of self.new.set) self.old.grants
            (without_id id self.old.grants) }
    {
        let Some(live) = self.grants.get(id) else {
            return Err(RevokeFault::NoGrant);
        };
        if clear_grant(&mut self.tables, on.net, live, device).is_err() {
            self.unfailed = false;
            return Err(RevokeFault::Device);
        }
        end_uses(&mut self.tables, on.net, live);
        self.cleared = true;
        self.grants.remove(id);
        Ok(())
    }
}
