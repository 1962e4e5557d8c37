//! Who uses each slot of a unit.

ghost use Rattle.std.specs.Prelude.{◌≡◌, ◌<◌, ◌^◌, length, replicate, slice_index_or, slice_set, IfOk, IsSome};
ghost use Rattle.dn_tables.specs.Terms.{no_use, use_by};

use crate::table::SlotUse;
use dn_base::filled::Filled;
use std::alloc::{AllocError, Global};
use std::marker::Model;

/// Who uses a slot. A live grant that owns a slot is the only one that uses it.
#[derive(Clone, Copy)]
enum Users {
    /// So many live grants, none of which owns it.
    Sharing(u16),
    /// The live grant that owns it.
    Owner(u32),
}

// So a table costs 8 bytes a slot for them.
const _: () = prove!(size_of::<Users>() == 8);

/// Who uses each slot of a unit. Contracts see the use of each.
#[derive(Drop)]
pub struct Uses {
    users: Filled<Users>,
}

impl Model for Uses {
    ghost use Rattle.std.specs.Prelude.{List, map};
    ghost use Rattle.dn_tables.specs.declared.table.SlotUse.{SlotUse};
    ghost use Rattle.dn_tables.specs.Uses.{use_by};

    ghost Value = { List SlotUse };

    ghost view = { λ u. map use_by u.users };
}

impl Uses {
    /// So many slots that no live grant uses.
    pub(crate) fn unused(alloc: Global, slots: usize) -> Result<Uses, AllocError>
        ensures { IfOk result (λ uses. uses ≡ replicate slots no_use) }
    {
        let users = Filled::new(alloc, Users::Sharing(0), slots)?;
        Ok(Uses { users })
    }

    /// Who uses a slot.
    pub(crate) fn get(&self, slot: usize) -> SlotUse
        requires { slot < length self.now }
        ensures value { result ≡ slice_index_or self.now slot result }
        ensures few { result.uses < 2 ^ 16 }
        ensures alone { IsSome result.owner → result.uses ≡ 1 }
    {
        use_by(self.users.get(slot))
    }

    /// Sets who uses a slot.
    pub(crate) fn set(&mut self, slot: usize, slot_use: SlotUse)
        requires there { slot < length self.old }
        requires few { slot_use.uses < 2 ^ 16 }
        requires alone { IsSome slot_use.owner → slot_use.uses ≡ 1 }
        ensures { self.new ≡ slice_set self.old slot slot_use }
    {
        self.users.set(slot, users_of(slot_use));
    }
}

/// The use of a slot with these users.
fn use_by(users: Users) -> SlotUse
    ensures value { result ≡ use_by users }
    ensures few { result.uses < 2 ^ 16 }
    ensures alone { IsSome result.owner → result.uses ≡ 1 }
{
    match users {
        Users::Sharing(uses) => SlotUse {
            uses: u32::from(uses),
            owner: None,
        },
        Users::Owner(id) => SlotUse {
            uses: 1,
            owner: Some(id),
        },
    }
}

/// The users of a slot with this use.
fn users_of(slot_use: SlotUse) -> Users
    requires few { slot_use.uses < 2 ^ 16 }
    requires alone { IsSome slot_use.owner → slot_use.uses ≡ 1 }
    ensures { use_by result ≡ slot_use }
{
    match slot_use.owner {
        Some(id) => Users::Owner(id),
        None => Users::Sharing(slot_use.uses as u16),
    }
}
