//! What a hop meets in a slot.

use dn_kind::unit_kind::Record;

/// What a hop meets in a slot of a unit.
#[derive(Clone, Copy, Debug, PartialEq, Eq)]
pub(crate) enum SlotState {
    /// The slot is free.
    Free,
    /// The slot has this record, with both rights, and no owner: another hop may have the same.
    Shared(Record),
    /// No hop may take the slot.
    Barred,
}
