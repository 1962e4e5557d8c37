//! Laws on the definitions, each the contract of a function that does nothing.

ghost use Rattle.dn_book.specs.Terms.{BookIsProper, EmptyBookIsFaithful, GrantKeepsBook, OwedNamesAreOwed, OwedNamesAreResolved, RevokeClearsSome, RevokeKeepsBook, TablesHoldRecords};

/// The empty book is sound and faithful.
pub fn empty_book_is_faithful()
    ensures { EmptyBookIsFaithful }
{}

/// A sound and faithful book stays so with one more admissible grant.
pub fn grant_keeps_book()
    ensures { GrantKeepsBook }
{}

/// A sound and faithful book stays so without a grant.
pub fn revoke_keeps_book()
    ensures { RevokeKeepsBook }
{}

/// Taking a live grant out of a sound book clears a slot at least.
pub fn revoke_clears_some()
    ensures { RevokeClearsSome }
{}

/// The slots as a sound book leaves them hold records that their units can hold: none where no grant
/// uses the slot, and one with both rights where no grant owns it.
pub fn book_is_proper()
    ensures { BookIsProper }
{}

/// The tables of a sound book hold exactly its records.
pub fn tables_hold_records()
    ensures { TablesHoldRecords }
{}

/// The list of names has exactly those that a book owes.
pub fn owed_names_are_owed()
    ensures { OwedNamesAreOwed }
{}

/// A faithful book owes to each agent what its addresses resolve to under the book's records.
pub fn owed_names_are_resolved()
    ensures { OwedNamesAreResolved }
{}
