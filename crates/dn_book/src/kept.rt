//! The laws on a set of tables that keeps a book, each the contract of a function that does nothing.

ghost use Rattle.dn_book.specs.Terms.{KeptSlotsAreTheBooks};

/// A set of tables that keeps a book has the slots as the book leaves them.
pub fn kept_slots_are_the_books()
    ensures { KeptSlotsAreTheBooks }
{}
