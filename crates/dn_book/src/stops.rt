//! The laws on tables while a grant comes or goes, each the contract of a function that does nothing.

ghost use Rattle.dn_book.specs.Terms.{BetweenIsOneOrOther, GrantLeadsOver, RevokeLeadsOver};

/// Under records between others each name resolves as under the one or as under the other.
pub fn between_is_one_or_other()
    ensures { BetweenIsOneOrOther }
{}

/// The events of a grant lead from the tables of a book to those with it, and after each of them the
/// tables hold records between those of the two books.
pub fn grant_leads_over()
    ensures { GrantLeadsOver }
{}

/// The events of taking a grant out lead from the tables of a book to those without it, and after each
/// of them the tables hold records between those of the two books.
pub fn revoke_leads_over()
    ensures { RevokeLeadsOver }
{}
