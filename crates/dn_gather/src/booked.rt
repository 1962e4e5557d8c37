//! The first scattered placement beside the grants of a book.

ghost use Rattle.std.specs.Prelude.{◌≡◌, slice_get, None, IfOk, IfSome, IsTrue};
ghost use Rattle.dn_net.specs.Terms.{is_agent_at};
ghost use Rattle.dn_kind.specs.Terms.{are_rights, kinds_of};
ghost use Rattle.dn_book.specs.Terms.{IsKept, slots_of};
ghost use Rattle.dn_view.specs.Terms.{IsSystem};
ghost use Rattle.dn_gather.specs.Terms.{ArePieces, IsFirstScatter, NoneScattered};

use crate::piece::Piece;
use crate::scatter::Scatter;
use crate::search::first_scatter;
use crate::wanted::Wanted;
use dn_base::OutOfMemory;
use dn_book::book::Book;
use dn_kind::rights::Rights;
use dn_view::system::System;
use std::alloc::Global;

/// The first admissible scattered placement of pieces in the slots as a book leaves them. `None` exactly where none is
/// admissible. `Err` is want of memory.
pub(crate) fn first_in_book<'a>(
    alloc: Global,
    book: &'a Book,
    system: System<'a>,
    agent: u16,
    rights: Rights,
    pieces: &'a [Piece],
) -> Result<Option<Scatter>, OutOfMemory>
    requires system { IsSystem meaning system }
    requires kept { IsKept system.on.net.now
        (kinds_of meaning system.on.kinds.now) book.now.grants book.now.set }
    requires agent { IsTrue (is_agent_at (slice_get system.on.net.now agent)) }
    requires rights { IsTrue (are_rights rights) }
    requires pieces { ArePieces pieces.now }
    ensures first { IfOk result (λ found. IfSome found (λ s.
        IsFirstScatter system.entry.on.net.now (slots_of system.entry.on.net.now book.now.grants)
        agent rights pieces.now s)) }
    ensures none { IfOk result (λ found. found ≡ None →
        NoneScattered system.entry.on.net.now (slots_of system.entry.on.net.now book.now.grants)
        agent rights pieces.now) }
{
    let tables = book.tables();
    tables.facts();
    let wanted = Wanted {
        system,
        tables,
        agent,
        rights,
        pieces,
    };
    first_scatter(alloc, wanted)
}
