//! Laws on scattered placements, each the contract of a function that does nothing.

ghost use Rattle.dn_gather.specs.Terms.{EmptySlotGivesNothing, FirstHopsAreFirst, FirstScatterIsOne, PiecesAreCaught, PiecesComeInTurn, PiecesGiveTheirOwn, PiecesKeepBook, WholeIsPieceByPiece};

/// Under records in two parts, which differ in one unit alone, a name resolves to what it resolves to
/// under the one part or under the other.
pub fn pieces_give_their_own()
    ensures { PiecesGiveTheirOwn }
{}

/// A name whose way leads into a slot without a record resolves to nothing.
pub fn empty_slot_gives_nothing()
    ensures { EmptySlotGivesNothing }
{}

/// A scattered placement is admissible exactly where each of its pieces is so by itself.
pub fn whole_is_piece_by_piece()
    ensures { WholeIsPieceByPiece }
{}

/// The first hops of all pieces are the first admissible scattered placement, where no hops serve from a
/// lesser address or in a lesser unit.
pub fn first_hops_are_first()
    ensures { FirstHopsAreFirst }
{}

/// Pieces have one first scattered placement at most.
pub fn first_scatter_is_one()
    ensures { FirstScatterIsOne }
{}

/// Of pieces that may come into a book the first may, and the others once it is in.
pub fn pieces_come_in_turn()
    ensures { PiecesComeInTurn }
{}

/// A sound and faithful book stays so with pieces at an admissible scattered placement.
pub fn pieces_keep_book()
    ensures { PiecesKeepBook }
{}

/// What a fault at one of several grants leaves of each name is what it was before them, or is with all.
pub fn pieces_are_caught()
    ensures { PiecesAreCaught }
{}
