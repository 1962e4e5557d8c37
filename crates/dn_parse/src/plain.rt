//! Commands whose parts have their values as they stand.

ghost use Rattle.std.specs.Prelude.{◌≡◌, map};
ghost use Rattle.std.specs.List.{list_all};
ghost use Rattle.dn_parse.specs.Terms.{expr_view, index_view, is_constant, is_constant_index, is_constant_name, is_plain_order, is_plain_piece, name_view, order_view, piece_view};

use crate::syntax::{Expr, Order, PartExpr, PieceExpr};

/// Whether an expression is a number.
fn is_constant(expr: &Expr) -> bool
    ensures { result ≡ is_constant (expr_view expr.now) }
{
    match expr {
        Expr::Number(_) => true,
        _ => false,
    }
}

/// Whether an index is left out, or is a number.
fn is_constant_index(index: &Option<Box<Expr>>) -> bool
    ensures { result ≡ is_constant_index (index_view index.now) }
{
    match index {
        None => true,
        Some(expr) => is_constant(expr),
    }
}

/// Whether each index of a name is a number.
fn is_constant_name(name: &[PartExpr]) -> bool
    ensures { result ≡ is_constant_name (name_view name.now) }
{
    for part in name {
        if !is_constant_index(&part.index) {
            return false;
        }
    }
    true
}

/// Whether each expression of a piece is a number, indices of its name among them.
fn is_plain_piece(piece: &PieceExpr) -> bool
    ensures { result ≡ is_plain_piece (piece_view piece.now) }
{
    is_constant_name(piece.node.as_slice()) && is_constant(&piece.base) && is_constant(&piece.size)
}

/// Whether each expression of the pieces is a number.
fn are_plain_pieces(pieces: &[PieceExpr]) -> bool
    ensures { result ≡ list_all is_plain_piece (map piece_view pieces.now) }
{
    for piece in pieces {
        if !is_plain_piece(piece) {
            return false;
        }
    }
    true
}

/// Whether each expression of a command is a number, indices of names among them.
pub fn is_plain(order: &Order) -> bool
    ensures { result ≡ is_plain_order (order_view order.now) }
{
    match order {
        Order::Resolve(name, expr, _) => is_constant_name(name.as_slice()) && is_constant(expr),
        Order::Lookup(name, expr, _) => is_constant_name(name.as_slice()) && is_constant(expr),
        Order::View(name, _) => is_constant_name(name.as_slice()),
        Order::Grant(asked) => {
            is_constant_name(asked.agent.as_slice())
                && is_constant_name(asked.node.as_slice())
                && is_constant(&asked.base)
                && is_constant(&asked.size)
        }
        Order::Route(asked) => {
            is_constant_name(asked.agent.as_slice())
                && is_constant(&asked.line)
                && is_constant_name(asked.node.as_slice())
        }
        Order::Revoke(_) => true,
        Order::Dump => true,
        Order::Split => true,
        Order::Absorb(name) => is_constant_name(name.as_slice()),
        Order::Radix { node, pool } => is_constant_name(node.as_slice()) && is_constant(pool),
        Order::Gather { agent, pieces, .. } => {
            is_constant_name(agent.as_slice()) && are_plain_pieces(pieces.as_slice())
        }
    }
}
