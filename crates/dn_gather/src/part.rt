//! One of the pieces that are to stand in a unit.

ghost use Rattle.std.specs.Prelude.{◌^◌, ◌<◌, ◌≤◌, length};
ghost use Rattle.dn_gather.specs.Terms.{IsGround, IsPart};

use crate::ground::Ground;
use crate::piece::Piece;
use crate::stands::total;
use dn_place::exits::Exit;

/// A piece with the outputs that give it, and its address where pieces are one after another from one on.
#[derive(Clone, Copy)]
pub(crate) struct Part<'a> {
    pub(crate) piece: Piece,
    pub(crate) exits: &'a [Exit],
    pub(crate) a: u64,
}

/// One of the pieces, by its number, where the first is at an address of the agent.
pub(crate) fn part_at<'a>(ground: Ground<'a>, v: u64, i: usize) -> Part<'a>
    requires ground { IsGround meaning ground }
    requires few { v ≤ 2 ^ 57 }
    requires there { i < length ground.wanted.pieces.now }
    ensures { IsPart ground.entry v i result }
{
    let pieces = ground.wanted.pieces;
    let lists = ground.exits;
    Part {
        piece: pieces[i],
        exits: lists[i].as_slice(),
        a: v + total(&pieces[..i]),
    }
}
