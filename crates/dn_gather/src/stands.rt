//! The inputs at which pieces can stand, before any output is tried.

ghost use Rattle.std.specs.Prelude.{◌≡◌, ℕ, ◌+◌, ◌-◌, ◌/◌, ◌%◌, ◌^◌, ◌<◌, ◌≤◌, false, IfOk, IfSome, IfNone, IsTrue, None, List, length};
ghost use Rattle.std.specs.List.{All};
ghost use Rattle.dn_gather.specs.Terms.{AreAlone, AreAt, AreExitsOn, AreFew, AreFreeIn, AreRanked, CanStandOn, IsGround, IsPartedFrom, IsSized, NoneAgree, StandsOn, are_parted_at, inputs, total};

use crate::ground::Ground;
use crate::outputs::{agreeing_from, agrees_at};
use crate::part::part_at;
use crate::piece::Piece;
use crate::used::are_free;
use crate::windows::{input_at, inputs};
use dn_base::OutOfMemory;
use dn_place::exits::Exit;
use dn_place::slots::power;
use std::alloc::Global;

/// The inputs of all pieces, one after another from an address of the agent on, where each stands at its input and no two
/// take the same slot. `None` where no inputs are such that each piece can stand there. No output is tried.
pub(crate) fn stands(alloc: Global, ground: Ground, v: u64) -> Result<Option<Vec<u64>>, OutOfMemory>
    requires ground { IsGround meaning ground }
    requires few { v ≤ 2 ^ 57 }
    ensures some { IfOk result (λ found. IfSome found (λ xs. AreAt (StandsOn ground.entry)
        ground.entry.translator.now.page v ground.entry.wanted.pieces.now xs.items)) }
    ensures none { IfOk result (λ found. found ≡ None → (xs : List ℕ) →
        AreAt (CanStandOn ground.entry) ground.entry.translator.now.page v
        ground.entry.wanted.pieces.now xs → ⊥) }
{
    let pieces = ground.wanted.pieces;
    let page = ground.translator.page;
    let mut xs = Vec::new(alloc);
    let mut i = pieces.len();
    'pieces: while i > 0 {
        i -= 1;
        let part = part_at(ground, v, i);
        let Some(x) = stand_at(ground, part.piece, part.exits, part.a) else {
            return Ok(None);
        };
        if !is_parted(page, x, part.piece.size, &pieces[i + 1..], &xs) {
            return Ok(None);
        }
        xs.insert(0, x)?;
    }
    Ok(Some(xs))
}

/// How many addresses pieces have.
pub(crate) fn total(pieces: &[Piece]) -> u64
    requires each { All IsSized pieces.now }
    requires most { length pieces.now ≤ 8 }
    ensures sum { result ≡ total pieces.now }
    ensures few { result ≤ 2 ^ 59 }
{
    let mut sum = 0;
    for piece in pieces {
        sum += piece.size;
    }
    sum
}

/// The input at which a piece stands at an address of the agent, where it can stand there.
fn stand_at(ground: Ground, piece: Piece, exits: &[Exit], a: u64) -> Option<u64>
    requires ground { IsGround meaning ground }
    requires sized { IsSized piece }
    requires exits { AreExitsOn ground piece exits.now }
    requires few { a ≤ 2 ^ 60 }
    ensures some { IfSome result (λ x. StandsOn ground.entry piece a x) }
    ensures none { IfNone result ((x : ℕ) → CanStandOn ground.entry piece a x → ⊥) }
{
    let x = input_at(ground, a, piece.size)?;
    let end = inputs(ground.translator);
    let past = x + piece.size;
    if past > end {
        return None;
    }
    if !is_open(ground, x, piece.size) {
        return None;
    }
    if !has_agreeing(exits, ground.translator.page, x) {
        return None;
    }
    Some(x)
}

/// Whether the slots of so many inputs from one on are free, and none of these is known to be entered from two addresses of
/// agents.
fn is_open(ground: Ground, x: u64, size: u64) -> bool
    requires ground { IsGround meaning ground }
    requires some { 1 ≤ size }
    requires within { x + size ≤ inputs ground.translator.now }
    ensures yes { IsTrue result → AreFreeIn ground.entry.wanted.tables.now ground.entry.unit
        (x / 2 ^ ground.entry.translator.now.page)
        ((x + size - 1) / 2 ^ ground.entry.translator.now.page) }
    ensures no { result ≡ false → AreFreeIn ground.entry.wanted.tables.now ground.entry.unit
        (x / 2 ^ ground.entry.translator.now.page)
        ((x + size - 1) / 2 ^ ground.entry.translator.now.page) →
        AreAlone ground.entry.wanted.system.on.net.now ground.entry.unit x size → ⊥ }
{
    let page = power(ground.translator.page);
    if !are_free(ground, x / page, (x + size - 1) / page) {
        return false;
    }
    ground
        .wanted
        .system
        .flats
        .crowd_among(ground.unit, x, size)
        .is_none()
}

/// Whether an output agrees with an input modulo the page.
fn has_agreeing(exits: &[Exit], page: u8, x: u64) -> bool
    requires page { page ≤ 40 }
    requires ranked { AreRanked page exits.now }
    ensures { result ≡ false → NoneAgree page (x % 2 ^ page) exits.now }
{
    let place = x % power(page);
    agrees_at(exits, agreeing_from(exits, page, place), page, place)
}

/// Whether a piece of so many addresses at an input takes no slot in common with other pieces at theirs.
fn is_parted(page: u8, x: u64, size: u64, others: &[Piece], inputs: &[u64]) -> bool
    requires page { page ≤ 40 }
    requires some { 1 ≤ size }
    requires few { x + size ≤ 2 ^ 60 }
    requires others { AreFew others.now inputs.now }
    ensures yes { IsTrue result → IsPartedFrom page x size others.now inputs.now }
    ensures no { result ≡ false → IsPartedFrom page x size others.now inputs.now → ⊥ }
{
    for k in 0..inputs.len() {
        if !are_parted(page, x, size, inputs[k], others[k].size) {
            return false;
        }
    }
    true
}

/// Whether two pieces of so many addresses at these inputs take no slot in common.
fn are_parted(page: u8, x: u64, size: u64, z: u64, other: u64) -> bool
    requires page { page ≤ 40 }
    requires some { 1 ≤ size }
    requires more { 1 ≤ other }
    requires few { x + size ≤ 2 ^ 60 }
    requires fewer { z + other ≤ 2 ^ 60 }
    ensures { result ≡ are_parted_at page x size z other }
{
    let page = power(page);
    (x + size - 1) / page < z / page || (z + other - 1) / page < x / page
}
