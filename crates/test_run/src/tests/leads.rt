//! Where the words that events leave lead the inputs of a board.

use crate::tests::boards::Board;
use dn_base::device::TableEvent;
use dn_kind::rights::Access;
use std::alloc::{AllocError, Global};
use std::process::Abort;

/// What events leave in a word: the last value that is written there, and else 0.
fn word_in(events: &[TableEvent], unit: u16, word: u32) -> u64 {
    let mut last = 0;
    for event in events {
        if let TableEvent::Write {
            unit: other,
            word: place,
            value,
        } = *event
        {
            if other == unit && place == word {
                last = value;
            }
        }
    }
    last
}

/// Whether a record with this gate word lets an access through.
fn is_open(gate: u64, access: Access) -> bool {
    let shut = match access {
        Access::Read => gate / 16,
        Access::Write => gate / 32,
    };
    gate % 2 == 1 && shut % 2 == 0
}

/// Where the words of two units in a row lead a page: the slot of the near one may send its pages to the first slots of
/// the far one alone.
fn page_of(near: u64, far: u64, access: Access) -> Option<u64> {
    let passed = is_open(near, access) && near / 256 == 0 && is_open(far, access);
    passed.then_some(far / 256)
}

/// Where the words that events leave lead a page of the card behind `bridge` and `smmu`, of which four are a slot of
/// `bridge`.
fn page_end(events: &[TableEvent], page: u16, access: Access) -> Option<u64> {
    let page = u32::from(page);
    let near = word_in(events, 2, page / 4);
    page_of(near, word_in(events, 4, page % 4), access)
}

/// Where they lead one of the first pages of the card behind `smpt` and `iommu`, by the bus to the memory.
fn bus_end(events: &[TableEvent], page: u16, access: Access) -> Option<u64> {
    let far = word_in(events, 7, u32::from(page));
    let page = page_of(word_in(events, 5, 0), far, access)?;
    page.checked_sub(0x80000)
}

/// Where they lead a page of the engine behind `smmu`, by the bus to the memory.
fn engine_end(events: &[TableEvent], page: u16, access: Access) -> Option<u64> {
    let word = word_in(events, 5, u32::from(page));
    let page = is_open(word, access).then_some(word / 256)?;
    page.checked_sub(0x80000)
}

/// Where they lead a line of the network card behind a unit.
fn line_end(events: &[TableEvent], unit: u16, line: u16, access: Access) -> Option<u64> {
    let line = u32::from(line);
    let vector = word_in(events, unit, 2 * line);
    is_open(word_in(events, unit, 2 * line + 1), access).then_some(vector)
}

/// Where the words that events leave lead a page of a card or a line of the network card, for an access: to a page of
/// the memory or to a vector, or nowhere. The lines of the board with both cards are the inputs from 16 on.
pub(crate) fn end_of(
    board: Board,
    events: &[TableEvent],
    input: u16,
    access: Access,
) -> Option<u64> {
    match board {
        Board::Card => page_end(events, input, access),
        Board::Network => line_end(events, 2, input, access),
        Board::Both => match input.checked_sub(16) {
            Some(line) => line_end(events, 7, line, access),
            None => page_end(events, input, access),
        },
        Board::Phi => bus_end(events, input, access),
        Board::Engine => engine_end(events, input, access),
    }
}

/// How many inputs of each board are looked at: all lines of its network card, and of another card its first pages.
pub(crate) const INPUTS: u16 = 20;

/// Where an input leads for an access, or that it leads nowhere.
fn push_end(text: &mut String, end: Option<u64>) -> Result<(), AllocError> {
    match end {
        Some(place) => write!(text, " 0x{place:x}"),
        None => write!(text, " none"),
    }
}

/// Where the inputs lead, one after the other, for reading and for writing, but for those that lead nowhere for both.
fn leads_of(alloc: Global, board: Board, events: &[TableEvent]) -> Result<String, AllocError> {
    let mut text = String::new(alloc);
    for input in 0..INPUTS {
        let read = end_of(board, events, input, Access::Read);
        let write = end_of(board, events, input, Access::Write);
        if read.is_some() || write.is_some() {
            write!(text, "{input}")?;
            push_end(&mut text, read)?;
            push_end(&mut text, write)?;
            write!(text, ";")?;
        }
    }
    Ok(text)
}

/// Compares where the words that events leave lead the inputs.
pub(crate) fn compare_leads(
    rt: &impl Abort,
    alloc: Global,
    board: Board,
    events: &[TableEvent],
    wanted: &str,
) {
    let leads = leads_of(alloc, board, events).expect(rt, "memory");
    assert!(rt; leads.as_str() == wanted, "{events:?}");
}
