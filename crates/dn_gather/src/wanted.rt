//! What is looked for.

use crate::piece::Piece;
use dn_kind::rights::Rights;
use dn_tables::set::TableSet;
use dn_view::system::System;

/// Scattered placements of pieces for an agent, beside what tables hold.
#[derive(Clone, Copy)]
pub(crate) struct Wanted<'a> {
    pub(crate) system: System<'a>,
    pub(crate) tables: &'a TableSet,
    pub(crate) agent: u16,
    pub(crate) rights: Rights,
    pub(crate) pieces: &'a [Piece],
}
