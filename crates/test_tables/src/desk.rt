//! What is granted over: a board, and a book of grants on it.

use dn_base::memory_tables::MemTables;
use dn_book::book::Book;
use dn_flat::flats::Flats;
use dn_net::net::Net;
use dn_view::system::System;

/// A net, and what each node of it sees.
#[derive(Drop)]
pub struct Board {
    pub net: Net,
    pub flats: Flats,
}

/// A book of grants on a system, and the device that has its tables.
#[derive(Drop)]
pub struct Desk<'a> {
    pub system: System<'a>,
    pub book: Book,
    pub device: MemTables,
}
