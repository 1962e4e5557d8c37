//! Tests of runs with grants, routes, revokes and buffers in pieces, of which each call of the device fails in turn: by
//! the words that are left each page and each line leads for each access where it did before the command or where it
//! does after it.
//!
//! A script has a line for each turn: its command, the calls of the device that it makes, and its reply. Bit 4 of a word
//! shuts a record out of reading, and bit 5 out of writing.

use crate::tests::boards::Board;
use crate::tests::leads::compare_leads;
use crate::tests::rows::front;
use crate::tests::turns::{fail_and_compare, fail_each};

/// Three buffers for the card.
const BUFFERS: &str = "| make 2 4; make 4 4; |
grant a card dram 0x4000 0x1000; | write 4 0 0x401; write 2 0 0x1; | a at 0x0
grant b card dram 0x9000 0x2000; | write 4 1 0x901; write 4 2 0xa01; | b at 0x1000
revoke a; | write 4 0 0x0; | a revoked
grant c card dram 0x2000 0x1000; | fence; write 4 0 0x201; | c at 0x0
revoke b; | write 4 1 0x0; write 4 2 0x0; | b revoked
revoke c; | write 2 0 0x0; write 4 0 0x0; | c revoked
";

#[test]
fn stops_in_grants_and_revokes(rt: HostRuntime) {
    // Both buffers are granted.
    let leads = "0 0x4 0x4;1 0x9 0x9;2 0xa 0xa;";
    fail_and_compare(&rt, rt.alloc(), Board::Card, BUFFERS, 6, leads);
}

/// Two lines of the network card, one after the other.
const LINES: &str = "| make 2 8; |
route r1 nic 2 cpu0; | write 2 4 0x20; write 2 5 0x1; | r1 vector 0x20
lookup nic 2; | | nic@0x2: cpu0@0x20
revoke r1; | write 2 5 0x0; write 2 4 0x0; | r1 revoked
route r2 nic 3 cpu0; | fence; write 2 6 0x20; write 2 7 0x1; | r2 vector 0x20
";

#[test]
fn stops_in_routes(rt: HostRuntime) {
    // The first line is routed.
    fail_and_compare(&rt, rt.alloc(), Board::Network, LINES, 3, "2 0x20 0x20;");
}

/// Buffers of three rights for the card, and a line of the network card.
const RIGHTS: &str = "| make 2 4; make 4 4; make 7 8; |
grant rx card dram 0x4000 0x1000 for write; | write 4 0 0x411; write 2 0 0x1; | rx at 0x0
route r1 nic 2 cpu0; | write 7 4 0x20; write 7 5 0x1; | r1 vector 0x20
grant tx card dram 0x9000 0x2000 for read; | write 4 1 0x921; write 4 2 0xa21; | tx at 0x1000
revoke rx; | write 4 0 0x0; | rx revoked
revoke r1; | write 7 5 0x0; write 7 4 0x0; | r1 revoked
grant all card dram 0x2000 0x1000; | fence; write 4 0 0x201; | all at 0x0
";

#[test]
fn stops_with_rights_of_both_accesses(rt: HostRuntime) {
    // Both buffers are granted, and the line is routed.
    let leads = "0 none 0x4;1 0x9 none;2 0xa none;18 0x20 0x20;";
    fail_and_compare(&rt, rt.alloc(), Board::Both, RIGHTS, 9, leads);
}

/// A buffer of two pages for the card `phi`, granted and taken back.
const TWO_PAGES: &str = "| make 5 4; make 7 256; |
grant g1 phi dram 0x4000 0x2000; | write 7 0 0x8000401; write 7 1 0x8000501; write 5 0 0x1; | g1 at 0x0
revoke g1; | write 5 0 0x0; write 7 0 0x0; write 7 1 0x0; | g1 revoked
";

#[test]
fn sees_the_buffer_or_nothing_at_each_call(rt: HostRuntime) {
    let alloc = rt.alloc();
    let whole = fail_each(&rt, alloc, Board::Phi, TWO_PAGES);
    // Only where the first write of the revoke fails are the words of the whole grant left: the card sees both pages.
    for call in 2..9 {
        let log = front(whole.device.log(), call);
        let leads = if call == 5 {
            "0 0x4 0x4;1 0x5 0x5;"
        } else {
            ""
        };
        compare_leads(&rt, alloc, Board::Phi, log, leads);
    }
}

/// Buffers of three rights for the engine, each in two pieces. One fence comes before the first piece, and none before the
/// second.
const PIECES: &str = "| make 5 16; |
gather dma b1 dram 0x4000 0x1000 and b2 dram 0x9000 0x2000; | write 5 0 0x8000401; write 5 1 0x8000901; write 5 2 0x8000a01; | gather at 0x0 pieces 2
revoke b1; | write 5 0 0x0; | b1 revoked
gather dma rx0 dram 0x20000 0x1000 and rx1 dram 0x30000 0x1000 for write; | fence; write 5 3 0x8002011; write 5 4 0x8003011; | gather at 0x3000 pieces 2
revoke b2; | write 5 1 0x0; write 5 2 0x0; | b2 revoked
gather dma tx0 dram 0x7000 0x2000 and tx1 dram 0x2000 0x1000 for read; | fence; write 5 0 0x8000721; write 5 1 0x8000821; write 5 2 0x8000221; | gather at 0x0 pieces 2
";

#[test]
fn stops_in_gathers(rt: HostRuntime) {
    // At the end the pieces for reading lie below those for writing.
    let leads = "0 0x7 none;1 0x8 none;2 0x2 none;3 none 0x20;4 none 0x30;";
    fail_and_compare(&rt, rt.alloc(), Board::Engine, PIECES, 14, leads);
}

/// Pieces that are refused: of half a page, with one id twice, and past the end of the memory.
const REFUSED_PIECES: &str = "| make 5 16; |
gather dma p dram 0x4000 0x800 and q dram 0x9000 0x1000; | | gather refused: NoPlacement
gather dma p dram 0x0 0x1000 and p dram 0x1000 0x1000; | | gather refused: IdUsed 1
gather dma p dram 0x0 0x1000 and q dram 0x3ffff000 0x2000; | | gather refused: NotAccepted 1 0x40000000
";

#[test]
fn makes_no_call_for_refused_pieces(rt: HostRuntime) {
    fail_and_compare(&rt, rt.alloc(), Board::Engine, REFUSED_PIECES, 1, "");
}
