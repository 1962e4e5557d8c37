//! The boards whose scripts are run, as texts.

use std::alloc::Global;
use std::process::Abort;

/// A board.
#[derive(Clone, Copy)]
pub(crate) enum Board {
    /// A card behind `bridge`, node 2, and `smmu`, node 4.
    Card,
    /// A network card whose interrupts go through `irt`, node 2.
    Network,
    /// The card, and then the network card behind `irt`, node 7.
    Both,
    /// A bus, and an engine `dma`, node 4, behind `smmu`, node 5, which leads to the bus.
    Engine,
    /// The bus, and a card `phi`, node 4, behind `smpt`, node 5, and `iommu`, node 7, which leads to the bus.
    Phi,
}

/// A card behind two units in a row.
const CARD: &str = "dram is accept [0x0-0xffff];
agent card is map [0x0-0xffff to bridge at 0x0];
unit bridge kind remap page 14 slots 4 reach 16 to host;
host is map [0x0-0x3fff to smmu at 0x0];
unit smmu kind pages page 12 slots 4 reach 16 to dram;
";

/// A network card with four lines.
const NETWORK: &str = "vectors cpu0 is accept [0x20-0x2f];
agent nic is map [0x0-0x3 to irt at 0x0];
unit irt kind vectors page 0 slots 4 reach 8 to cpu0;
";

/// A memory, node 0, and a serial port, node 1, on a bus, node 2, with a core, node 3.
const BUS: &str = "dram is accept [0x0-0x3fffffff];
uart is accept [0x0-0xfff];
bus is map [0x10000000-0x10000fff to uart at 0x0, 0x80000000-0xbfffffff to dram at 0x0];
agent core0 is over bus;
";

/// An engine behind one unit.
const ENGINE: &str = "agent dma is map [0x0-0xffff to smmu at 0x0];
unit smmu kind pages page 12 slots 16 reach 32 to bus;
";

/// A card behind two units in a row.
const PHI: &str = "agent phi is map [0x0-0x3fffff to smpt at 0x0];
unit smpt kind remap page 20 slots 4 reach 24 to hostin;
hostin is map [0x0-0xfffff to iommu at 0x0];
unit iommu kind pages page 12 slots 256 reach 32 to bus;
";

/// The net of a board, in two parts.
fn net_of(board: Board) -> (&'static str, &'static str) {
    match board {
        Board::Card => (CARD, ""),
        Board::Network => (NETWORK, ""),
        Board::Both => (CARD, NETWORK),
        Board::Engine => (BUS, ENGINE),
        Board::Phi => (BUS, PHI),
    }
}

/// The text of a board with commands.
pub(crate) fn text_of(rt: &impl Abort, alloc: Global, board: Board, commands: &str) -> String {
    let (first, rest) = net_of(board);
    format!(in alloc; "{first}{rest}begin;\n{commands}").expect(rt, "memory")
}
