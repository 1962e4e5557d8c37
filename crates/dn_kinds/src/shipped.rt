//! The shipped kinds.

ghost use Rattle.std.specs.Prelude.{◌≡◌, ◌+◌, ◌-◌, ◌*◌, ◌<◌, ◌≤◌, ◌++◌};
ghost use Rattle.dn_kind.specs.Terms.{IsLawful};
ghost use Rattle.dn_kinds.specs.Terms.{shipped};

use crate::layout::{bits, gate_bits, gated, has_ports, port_bits};
use dn_kind::shape::Shape;
use dn_kind::unit_kind::{Record, UnitKind};

/// A kind of units that the program ships.
///
/// The last word of a record is its gate word. In it bit 0 is the gate, R denies reading, and W
/// denies writing. An input goes to `output page * 2^page` of the port, plus its offset in its slot.
/// Words with a clear gate, with a bit that must be zero, or with both R and W are no record.
#[derive(Clone, Copy, Debug, PartialEq, Eq)]
pub enum ShippedKind {
    /// The kind `pages`: a page table of one port, with one word for each record.
    ///
    /// ```text
    ///  63                                  8 7 6   5  4  3   1 0
    /// +-------------------------------------+---+---+---+-----+-+
    /// |             output page             | 0 | W | R |  0  |1|
    /// +-------------------------------------+---+---+---+-----+-+
    /// ```
    Pages,
    /// The kind `remap`: a page table of 1 to 8 ports, with one word for each record.
    ///
    /// ```text
    ///  63                                  8 7 6   5   4   3    1   0
    /// +-------------------------------------+-----+---+---+------+---+
    /// |             output page             |  0  | W | R | port | 1 |
    /// +-------------------------------------+-----+---+---+------+---+
    /// ```
    Remap,
    /// The kind `vectors`: a table of 1 to 8 ports whose slots are single addresses, as interrupt
    /// vectors are, with two words for each record.
    ///
    /// ```text
    ///          63                                                 0
    ///         +----------------------------------------------------+
    /// word 0  |                   output address                   |
    ///         +-----------------------------+---+---+------+-------+
    /// word 1  |              0              | W | R | port |   1   |
    ///         +-----------------------------+---+---+------+-------+
    ///          63                          6  5   4  3    1    0
    /// ```
    Vectors,
    /// The kind `radix`: a page table of 1 to 8 ports whose pages have 4,096 addresses, with one
    /// word for each record. The word has the output address at its own place, as the words of page
    /// tables that are trees have it.
    ///
    /// ```text
    ///  63     56 55                       12 11     6   5   4   3    1   0
    /// +---------+---------------------------+--------+---+---+------+---+
    /// |    0    |        output page        |   0    | W | R | port | 1 |
    /// +---------+---------------------------+--------+---+---+------+---+
    /// ```
    Radix,
}

impl UnitKind for ShippedKind {
    ghost meaning = { λ kind. shipped kind };

    fn name(&self) -> &str {
        match self {
            ShippedKind::Pages => "pages",
            ShippedKind::Remap => "remap",
            ShippedKind::Vectors => "vectors",
            ShippedKind::Radix => "radix",
        }
    }

    fn words(&self) -> u8 {
        match self {
            ShippedKind::Pages | ShippedKind::Remap | ShippedKind::Radix => 1,
            ShippedKind::Vectors => 2,
        }
    }

    fn fits(&self, shape: Shape) -> bool {
        match self {
            ShippedKind::Pages => shape.ports == 1,
            ShippedKind::Remap => has_ports(shape),
            ShippedKind::Vectors => has_ports(shape) && shape.page == 0,
            ShippedKind::Radix => has_ports(shape) && shape.page == 12,
        }
    }

    fn pack(&self, _shape: Shape, record: Record, out: &mut [u64; 4]) {
        let gate = gate_bits(record);
        *out = match self {
            ShippedKind::Pages | ShippedKind::Remap => [gate + (record.page << 8), 0, 0, 0],
            ShippedKind::Vectors => [record.page, gate, 0, 0],
            ShippedKind::Radix => [gate + (record.page << 12), 0, 0, 0],
        };
    }

    fn unpack(&self, words: &[u64]) -> Option<Record> {
        let word = words[0];
        match self {
            ShippedKind::Pages => {
                let zeros = port_bits(word) == 0 && bits(word, 6, 2) == 0;
                gated(zeros, word, bits(word, 8, 56))
            }
            ShippedKind::Remap => gated(bits(word, 6, 2) == 0, word, bits(word, 8, 56)),
            ShippedKind::Vectors => gated(bits(words[1], 6, 58) == 0, words[1], word),
            ShippedKind::Radix => {
                let zeros = bits(word, 6, 6) == 0 && bits(word, 56, 8) == 0;
                gated(zeros, word, bits(word, 12, 44))
            }
        }
    }
}

/// Each shipped kind keeps the laws of kinds.
pub fn shipped_are_lawful()
    ensures { (kind : ShippedKind) → IsLawful (shipped kind) }
{}
