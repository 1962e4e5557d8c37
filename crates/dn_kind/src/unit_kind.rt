//! Records, and the kinds of units as trait objects.

ghost use Rattle.std.specs.Prelude.{◌≡◌, ◌-◌, ◌++◌, length, replicate, IsTrue};
ghost use Rattle.dn_kind.specs.Terms.{IsPackable, Meaning, is_plain_unit_shape, is_within};

use crate::rights::Rights;
use crate::shape::Shape;

/// What a slot of a unit holds.
#[derive(Clone, Copy, Debug, PartialEq, Eq)]
pub struct Record {
    /// The port to whose node it sends, by its place among the unit's ports.
    pub port: u8,
    /// The output page: an input goes to `page * 2^p` plus its offset in its slot, where `p` is the
    /// unit's page.
    pub page: u64,
    /// The accesses that it lets through.
    pub rights: Rights,
}

impl Record {
    /// Whether a unit of this shape can hold the record: the port is one of its, and the output
    /// page is below `2^(reach - page)`.
    pub fn is_within(self, shape: Shape) -> bool
        requires { IsTrue (is_plain_unit_shape shape) }
        ensures { result ≡ is_within shape self }
    {
        self.port < shape.ports && self.page < 1 << (shape.reach - shape.page)
    }
}

/// A kind of unit: which words spell which record.
pub trait UnitKind: Drop {
    /// What the kind means.
    ghost meaning: { Self → Meaning };

    /// The name by which a text calls the kind.
    fn name(&self) -> &str
        ensures { result.now ≡ (meaning self.now).name };

    /// How many 64-bit words a record has, 1 to 4.
    fn words(&self) -> u8
        ensures { result ≡ (meaning self.now).words };

    /// Whether a unit of this kind may have the shape.
    fn fits(&self, shape: Shape) -> bool
        ensures { result ≡ (meaning self.now).fits shape };

    /// Leaves the words of the record in the first places, and 0 in the others.
    fn pack(&self, shape: Shape, record: Record, out: &mut [u64; 4])
        requires { IsPackable (meaning self.now) shape «record» }
        ensures { out.new ≡ (meaning self.now).pack shape «record»
            ++ replicate (4 - (meaning self.now).words) 0 };

    /// The record that the words spell. `None` exactly where they spell none.
    fn unpack(&self, words: &[u64]) -> Option<Record>
        requires { length words.now ≡ (meaning self.now).words }
        ensures { result ≡ (meaning self.now).unpack words.now };
}
