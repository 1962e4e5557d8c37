//! A kind of three words, the words of a slot of which may stand in two pages.

ghost use Rattle.dn_kind.specs.Terms.{IsLawful};
ghost use Rattle.test_plans.specs.Wide.{wide};

use dn_kind::shape::Shape;
use dn_kind::unit_kind::{Record, UnitKind};
use dn_kinds::shipped::ShippedKind::Vectors;

/// The kind keeps the laws of kinds.
pub fn wide_is_lawful()
    ensures { IsLawful wide }
{}

/// Units as those of the kind `vectors`, with a word more before the two of each record. It is 0 in
/// the words of a record, and says nothing.
#[derive(Drop)]
pub struct Wide;

impl UnitKind for Wide {
    ghost meaning = { λ _. wide };

    fn unpack(&self, words: &[u64]) -> Option<Record> {
        Vectors.unpack(&words[1..])
    }

    fn pack(&self, shape: Shape, record: Record, out: &mut [u64; 4]) {
        let mut words = [0; 4];
        Vectors.pack(shape, record, &mut words);
        *out = [0, words[0], words[1], 0];
    }

    fn fits(&self, shape: Shape) -> bool {
        Vectors.fits(shape)
    }

    fn words(&self) -> u8 {
        3
    }

    fn name(&self) -> &str {
        "wide"
    }
}
