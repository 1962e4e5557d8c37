//! The shape of a unit.

ghost use Rattle.std.specs.Prelude.{◌≡◌, ◌≤◌, length};
ghost use Rattle.dn_kind.specs.Terms.{is_plain_unit_shape, unit_shape};

use dn_net::node::{Unit, is_plain_shape};
pub use dn_net::node::{MAX_PAGE, MAX_PORTS, MAX_REACH, MAX_SLOTS};

/// The shape of a unit: what its kind may ask of it.
#[derive(Clone, Copy, Debug, PartialEq, Eq)]
pub struct Shape {
    /// The exponent of a slot's number of addresses.
    pub page: u8,
    /// How many slots it has.
    pub slots: u32,
    /// Outputs are below `2^reach`.
    pub reach: u8,
    /// How many ports it has.
    pub ports: u8,
}

impl Shape {
    /// Whether a unit may have this shape, whatever its kind: a page of at most [`MAX_PAGE`], 1 to
    /// [`MAX_SLOTS`] slots, a reach from the page to [`MAX_REACH`], and 1 to [`MAX_PORTS`] ports.
    pub fn is_plain(self) -> bool
        ensures { result ≡ is_plain_unit_shape self }
    {
        is_plain_shape(self.page, self.slots, self.reach, usize::from(self.ports))
    }
}

/// The shape of a unit.
pub fn shape_of(unit: &Unit) -> Shape
    requires { length unit.now.ports ≤ 255 }
    ensures { result ≡ unit_shape unit.now }
{
    Shape {
        page: unit.page,
        slots: unit.slots,
        reach: unit.reach,
        ports: unit.ports.as_slice().len() as u8,
    }
}
