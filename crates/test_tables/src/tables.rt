//! Tests of tables, of their images, and of lookups in these. What an audit says of an image, and what tables hold after
//! grants, is shown by texts of `answers/`.

ghost use Rattle.dn_kind.specs.Terms.{AreKinds};

use crate::tables::boards::{page_plan, port_plan, two_units};
use crate::tables::lookups::{ask_ports, look_up_pages};
use crate::tables::units::{name_fields, refuse_lengths, take_versions};
use dn_kind::kinded::KindedNet;
use dn_kind::kinds::Kinds;
use std::alloc::Global;
use std::process::Abort;
use test_plans::Plan;

pub mod boards;
mod devices;
mod images;
mod lookups;
pub mod sets;
mod units;

/// A net whose images are read.
#[derive(Clone, Copy)]
enum Imaged {
    /// The board with pages.
    Pages,
    /// The board with two ports.
    Ports,
    /// The two units, of which exactly the images are taken.
    Units,
}

/// Its plan.
fn plan_of(rt: &impl Abort, alloc: Global, imaged: Imaged) -> Plan {
    match imaged {
        Imaged::Pages => page_plan(rt, alloc),
        Imaged::Ports => port_plan(rt, alloc),
        Imaged::Units => two_units(rt, alloc),
    }
}

/// Reads images of each net, and looks up in them.
pub fn read_images(rt: &impl Abort, alloc: Global, kinds: &Kinds)
    requires { AreKinds meaning kinds.now }
{
    for imaged in [Imaged::Pages, Imaged::Ports, Imaged::Units] {
        read_images_of(rt, alloc, kinds, imaged);
    }
}

/// Reads images of a net, and looks up in them.
fn read_images_of(rt: &impl Abort, alloc: Global, kinds: &Kinds, imaged: Imaged)
    requires { AreKinds meaning kinds.now }
{
    let net = plan_of(rt, alloc, imaged).net(alloc, kinds);
    let net = net.expect(rt, "a net");
    let on = KindedNet { net: &net, kinds };
    match imaged {
        Imaged::Pages => look_up_pages(rt, alloc, on),
        Imaged::Ports => ask_ports(rt, alloc, on),
        Imaged::Units => {
            take_versions(rt, alloc, on);
            refuse_lengths(rt, alloc, on);
            name_fields(rt, alloc, on);
        }
    }
}
