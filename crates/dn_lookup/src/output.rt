//! One step in a unit, by the record of a slot in the bytes of an image.

ghost use Rattle.std.specs.Prelude.{◌≡◌, ◌<◌, ◌^◌, [], ◌∷◌, length, None, Some, IsTrue};
ghost use Rattle.dn_net.specs.Terms.{is_stop};
ghost use Rattle.dn_kind.specs.Terms.{name_list, output, steps_under};
ghost use Rattle.dn_lookup.specs.Terms.{IsImage, lets_through, records_for};

use crate::image::LoadedImage;
use dn_image::slots::record_in;
use dn_kind::output::output_name;
use dn_kind::rights::{Access, Rights};
use dn_net::node::Name;

/// Whether a record lets an access through in an image of this version: in version 1 it allows both
/// reading and writing or counts for nothing.
fn lets_through(version: u16, access: Access, rights: Rights) -> bool
    ensures { result ≡ lets_through version access rights }
{
    if version == 1 {
        rights.allows(Access::Read) && rights.allows(Access::Write)
    } else {
        rights.allows(access)
    }
}

/// The output of a name in a unit for an access. `None` where its slot has no record that lets the
/// access through.
pub(crate) fn output(image: LoadedImage, access: Access, name: Name) -> Option<Name>
    requires image { IsImage meaning image }
    requires there { name.node < length image.on.net.now }
    requires stop { IsTrue (is_stop image.on.net.now name) }
    ensures { name_list result
        ≡ steps_under image.entry.on.net.now (records_for meaning image.entry access) name }
{
    let unit = image.on.net.unit(name.node)?;
    let slot = name.addr >> unit.page;
    let record = record_in(image.on, image.bytes, name.node, slot)?;
    if !lets_through(image.version, access, record.rights) {
        return None;
    }
    Some(output_name(unit, record, name.addr))
}
