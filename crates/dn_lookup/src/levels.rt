//! Names level by level: each level has the names one step on from those of the level before it.

ghost use Rattle.std.specs.Prelude.{◌≡◌, ◌++◌, [], ◌∷◌, ◌+◌, ◌<◌, ◌^◌, length, IfOk, OnOk, IsTrue};
ghost use Rattle.dn_net.specs.Terms.{each_step, is_accepted, passing_names, sorted_names};
ghost use Rattle.dn_kind.specs.Terms.{are_there, resolved_names_under, steps_under};
ghost use Rattle.dn_lookup.specs.Terms.{IsImage, records_for};

use crate::OutOfMemory;
use crate::image::LoadedImage;
use crate::output::output;
use dn_kind::levels::{LEVELS, first_level, push_moved, push_sent, set_of};
use dn_kind::rights::Access;
use dn_net::names::Names;
use dn_net::node::Name;
use dn_net::step::Step;
use std::alloc::Global;

/// The accepted names that a name reaches in at most 259 steps under the records of an image. `Err`
/// is want of memory.
pub(crate) fn resolve(
    alloc: Global,
    image: LoadedImage,
    access: Access,
    name: Name,
) -> Result<Names, OutOfMemory>
    requires image { IsImage meaning image }
    requires there { name.node < length image.on.net.now }
    ensures resolved { IfOk result (λ names. names ≡ resolved_names_under image.entry.on.net.now
        (records_for meaning image.entry access) name) }
    ensures there { IfOk result
        (λ names. IsTrue (are_there (length image.entry.on.net.now) names)) }
{
    let mut accepted = Vec::new(alloc);
    let mut level = first_level(alloc, name)?;
    for _ in 0..LEVELS {
        if level.list().is_empty() {
            break;
        }
        level = next_level(alloc, image, access, level.list(), &mut accepted)?;
    }
    set_of(alloc, accepted)
}

/// The names one step on from those of a level. Those of the level that are accepted are appended.
fn next_level(
    alloc: Global,
    image: LoadedImage,
    access: Access,
    level: &[Name],
    accepted: &mut Vec<Name>,
) -> Result<Names, OutOfMemory>
    requires image { IsImage meaning image }
    requires there { IsTrue (are_there (length image.on.net.now) level.now) }
    ensures accepted { OnOk result (accepted.new.items
        ≡ accepted.old.items ++ passing_names (is_accepted image.entry.on.net.now) level.now) }
    ensures next { IfOk result (λ names. names ≡ sorted_names (each_step
        (steps_under image.entry.on.net.now (records_for meaning image.entry access)) level.now)) }
    ensures there { IfOk result
        (λ names. IsTrue (are_there (length image.entry.on.net.now) names)) }
{
    let mut next = Vec::new(alloc);
    for name in level {
        push_steps(image, access, *name, accepted, &mut next)?;
    }
    set_of(alloc, next)
}

/// Appends the names one step on from a name, and where it is accepted, the name itself to the others.
fn push_steps(
    image: LoadedImage,
    access: Access,
    name: Name,
    accepted: &mut Vec<Name>,
    next: &mut Vec<Name>,
) -> Result<(), OutOfMemory>
    requires image { IsImage meaning image }
    requires there { name.node < length image.on.net.now }
    ensures accepted { OnOk result (accepted.new.items
        ≡ accepted.old.items ++ passing_names (is_accepted image.entry.on.net.now) (name ∷ [])) }
    ensures next { OnOk result (next.new.items ≡ next.old.items
        ++ steps_under image.entry.on.net.now (records_for meaning image.entry access) name) }
{
    match image.on.net.step(name) {
        Step::Accepted => Ok(accepted.push(name)?),
        Step::To(dests, offset) => push_moved(next, dests, offset),
        Step::Stop => push_sent(next, output(image, access, name)),
        Step::Nothing => Ok(()),
    }
}
