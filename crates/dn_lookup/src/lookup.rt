//! The lookup of an agent's address.

ghost use Rattle.std.specs.Prelude.{◌≡◌, ◌≢◌, ◌<◌, length, slice_get, IfOk, Ok, Err, None, IsTrue};
ghost use Rattle.dn_base.specs.Terms.{Answers};
ghost use Rattle.dn_net.specs.Terms.{KeepsNodeRules, is_agent_at};
ghost use Rattle.dn_kind.specs.Terms.{IsShaped, are_there, kinds_of};
ghost use Rattle.dn_image.specs.Terms.{broken_image, version_of};
ghost use Rattle.dn_lookup.specs.Terms.{lookup_fault_view, lookup_of};

use crate::OutOfMemory;
use crate::image::LoadedImage;
use crate::levels::resolve;
use dn_image::check::check;
use dn_image::fault::ImageFault;
use dn_kind::kinded::KindedNet;
use dn_kind::rights::Access;
use dn_net::names::Names;
use dn_net::net::Net;
use dn_net::node::{Name, Role};
use std::alloc::Global;
use thiserror::Error;

/// Why there is no answer to a lookup.
#[derive(Clone, Copy, Debug, PartialEq, Eq, Error)]
pub enum LookupFault {
    /// The node is none, or no agent.
    #[error("NoAgent")]
    NoAgent,
    /// The bytes are no image of the net. It is never the fault's `OutOfMemory`.
    #[error("Image")]
    Image(ImageFault),
    /// There was no memory for the names.
    #[error("OutOfMemory")]
    OutOfMemory,
}

/// The names to which an agent's name comes for an access, under the records of an image of the
/// net, whoever made it. It reads the header, the heads and the slots on the way alone.
///
/// # Errors
///
/// `NoAgent` exactly where the node is none or no agent; else `Image` exactly where the bytes are no
/// image of the net; `OutOfMemory` where there is no memory for the names.
pub fn lookup(
    alloc: Global,
    on: KindedNet,
    image: &[u8],
    access: Access,
    name: Name,
) -> Result<Names, LookupFault>
    requires on { IsShaped meaning on }
    requires rules { KeepsNodeRules on.net.now }
    ensures exact { Answers (λ names. names) lookup_fault_view result
        (lookup_of on.entry.net.now (kinds_of meaning on.entry.kinds.now) image.now access name) }
    // Each name is in a node that is there.
    ensures there { IfOk result (λ names. IsTrue (are_there (length on.entry.net.now) names)) }
    ensures memory { result ≢ Err (LookupFault.Image ImageFault.OutOfMemory) }
{
    if !is_agent(on.net, name.node) {
        return Err(LookupFault::NoAgent);
    }
    let version = match check(on, image) {
        Ok(version) => version,
        Err(fault) => return Err(LookupFault::Image(fault)),
    };
    match lookup_whole(alloc, on, image, version, access, name) {
        Ok(names) => Ok(names),
        Err(_) => Err(LookupFault::OutOfMemory),
    }
}

/// The names to which an agent's name comes for an access, in bytes that are an image of the net and
/// of this version: [`check`] tells whether they are, and the version. It is for many lookups in one
/// image, which are to look at its header and heads once. `Err` is want of memory.
pub fn lookup_whole(
    alloc: Global,
    on: KindedNet,
    image: &[u8],
    version: u16,
    access: Access,
    name: Name,
) -> Result<Names, OutOfMemory>
    requires on { IsShaped meaning on }
    requires rules { KeepsNodeRules on.net.now }
    requires whole { broken_image on.net.now (kinds_of meaning on.kinds.now) image.now ≡ None }
    requires version { version ≡ version_of image.now }
    requires agent { IsTrue (is_agent_at (slice_get on.net.now name.node)) }
    ensures exact { IfOk result (λ names. lookup_of on.entry.net.now
        (kinds_of meaning on.entry.kinds.now) image.now access name ≡ Ok names) }
    // Each name is in a node that is there.
    ensures there { IfOk result (λ names. IsTrue (are_there (length on.entry.net.now) names)) }
{
    let image = LoadedImage {
        on,
        bytes: image,
        version,
    };
    resolve(alloc, image, access, name)
}

/// Whether a node is there, and an agent.
fn is_agent(net: &Net, node: u16) -> bool
    ensures { result ≡ is_agent_at (slice_get net.now node) }
{
    node < net.nodes() && has_agent_role(net, node)
}

/// Whether a node is an agent.
fn has_agent_role(net: &Net, node: u16) -> bool
    requires { node < length net.now }
    ensures { result ≡ is_agent_at (slice_get net.now node) }
{
    net.role(node) == Role::Agent
}
