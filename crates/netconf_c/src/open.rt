//! Opening a description.

ghost use Rattle.std.specs.Prelude.{◌≡◌, Err, IfOk};
ghost use Rattle.dn_kind.specs.Terms.{AreKinds, kinds_of};
ghost use Rattle.dn_session.specs.Terms.{shipped_kinds};
ghost use Rattle.dn_tool.specs.declared.compile.CompileFault.TheVariants.{Refused};
ghost use Rattle.dn_tool.specs.declared.refusal.Refusal.{Refusal as RefusalPart};
ghost use Rattle.dn_tool.specs.Terms.{compilation, with_refusal};
ghost use Rattle.netconf_c.specs.Opening.{IsOpenedFrom};

use dn_kind::kinds::Kinds;
use dn_session::session::Session;
use dn_session::shipped_kinds;
use dn_tool::compile::{CompileFault, Platform, compile};
use std::alloc::Global;

/// A session of a description, in which no grant lives. The commands of the description are not
/// run.
///
/// # Errors
///
/// `Refused` with the first rule that the text breaks, and `OutOfMemory` for want of memory.
pub(crate) fn open(alloc: Global, text: &[u8]) -> Result<Session, CompileFault>
    ensures opened { IfOk result (λ s. IsOpenedFrom text.now s) }
    ensures refused { (why : RefusalPart) → result ≡ Err (Refused why)
        → with_refusal (compilation shipped_kinds text.now) ≡ Err why }
{
    let kinds = shipped_kinds!(alloc, Err(CompileFault::OutOfMemory));
    open_with(alloc, &kinds, text)
}

/// Opens a description with the shipped kinds.
fn open_with(alloc: Global, kinds: &Kinds, text: &[u8]) -> Result<Session, CompileFault>
    requires kinds { AreKinds meaning kinds.now }
    requires shipped { kinds_of meaning kinds.now ≡ shipped_kinds }
    ensures opened { IfOk result (λ s. IsOpenedFrom text.now s) }
    ensures refused { (why : RefusalPart) → result ≡ Err (Refused why)
        → with_refusal (compilation shipped_kinds text.now) ≡ Err why }
{
    let platform = compile(alloc, text, kinds)?;
    let Platform {
        net,
        walks,
        commands: _commands,
    } = platform;
    match Session::make(alloc, kinds, net, &walks) {
        Ok(session) => Ok(session),
        Err(_) => Err(CompileFault::OutOfMemory),
    }
}
