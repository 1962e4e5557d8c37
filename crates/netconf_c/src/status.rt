//! What the calls answer: a number for each cause, the same at each call.

ghost use Rattle.std.specs.Prelude.{◌≡◌, ◌≤◌};
ghost use Rattle.netconf_c.specs.Calls.{refusal_status};

use dn_grant::refusal::GrantRefusal;

/// It was done.
pub(crate) const DONE: u32 = 0;
/// The handle has no session. Nothing was done.
pub(crate) const CLOSED: u32 = 1;
/// An argument is none that the call takes. Nothing was done.
pub(crate) const BAD_ARGUMENT: u32 = 2;
/// There was no memory for it. Nothing was done.
pub(crate) const NO_MEMORY: u32 = 3;
/// The place for the answer is too small. Nothing was done.
pub(crate) const TOO_SMALL: u32 = 4;
/// The text breaks a rule, whose line was written.
pub(crate) const REFUSED: u32 = 5;
/// The agent's number is that of no node, or of a node that is no agent.
pub(crate) const NO_AGENT: u32 = 17;
/// No live grant has the id.
pub(crate) const NO_GRANT: u32 = 22;
/// No node has the name or the number.
pub(crate) const NO_NODE: u32 = 23;

/// The status of a refusal, 16 to 21.
pub(crate) fn refusal_status(why: GrantRefusal) -> u32
    ensures value { result ≡ refusal_status why }
    ensures least { 16 ≤ result }
    ensures most { result ≤ 21 }
{
    match why {
        GrantRefusal::IdUsed => 16,
        GrantRefusal::NoAgent => 17,
        GrantRefusal::NoTarget => 18,
        GrantRefusal::NotAccepted { .. } => 19,
        GrantRefusal::BookFull => 20,
        GrantRefusal::NoPlacement => 21,
    }
}
