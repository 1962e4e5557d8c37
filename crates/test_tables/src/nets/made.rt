//! The nets of plans.

ghost use Rattle.dn_kind.specs.Terms.{AreKinds};
ghost use Rattle.dn_net.specs.Terms.{IsLegalNet};

use dn_kind::kinds::Kinds;
use dn_net::net::Net;
use std::alloc::Global;
use std::process::Abort;
use test_plans::Plan;

/// The net of a plan, which keeps all rules.
pub fn legal(rt: &impl Abort, alloc: Global, kinds: &Kinds, plan: Plan) -> Net
    requires { AreKinds meaning kinds.now }
    ensures { IsLegalNet result }
{
    plan.net(alloc, kinds).expect(rt, "a net")
}
