//! The numbers of an object's calls, and which of them fail.

ghost use Rattle.std.specs.Prelude.{◌≡◌, ◌==◌, ◌<◌, ◌^◌, true};
ghost use Rattle.dn_base.specs.Terms.{IsCall, IsCounted, faults_of, no_calls};
ghost use Rattle.std.specs.List.{list_any};

use std::marker::Model;

/// Numbers the calls of an object from 0 and counts the faults.
///
/// The number is kept in a `u64` and stays at its last value. A call fails exactly where its number
/// is listed, so a call past number 2^32 - 1 never fails, and with an empty list none does.
#[derive(Drop)]
pub struct Calls {
    call: u64,
    faults: u64,
    failing: Vec<u32>,
}

impl Model for Calls {
    ghost use Rattle.std.specs.Prelude.{◌≤◌, ◌^◌};
    ghost use Rattle.dn_base.specs.Memory.{CallState};

    ghost Value = { CallState };

    ghost view = { λ s. record { call = s.call; faults = s.faults; failing = s.failing.items } };

    ghost invariant = { λ s. (s.faults ≤ s.call) × (s.faults ≤ 2 ^ 32) };
}

/// Whether the call of that number is to fail.
fn is_failing(failing: &[u32], call: u64) -> bool
    ensures value { result ≡ list_any (λ n. n == call) failing.now }
    ensures small { result ≡ true → call < 2 ^ 32 }
{
    for n in failing {
        if u64::from(*n) == call {
            return true;
        }
    }
    false
}

impl Calls {
    /// No call yet. The calls whose numbers are listed will fail, in whatever order they stand.
    pub fn new(failing: Vec<u32>) -> Calls
        ensures { result ≡ no_calls failing.items }
    {
        Calls {
            call: 0,
            faults: 0,
            failing,
        }
    }

    /// Numbers the next call and answers whether it fails, which is then counted as a fault.
    pub fn fails(&mut self) -> bool
        ensures called { IsCall self.old self.new result }
        ensures counted { IsCounted (faults_of self.old) (faults_of self.new) result }
    {
        let failing = is_failing(&self.failing, self.call);
        self.call = self.call.saturating_add(1);
        if failing {
            self.faults += 1;
        }
        failing
    }
}
