//! What bytes come from, and the fault of a read.

ghost use Rattle.std.specs.Prelude.{◌≡◌, ℕ, ◌<◌, ◌≤◌, ◌↔◌, ◌++◌, Option, List, [], length, take, IfOk, IfSome, OnErr, is_err};
ghost use Rattle.dn_base.specs.Terms.{AtEnd, Faults, IsCounted, Taken};

use thiserror::Error;

/// Why a read gave no answer.
#[derive(Clone, Copy, Debug, PartialEq, Eq, Error)]
pub enum ReadFault {
    /// The outside failed. The source counts it.
    #[error("Failed")]
    Failed,
}

/// What bytes come from.
pub trait Source {
    /// The bytes that are left, where the source tells them.
    ghost left: { Self → Option (List ℕ) };

    /// The bytes that its reads gave so far, in order.
    ghost given: { Self → List ℕ };

    /// What the source tells of its faults.
    ghost faults: { Self → Faults };

    /// Fills a prefix of `into` with the next bytes and answers their number.
    ///
    /// For a piece that is not empty an answer of 0 is the end of the input; for an empty piece the
    /// answer is 0. The rest of the piece may hold anything. Whether the bytes are told is the same
    /// after each call.
    ///
    /// # Errors
    ///
    /// `Failed` comes only where the count of faults rose in this call, or stands at the last value
    /// of its counter. No byte was taken then, and a later call may succeed.
    fn read(&mut self, into: &mut [u8]) -> Result<usize, ReadFault>
        ensures within { IfOk result (λ n. n ≤ length into.old) }
        ensures taken { IfOk result (λ n. Taken (left self.old) (left self.new) (take n into.new)) }
        ensures end { IfOk result (λ n. 0 < length into.old → n ≡ 0 → AtEnd (left self.new)) }
        ensures only_end { IfOk result (λ n. 0 < length into.old →
            IfSome (left self.old) (λ rest. n ≡ 0 ↔ rest ≡ [])) }
        ensures untaken { OnErr result (left self.new ≡ left self.old) }
        ensures gave { IfOk result (λ n. given self.new ≡ given self.old ++ take n into.new) }
        ensures ungiven { OnErr result (given self.new ≡ given self.old) }
        ensures counted { IsCounted (faults self.old) (faults self.new) (is_err result) };
}
