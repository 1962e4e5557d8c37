//! What bytes go to, and the faults of a write.

ghost use Rattle.std.specs.Prelude.{◌≡◌, ℕ, ◌<◌, ◌≤◌, Option, List, length, take, IfOk, OnErr};
ghost use Rattle.dn_base.specs.Terms.{Added, Faults, IsCounted, is_write_fault};

use thiserror::Error;

/// Why a write took nothing.
#[derive(Clone, Copy, Debug, PartialEq, Eq, Error)]
pub enum WriteFault {
    /// The outside failed. The sink counts it.
    #[error("Failed")]
    Failed,
    /// There was no memory to keep the piece in. It counts as no fault.
    #[error("OutOfMemory")]
    OutOfMemory,
}

/// What bytes go to.
pub trait Sink {
    /// The bytes that were written, where the sink tells them.
    ghost written: { Self → Option (List ℕ) };

    /// What the sink tells of its faults.
    ghost faults: { Self → Faults };

    /// Takes a prefix of the piece and answers its length, which is at least 1 where the piece is
    /// not empty. Whether the bytes are told is the same after each call.
    ///
    /// # Errors
    ///
    /// `Failed` comes only where the count of faults rose in this call, or stands at the last value
    /// of its counter. `OutOfMemory` comes for want of memory. After both nothing was taken, and a
    /// later call may succeed.
    fn write(&mut self, piece: &[u8]) -> Result<usize, WriteFault>
        ensures within { IfOk result (λ n. n ≤ length piece.now) }
        ensures some { IfOk result (λ n. 0 < length piece.now → 0 < n) }
        ensures added { IfOk result (λ n.
            Added (written self.old) (written self.new) (take n piece.now)) }
        ensures untaken { OnErr result (written self.new ≡ written self.old) }
        ensures counted { IsCounted (faults self.old) (faults self.new) (is_write_fault result) };
}
