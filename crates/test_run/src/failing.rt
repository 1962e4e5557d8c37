//! Which calls of the outside fail in a test.

ghost use Rattle.std.specs.Prelude.{◌≡◌, []};

/// Which calls of the source, of the sink and of the device fail, by their numbers from 0, in any order.
#[derive(Clone, Copy)]
pub struct Failing<'a> {
    pub reads: &'a [u32],
    pub writes: &'a [u32],
    pub device: &'a [u32],
}

/// Only these reads fail.
pub fn failing_reads(calls: &[u32]) -> Failing<'_>
    ensures reads { result.reads.now ≡ calls.now }
    ensures writes { result.writes.now ≡ [] }
    ensures device { result.device.now ≡ [] }
{
    Failing {
        reads: calls,
        writes: &[],
        device: &[],
    }
}

/// Only these writes fail.
pub fn failing_writes(calls: &[u32]) -> Failing<'_>
    ensures reads { result.reads.now ≡ [] }
    ensures writes { result.writes.now ≡ calls.now }
    ensures device { result.device.now ≡ [] }
{
    Failing {
        reads: &[],
        writes: calls,
        device: &[],
    }
}

/// Only these calls of the device fail.
pub fn failing_calls(calls: &[u32]) -> Failing<'_>
    ensures reads { result.reads.now ≡ [] }
    ensures writes { result.writes.now ≡ [] }
    ensures device { result.device.now ≡ calls.now }
{
    Failing {
        reads: &[],
        writes: &[],
        device: calls,
    }
}
