//! Sets of tables: what a put and a clear leave, over a device that fails.

ghost use Rattle.dn_kind.specs.Terms.{AreKinds};
ghost use Rattle.test_tables.specs.Terms.{IsBench};

use crate::bench::{Bench, to_page};
use crate::slots::{Place, are_words, bench_of, clear, device_words, put, record_of, words};
use crate::tables::boards::vector_plan;
use dn_base::device::DeviceFault;
use dn_kind::kinds::Kinds;
use dn_kind::unit_kind::Record;
use std::alloc::Global;
use std::process::Abort;

/// Compares the words of a unit, which are the same in the set and on its device, and the record of
/// a slot.
fn compare(
    rt: &impl Abort,
    kinds: &Kinds,
    bench: &Bench,
    at: Place,
    wanted: &[u64],
    held: Option<Record>,
)
    requires { IsBench meaning kinds.now bench.now }
{
    let (net, set) = (&bench.net, &bench.set);
    assert!(rt; are_words(words(net, set, at.unit), wanted));
    assert!(rt; are_words(device_words(kinds, bench, at.unit), wanted));
    assert!(rt; record_of(kinds, bench, at) == held);
}

/// The slot that is put and cleared.
const SLOT: Place = Place { unit: 2, slot: 2 };

/// What a put or a clear of slot 2 answers over a device that fails at a call, with the two words of
/// the slot and whether it holds a record behind it.
type Left = (Result<(), DeviceFault>, [u64; 2], bool);

/// Compares what a put or a clear of slot 2 of the unit of vectors answered and left: all words but
/// those of the slot are 0.
fn compare_left(
    rt: &impl Abort,
    kinds: &Kinds,
    bench: &Bench,
    given: Option<Result<(), DeviceFault>>,
    wanted: Left,
)
    requires { IsBench meaning kinds.now bench.now }
{
    let (answer, left, held) = wanted;
    assert!(rt; given == Some(answer));
    let words = [0, 0, 0, 0, left[0], left[1], 0, 0];
    let held = held.then_some(to_page(0x20));
    compare(rt, kinds, bench, SLOT, &words, held);
}

/// Compares what is left after a put, and then after a clear, over a device that fails at a call.
fn compare_failing(rt: &impl Abort, alloc: Global, kinds: &Kinds, failing: u32, wanted: [Left; 2])
    requires { AreKinds meaning kinds.now }
{
    let mut bench = bench_of(rt, alloc, kinds, vector_plan(rt, alloc), 0, &[failing]);
    let given = put(kinds, &mut bench, SLOT, to_page(0x20));
    compare_left(rt, kinds, &bench, given, wanted[0]);
    let given = clear(kinds, &mut bench, SLOT);
    compare_left(rt, kinds, &bench, given, wanted[1]);
}

/// A fault leaves the words that were written before it.
pub fn stop_at_writes(rt: &impl Abort, alloc: Global, kinds: &Kinds)
    requires { AreKinds meaning kinds.now }
{
    let fault = Err(DeviceFault);
    // Call 0 makes the unit. A put that failed at its first write leaves the clear calls 2 and 3,
    // else it has calls 3 and 4.
    let put = (Ok(()), [0x20, 1], true);
    let cleared = (Ok(()), [0, 0], false);
    compare_failing(rt, alloc, kinds, 1, [(fault, [0, 0], false), cleared]);
    compare_failing(rt, alloc, kinds, 2, [(fault, [0x20, 0], false), cleared]);
    compare_failing(rt, alloc, kinds, 3, [put, (fault, [0x20, 1], true)]);
    compare_failing(rt, alloc, kinds, 4, [put, (fault, [0x20, 0], false)]);
    compare_failing(rt, alloc, kinds, 5, [put, cleared]);
}
