//! A source and a sink in memory, which fail at stated calls.
//!
//! The calls of each object are numbered from 0. The number is kept in a `u64` and stays at its last
//! value. A call fails exactly where its number stands in the object's list `failing`, so a call past
//! number 2^32 - 1 never fails, and with an empty list none does.

ghost use Rattle.std.specs.Prelude.{◌≡◌, ◌<◌, ◌≤◌, ◌↔◌, ◌++◌, min, Some, [], length, take, IfOk, OnErr, is_err};
ghost use Rattle.dn_base.specs.Terms.{Added, IsCall, IsCounted, Taken, faults_of, is_write_fault, no_calls};

use crate::calls::Calls;
use crate::sink::{Sink, WriteFault};
use crate::source::{ReadFault, Source};
use std::alloc::Global;
use std::marker::Model;

/// Bytes in memory, given at most `most` bytes a call.
#[derive(Drop)]
pub struct MemSource {
    bytes: Vec<u8>,
    at: usize,
    most: usize,
    calls: Calls,
}

impl Model for MemSource {
    ghost use Rattle.std.specs.Prelude.{◌<◌, ◌≤◌, drop, take, vec_len};
    ghost use Rattle.dn_base.specs.Memory.{SourceState};

    ghost Value = { SourceState };

    ghost view = { λ s. record {
      left = drop s.at s.bytes.items;
      given = take s.at s.bytes.items;
      most = s.most;
      calls = s.calls;
    } };

    ghost invariant = { λ s. (s.at ≤ vec_len s.bytes) × (0 < s.most) };
}

impl MemSource {
    /// The source of the bytes, which gives at most `most` bytes a read and fails at the calls
    /// whose numbers `failing` lists, in any order.
    pub fn new(bytes: Vec<u8>, most: usize, failing: Vec<u32>) -> MemSource
        requires { 0 < most }
        ensures { result ≡
            record { left = bytes.items; given = []; most = most; calls = no_calls failing.items } }
    {
        MemSource {
            bytes,
            at: 0,
            most,
            calls: Calls::new(failing),
        }
    }
}

impl Source for MemSource {
    ghost left = { λ s. Some s.left };

    ghost given = { λ s. s.given };

    ghost faults = { λ s. faults_of s.calls };

    /// Gives as many bytes as are left, up to `most` and to the room of the piece.
    ///
    /// # Errors
    ///
    /// `Failed` exactly where the call's number is listed. It raises the count of faults by one.
    fn read(&mut self, into: &mut [u8]) -> Result<usize, ReadFault>
        ensures within { IfOk result (λ n. n ≤ length into.old) }
        ensures taken { IfOk result (λ n.
            Taken (Some self.old.left) (Some self.new.left) (take n into.new)) }
        ensures count { IfOk result (λ n.
            n ≡ min (min (length self.old.left) self.old.most) (length into.old)) }
        ensures end { IfOk result (λ n. 0 < length into.old → n ≡ 0 → self.new.left ≡ []) }
        ensures only_end { IfOk result (λ n. 0 < length into.old → n ≡ 0 ↔ self.old.left ≡ []) }
        ensures untaken { OnErr result (self.new.left ≡ self.old.left) }
        ensures gave { IfOk result (λ n. self.new.given ≡ self.old.given ++ take n into.new) }
        ensures ungiven { OnErr result (self.new.given ≡ self.old.given) }
        ensures counted { IsCounted (faults_of self.old.calls)
            (faults_of self.new.calls) (is_err result) }
        ensures called { IsCall self.old.calls self.new.calls (is_err result) }
        ensures same { self.new.most ≡ self.old.most }
    {
        if self.calls.fails() {
            return Err(ReadFault::Failed);
        }
        let count = (self.bytes.len() - self.at).min(self.most).min(into.len());
        let end = self.at + count;
        into[..count].copy_from_slice(&self.bytes[self.at..end]);
        self.at = end;
        Ok(count)
    }
}

/// A sink that keeps what is written, in memory.
#[derive(Drop)]
pub struct MemSink {
    bytes: Vec<u8>,
    calls: Calls,
}

impl Model for MemSink {
    ghost use Rattle.dn_base.specs.Memory.{SinkState};

    ghost Value = { SinkState };

    ghost view = { λ s. record { written = s.bytes.items; calls = s.calls } };
}

impl MemSink {
    /// The sink with nothing written yet, which fails at the calls whose numbers `failing` lists,
    /// in any order. It keeps the allocator, and takes no memory yet.
    pub fn new(alloc: Global, failing: Vec<u32>) -> MemSink
        ensures { result ≡ record { written = []; calls = no_calls failing.items } }
    {
        MemSink {
            bytes: Vec::new(alloc),
            calls: Calls::new(failing),
        }
    }

    /// What was written so far.
    pub fn written(&self) -> &[u8]
        ensures { result.now ≡ self.now.written }
    {
        self.bytes.as_slice()
    }
}

impl Sink for MemSink {
    ghost written = { λ s. Some s.written };

    ghost faults = { λ s. faults_of s.calls };

    /// Takes the whole piece.
    ///
    /// # Errors
    ///
    /// `Failed` exactly where the call's number is listed; it raises the count of faults by one.
    /// `OutOfMemory` where there is no memory to keep the piece in. Neither takes a byte.
    fn write(&mut self, piece: &[u8]) -> Result<usize, WriteFault>
        ensures within { IfOk result (λ n. n ≡ length piece.now) }
        ensures some { IfOk result (λ n. 0 < length piece.now → 0 < n) }
        ensures added { IfOk result (λ n.
            Added (Some self.old.written) (Some self.new.written) (take n piece.now)) }
        ensures untaken { OnErr result (self.new.written ≡ self.old.written) }
        ensures counted { IsCounted (faults_of self.old.calls)
            (faults_of self.new.calls) (is_write_fault result) }
        ensures called { IsCall self.old.calls self.new.calls (is_write_fault result) }
    {
        if self.calls.fails() {
            return Err(WriteFault::Failed);
        }
        if self.bytes.extend_from_slice(piece).is_err() {
            return Err(WriteFault::OutOfMemory);
        }
        Ok(piece.len())
    }
}
