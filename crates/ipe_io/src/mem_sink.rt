//! A sink over memory.
ghost use Rattle.std.specs.Prelude.{◌≡◌, ◌↔◌, ℕ, ◌+◌, ◌-◌, ◌^◌, ◌<◌, ◌≤◌, ◌⊎◌, [], ◌++◌, length, take, Some, IfOk, OnOk, OnErr, IsErr, is_ok, if◌then◌else◌};
ghost use Rattle.std.specs.Io.KnownBytes.{WriteAppends, Keeps};
ghost use Rattle.wire_spec.specs.Causes.{HasCause, raised};
ghost use Rattle.wire_spec.specs.Content.{Stays};
ghost use Rattle.ipe_io.specs.Counts.{IsFlushed};
ghost use Rattle.ipe_io.specs.Memory.{IsListed, IsFull, fitting, first_call, next_call};

use crate::failing_calls::FailingCalls;
use crate::mem_file::MemFile;
use crate::{Failed, Sink};
use std::alloc::{AllocError as OutOfMemory, Global};
use std::marker::Model;

/// Up to `room` bytes in memory, taken at once. The calls whose numbers, from 0, are listed fail; one number counts
/// writes and flushes.
#[derive(Drop)]
pub struct MemSink {
    file: MemFile,
    calls: FailingCalls,
    faults: u64,
}

impl Model for MemSink {
    ghost use Rattle.ipe_io.specs.Memory.{SinkState};

    ghost Value = { SinkState };

    ghost view = { λ s. record { bytes = s.file.file.bytes; flushed = s.file.file.flushed; room = s.file.room; calls = s.calls; faults = s.faults } };
}

impl MemSink {
    /// An empty sink with this room.
    pub fn new(alloc: Global, room: usize, fails: &[u32]) -> Result<MemSink, OutOfMemory>
        ensures bytes { IfOk result (λ s. (s.bytes ≡ []) × (s.flushed ≡ 0) × (s.room ≡ room)) }
        ensures counts { IfOk result (λ s. (s.calls ≡ first_call fails.now) × (s.faults ≡ 0)) }
    {
        Ok(MemSink {
            file: MemFile::new(alloc, room)?,
            calls: FailingCalls::new(alloc, fails)?,
            faults: 0,
        })
    }

    /// The bytes that it holds.
    pub fn bytes(&self) -> &[u8]
        ensures { result.now ≡ self.now.bytes }
    {
        self.file.bytes()
    }

    /// How many bytes were flushed.
    pub fn flushed(&self) -> usize
        ensures { result ≡ self.now.flushed }
    {
        self.file.flushed()
    }

    /// How often it has failed, a counter that stands still at 2^64 - 1.
    pub fn faults(&self) -> u64
        ensures { result ≡ self.now.faults }
    {
        self.faults
    }
}

impl Sink for MemSink {
    ghost use Rattle.std.specs.Prelude.{Some};

    ghost told = { λ s. record { held = Some s.bytes; flushed = Some s.flushed; faults = s.faults } };

    /// Takes as much of the piece as there is room for. A piece that is not empty and finds no room is a fault.
    fn write(&mut self, piece: &[u8]) -> Result<usize, Failed>
        ensures bound { IfOk result (λ n. n ≤ length piece.now) }
        ensures some { IfOk result (λ n. 0 < length piece.now → 0 < n) }
        ensures written { WriteAppends (Some self.old.bytes) (Some self.new.bytes) result piece.now }
        ensures count { IfOk result (λ n. n ≡ fitting self.old.room self.old.bytes piece.now) }
        ensures flushed { self.new.flushed ≡ self.old.flushed }
        ensures failed { IsErr result ↔ (IsListed self.old.calls ⊎ IsFull self.old.room self.old.bytes piece.now) }
        ensures cause { HasCause self.old.faults self.new.faults result }
        ensures faults { self.new.faults ≡ (if is_ok result then self.old.faults else raised self.old.faults 1) }
        ensures calls { self.new.calls ≡ next_call self.old.calls }
        ensures room { self.new.room ≡ self.old.room }
    {
        let listed = self.calls.count();
        if listed || self.file.is_full(piece) {
            self.faults = self.faults.saturating_add(1);
            return Err(Failed);
        }
        Ok(self.file.append(piece))
    }

    /// Flushes all bytes.
    fn flush(&mut self) -> Result<(), Failed>
        ensures flushed { self.new.flushed ≡ (if is_ok result then length self.old.bytes else self.old.flushed) }
        ensures kept { self.new.bytes ≡ self.old.bytes }
        ensures failed { IsErr result ↔ IsListed self.old.calls }
        ensures cause { HasCause self.old.faults self.new.faults result }
        ensures faults { self.new.faults ≡ (if is_ok result then self.old.faults else raised self.old.faults 1) }
        ensures calls { self.new.calls ≡ next_call self.old.calls }
        ensures room { self.new.room ≡ self.old.room }
    {
        if self.calls.count() {
            self.faults = self.faults.saturating_add(1);
            return Err(Failed);
        }
        self.file.flush();
        Ok(())
    }
}
