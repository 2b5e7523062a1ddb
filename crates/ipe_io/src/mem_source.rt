//! A source over bytes in memory.
ghost use Rattle.std.specs.Prelude.{◌≡◌, ◌↔◌, ℕ, ◌+◌, ◌^◌, ◌<◌, ◌≤◌, ◌-◌, false, List, length, min, Some, IfOk, IsErr, is_ok, if◌then◌else◌};
ghost use Rattle.std.specs.Io.{ReadsAtMost};
ghost use Rattle.std.specs.Io.KnownBytes.{ReadConsumes};
ghost use Rattle.wire_spec.specs.Causes.{HasCause};
ghost use Rattle.ipe_io.specs.Counts.{taken_after, ended_after};
ghost use Rattle.ipe_io.specs.Memory.{IsListed, first_call, next_call};

use crate::failing_calls::FailingCalls;
use crate::outside::has_ended;
use crate::{Failed, Source};
use std::alloc::{AllocError as OutOfMemory, Global};
use std::marker::Model;

/// Bytes in memory, of which a read gives at most `chunk`. The calls whose numbers, from 0, are listed fail.
#[derive(Drop)]
pub struct MemSource {
    bytes: Vec<u8>,
    at: usize,
    ended: bool,
    chunk: usize,
    calls: FailingCalls,
    faults: u64,
}

impl Model for MemSource {
    ghost use Rattle.std.specs.Prelude.{◌^◌, ◌<◌, ◌≤◌, drop, length};
    ghost use Rattle.ipe_io.specs.Memory.{SourceState};

    ghost Value = { SourceState };

    ghost view = { λ s. record { left = drop s.at s.bytes.items; taken = s.at; ended = s.ended; chunk = s.chunk; calls = s.calls; faults = s.faults } };

    ghost invariant = { λ s. (s.at ≤ length s.bytes.items) × (0 < s.chunk) × (s.faults ≤ s.calls.next) × (s.calls.next ≤ 2 ^ 32) };
}

impl MemSource {
    /// A source of these bytes. `chunk` is at least 1.
    pub fn new(
        alloc: Global,
        bytes: &[u8],
        chunk: usize,
        fails: &[u32],
    ) -> Result<MemSource, OutOfMemory>
        requires { 0 < chunk }
        ensures bytes { IfOk result (λ s. (s.left ≡ bytes.now) × (s.taken ≡ 0) × (s.ended ≡ false) × (s.chunk ≡ chunk)) }
        ensures counts { IfOk result (λ s. (s.calls ≡ first_call fails.now) × (s.faults ≡ 0)) }
    {
        Ok(MemSource {
            bytes: Vec::from_slice(alloc, bytes)?,
            at: 0,
            ended: false,
            chunk,
            calls: FailingCalls::new(alloc, fails)?,
            faults: 0,
        })
    }

    /// How often it has failed.
    pub fn faults(&self) -> u64
        ensures { result ≡ self.now.faults }
    {
        self.faults
    }
}

impl Source for MemSource {
    ghost use Rattle.std.specs.Prelude.{ℕ, ◌^◌, ◌-◌, ◌≤◌, min, Some};
    ghost use Rattle.std.proofs.Common.{arith};

    // The counter of the bytes taken is one of 64 bits.
    ghost told = { λ s. record { left = Some s.left; taken = min s.taken (2 ^ 64 - 1); ended = s.ended; faults = s.faults } };

    /// Gives the least of the chunk, the room in `into` and the bytes left.
    fn read(&mut self, into: &mut [u8]) -> Result<usize, Failed>
        ensures bound { ReadsAtMost result into.new }
        ensures read { ReadConsumes (Some self.old.left) (Some self.new.left) result into.new }
        ensures count { IfOk result (λ n. n ≡ min self.old.chunk (min (length into.new) (length self.old.left))) }
        ensures taken { self.new.taken ≡ taken_after self.old.taken result }
        ensures ended { self.new.ended ≡ ended_after self.old.ended (length into.new) result }
        ensures failed { IsErr result ↔ IsListed self.old.calls }
        ensures cause { HasCause self.old.faults self.new.faults result }
        ensures faults { self.new.faults ≡ (if is_ok result then self.old.faults else self.old.faults + 1) }
        ensures calls { self.new.calls ≡ next_call self.old.calls }
        ensures chunk { self.new.chunk ≡ self.old.chunk }
    {
        if self.calls.count() {
            self.faults += 1;
            return Err(Failed);
        }
        let count = self.chunk.min(into.len().min(self.bytes.len() - self.at));
        into[..count].copy_from_slice(&self.bytes[self.at..self.at + count]);
        self.at += count;
        self.ended = has_ended(self.ended, into.len(), count);
        Ok(count)
    }

    ghost taken_fits = { λ s. omega arith };
}
