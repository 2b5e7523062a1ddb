//! A source over a reader of the system, as standard input.
ghost use Rattle.std.specs.Prelude.{◌≡◌, false, IfOk};

use crate::outside::{BUFFER, has_ended};
use crate::{Failed, Source};
use std::alloc::{AllocError as OutOfMemory, Global};
use std::io::{BufRead, BufReader, Read};
use std::marker::Model;

/// A reader of the system, through a buffer of 64 KiB. It tells the bytes that its reader tells: of the system, none. Each
/// refusal of the system is a fault.
#[derive(Drop)]
pub struct StdSource<R: Read + Drop> {
    inner: BufReader<R>,
    // So many bytes at the front of the buffer were lent: the next call takes them out.
    lent: usize,
    taken: u64,
    ended: bool,
    faults: u64,
}

impl<R: Read + Drop> Model for StdSource<R> {
    ghost use Rattle.ipe_io.specs.Real.{InputState, left_after};

    ghost Value = { InputState };

    ghost view = { λ s. record { left = left_after R.remaining s.lent s.inner; taken = s.taken; ended = s.ended; faults = s.faults } };
}

impl<R: Read + Drop> StdSource<R> {
    /// A source that nothing was taken from.
    pub fn new(alloc: Global, inner: R) -> Result<StdSource<R>, OutOfMemory>
        ensures counts { IfOk result (λ s. (s.taken ≡ 0) × (s.ended ≡ false) × (s.faults ≡ 0)) }
        ensures left { IfOk result (λ s. s.left ≡ R.remaining inner) }
    {
        match BufReader::with_capacity(alloc, BUFFER, inner) {
            Ok(inner) => Ok(StdSource {
                inner,
                lent: 0,
                taken: 0,
                ended: false,
                faults: 0,
            }),
            Err(_) => Err(OutOfMemory),
        }
    }
}

impl<R: Read + Drop> Source for StdSource<R> {
    ghost use Rattle.std.specs.Prelude.{◌^◌, ◌-◌, ◌≤◌, min};
    ghost use Rattle.std.proofs.Common.{arith};

    // The counter of the bytes taken is one of 64 bits.
    ghost told = { λ s. record { left = s.left; taken = min s.taken (2 ^ 64 - 1); ended = s.ended; faults = s.faults } };

    fn read(&mut self, into: &mut [u8]) -> Result<usize, Failed> {
        self.inner.consume(self.lent);
        self.lent = 0;
        match self.inner.read(into) {
            Ok(count) => {
                self.taken = self.taken.saturating_add(count as u64);
                self.ended = has_ended(self.ended, into.len(), count);
                Ok(count)
            }
            Err(_) => {
                self.faults = self.faults.saturating_add(1);
                Err(Failed)
            }
        }
    }

    /// Lends out of the buffer.
    fn lend(&mut self, size: usize) -> Option<&[u8]> {
        self.inner.consume(self.lent);
        self.lent = 0;
        if self.inner.buffer().len() < size {
            return None;
        }
        self.lent = size;
        self.taken = self.taken.saturating_add(size as u64);
        Some(&self.inner.buffer()[..size])
    }

    ghost taken_fits = { λ s. omega arith };
}
