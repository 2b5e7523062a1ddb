//! A sink over a writer of the system, as standard output.
ghost use Rattle.std.specs.Prelude.{◌≡◌, ◌<◌, ◌≤◌, ℕ, [], length, IfOk, OnOk};
ghost use Rattle.std.specs.Io.KnownBytes.{Keeps, WriteAppends};
ghost use Rattle.wire_spec.specs.Causes.{HasCause};
ghost use Rattle.ipe_io.specs.Real.{all_put};

use crate::outside::BUFFER;
use crate::write_behind::{WriteBehind, zeros};
use crate::{Failed, Sink};
use std::alloc::{AllocError as OutOfMemory, Global};
use std::io::Write;
use std::marker::Model;

/// A writer of the system. It tells the bytes that were put, where its writer tells those that it has: of the system, none. Each refusal of
/// the system that is no interruption by a signal is a fault, and so is each write that takes nothing of a piece that is not empty.
#[derive(Drop)]
pub struct StdSink<W: Write + Drop> {
    writer: WriteBehind<W>,
    faults: u64,
}

// It is seen as its writer, and its count of faults.
impl<W: Write + Drop> Model for StdSink<W> {
    ghost use Rattle.ipe_io.specs.Real.{OutputState};

    ghost Value = { OutputState };

    ghost view = { λ s. record { writer = s.writer; faults = s.faults } };
}

impl<W: Write + Drop> StdSink<W> {
    /// A sink that holds nothing back, for what is to be seen at once.
    pub fn new(alloc: Global, inner: W) -> StdSink<W>
        ensures writer { result.writer ≡ record { down = W.contents inner; waiting = []; room = 0 } }
        ensures faults { result.faults ≡ 0 }
    {
        StdSink {
            writer: WriteBehind::over(inner, Vec::new(alloc)),
            faults: 0,
        }
    }

    /// A sink that holds up to 64 KiB back, until `flush` writes them out.
    pub fn buffered(alloc: Global, inner: W) -> Result<StdSink<W>, OutOfMemory>
        ensures writer { IfOk result (λ s. s.writer ≡ record { down = W.contents inner; waiting = []; room = 65536 }) }
        ensures faults { IfOk result (λ s. s.faults ≡ 0) }
    {
        let buffer = zeros(alloc, BUFFER)?;
        Ok(StdSink {
            writer: WriteBehind::over(inner, buffer),
            faults: 0,
        })
    }
}

impl<W: Write + Drop> Sink for StdSink<W> {
    ghost use Rattle.std.specs.Prelude.{None};
    ghost use Rattle.ipe_io.specs.Real.{all_put};

    ghost told = { λ s. record { held = all_put s.writer; flushed = None; faults = s.faults } };

    /// It may hold back what there is room for.
    fn write(&mut self, piece: &[u8]) -> Result<usize, Failed>
        ensures bound { IfOk result (λ n. n ≤ length piece.now) }
        ensures some { IfOk result (λ n. 0 < length piece.now → 0 < n) }
        ensures written { WriteAppends (all_put self.old.writer) (all_put self.new.writer) result piece.now }
        ensures cause { HasCause self.old.faults self.new.faults result }
        ensures room { self.new.writer.room ≡ self.old.writer.room }
    {
        match self.writer.write(piece) {
            Ok(count) => Ok(count),
            Err(Failed) => {
                self.faults = self.faults.saturating_add(1);
                Err(Failed)
            }
        }
    }

    /// Writes out what is held back, and flushes the writer.
    fn flush(&mut self) -> Result<(), Failed>
        ensures empty { OnOk result (self.new.writer.waiting ≡ []) }
        ensures kept { Keeps (all_put self.old.writer) (all_put self.new.writer) }
        ensures cause { HasCause self.old.faults self.new.faults result }
        ensures room { self.new.writer.room ≡ self.old.writer.room }
    {
        match self.writer.flush() {
            Ok(()) => Ok(()),
            Err(Failed) => {
                self.faults = self.faults.saturating_add(1);
                Err(Failed)
            }
        }
    }
}
