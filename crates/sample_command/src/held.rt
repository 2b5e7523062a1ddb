//! A sink over memory that grows: a stream in, its bytes to be read again.
ghost use Rattle.std.specs.Prelude.{◌≡◌, []};

use ipe_io::{Failed, Sink};
use std::alloc::Global;
use std::marker::Model;

/// What was written. It fails where there is no memory for a piece, and for no other reason.
#[derive(Drop)]
pub(crate) struct Held {
    bytes: Vec<u8>,
    faults: u64,
}

impl Model for Held {
    ghost use Rattle.sample_command.specs.Held.{HeldState};

    ghost Value = { HeldState };

    ghost view = { λ held. record { bytes = held.bytes.items; faults = held.faults } };
}

impl Held {
    /// Nothing was written.
    pub(crate) fn new(alloc: Global) -> Held
        ensures { (result.bytes ≡ []) × (result.faults ≡ 0) }
    {
        Held {
            bytes: Vec::new(alloc),
            faults: 0,
        }
    }

    /// All that was written.
    pub(crate) fn bytes(&self) -> &[u8]
        ensures { result.now ≡ self.now.bytes }
    {
        &self.bytes
    }
}

impl Sink for Held {
    ghost use Rattle.std.specs.Prelude.{Some, None};

    ghost told = { λ held. record { held = Some held.bytes; flushed = None; faults = held.faults } };

    /// Takes the whole piece.
    fn write(&mut self, piece: &[u8]) -> Result<usize, Failed> {
        match self.bytes.extend_from_slice(piece) {
            Ok(()) => Ok(piece.len()),
            Err(_) => {
                self.faults = self.faults.saturating_add(1);
                Err(Failed)
            }
        }
    }

    /// Nothing is held back.
    fn flush(&mut self) -> Result<(), Failed> {
        Ok(())
    }
}
