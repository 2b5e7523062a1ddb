//! A file of a shelf in memory.
ghost use Rattle.std.specs.Prelude.{◌≡◌, ◌≤◌, length, IfOk, bytes_eq};
ghost use Rattle.ipe_io.specs.Memory.{shelved, failed_once};

use std::alloc::{AllocError as OutOfMemory, Global};
use std::marker::Model;

/// A file: its name, its bytes, and how often it has failed.
#[derive(Drop)]
pub struct ShelvedFile {
    name: String,
    bytes: Vec<u8>,
    faults: u64,
}

impl Model for ShelvedFile {
    ghost use Rattle.std.specs.Prelude.{string_bytes};
    ghost use Rattle.ipe_io.specs.Memory.{Shelved};

    ghost Value = { Shelved };

    ghost view = { λ f. record { name = string_bytes f.name; bytes = f.bytes.items; faults = f.faults } };
}

impl ShelvedFile {
    /// A file of this name and these bytes.
    pub fn new(
        alloc: Global,
        name: &str,
        bytes: &[u8],
        faults: u64,
    ) -> Result<ShelvedFile, OutOfMemory>
        ensures { IfOk result (λ f. f ≡ shelved name.now bytes.now faults) }
    {
        Ok(ShelvedFile {
            name: String::from_str(alloc, name)?,
            bytes: Vec::from_slice(alloc, bytes)?,
            faults,
        })
    }

    /// Whether that is its name.
    pub fn has_name(&self, name: &str) -> bool
        ensures { result ≡ bytes_eq self.now.name name.now }
    {
        self.name.as_str() == name
    }

    /// The bytes.
    pub fn bytes(&self) -> &[u8]
        ensures { result.now ≡ self.now.bytes }
    {
        &self.bytes
    }

    /// How often it has failed.
    pub fn faults(&self) -> u64
        ensures { result ≡ self.now.faults }
    {
        self.faults
    }

    /// Counts one fault.
    pub fn fail(&mut self)
        ensures failed { self.new ≡ failed_once self.old }
        ensures later { self.old.faults ≤ self.new.faults }
    {
        self.faults = self.faults.saturating_add(1);
    }
}
