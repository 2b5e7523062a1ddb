//! A file in memory, with a room that is taken at once: the one of a sink, or one of a rack.
ghost use Rattle.std.specs.Prelude.{◌≡◌, ◌↔◌, ℕ, ◌+◌, ◌-◌, ◌<◌, ◌≤◌, length, take, string_bytes, IfOk, IsTrue};
ghost use Rattle.wire_spec.specs.Content.{no_file, empty_file, grown, flushed_file};
ghost use Rattle.ipe_io.specs.Memory.{IsFull, fitting};

use std::alloc::{AllocError as OutOfMemory, Global};
use std::marker::Model;

/// A file in memory: its name, its bytes, how many of them were flushed, and how many it takes in all.
#[derive(Drop)]
pub struct MemFile {
    name: String,
    bytes: Vec<u8>,
    flushed: usize,
    room: usize,
}

impl Model for MemFile {
    ghost use Rattle.std.specs.Prelude.{◌≤◌, string_bytes, vec_capacity};
    ghost use Rattle.ipe_io.specs.Memory.{Stored};

    ghost Value = { Stored };

    ghost view = { λ f. record { file = record { name = string_bytes f.name; bytes = f.bytes.items; flushed = f.flushed }; room = f.room } };

    ghost invariant = { λ f. f.room ≤ vec_capacity f.bytes };
}

impl MemFile {
    /// An empty file without a name, whose room is taken.
    pub fn new(alloc: Global, room: usize) -> Result<MemFile, OutOfMemory>
        ensures { IfOk result (λ f. (f.file ≡ no_file) × (f.room ≡ room)) }
    {
        Ok(MemFile {
            name: String::new(alloc),
            bytes: Vec::with_capacity(alloc, room)?,
            flushed: 0,
            room,
        })
    }

    /// The name.
    pub fn name(&self) -> &str
        ensures { result.now ≡ self.now.file.name }
    {
        self.name.as_str()
    }

    /// The bytes.
    pub fn bytes(&self) -> &[u8]
        ensures { result.now ≡ self.now.file.bytes }
    {
        &self.bytes
    }

    /// How many bytes were flushed.
    pub fn flushed(&self) -> usize
        ensures { result ≡ self.now.file.flushed }
    {
        self.flushed
    }

    /// Empties the file, and names it.
    pub fn begin(&mut self, name: String)
        ensures file { self.new.file ≡ empty_file (string_bytes name) }
        ensures room { self.new.room ≡ self.old.room }
    {
        self.name = name;
        self.bytes.clear();
        self.flushed = 0;
    }

    /// Whether it has no room for a piece that is not empty.
    pub fn is_full(&self, piece: &[u8]) -> bool
        ensures { IsTrue result ↔ IsFull self.now.room self.now.file.bytes piece.now }
    {
        !piece.is_empty() && self.room <= self.bytes.len()
    }

    /// Appends what there is room for, and answers how much that was.
    pub fn append(&mut self, piece: &[u8]) -> usize
        ensures count { result ≡ fitting self.old.room self.old.file.bytes piece.now }
        ensures bytes { self.new.file ≡ grown self.old.file (take result piece.now) }
        ensures room { self.new.room ≡ self.old.room }
    {
        if self.bytes.len() >= self.room {
            return 0;
        }
        let count = piece.len().min(self.room - self.bytes.len());
        match self.bytes.extend_from_slice(&piece[..count]) {
            Ok(()) => count,
            Err(_) => unreachable!(),
        }
    }

    /// Flushes all bytes.
    pub fn flush(&mut self)
        ensures file { self.new.file ≡ flushed_file self.old.file }
        ensures room { self.new.room ≡ self.old.room }
    {
        self.flushed = self.bytes.len();
    }
}
