//! A rack over memory.
ghost use Rattle.std.specs.Prelude.{◌≡◌, ◌↔◌, ℕ, ◌+◌, ◌-◌, ◌^◌, ◌<◌, ◌≤◌, ◌⊎◌, [], ◌∷◌, ◌++◌, length, take, get_or, set, Some, IfOk, OnOk, OnErr, IsErr, IsErrOf, is_ok, if◌then◌else◌, refl};
ghost use Rattle.wire_spec.specs.Causes.{HasCause, raised};
ghost use Rattle.wire_spec.specs.Content.{no_file, empty_file, grown, flushed_file};
ghost use Rattle.ipe_io.specs.Counts.{HasAddCause};
ghost use Rattle.ipe_io.specs.Memory.{IsListed, IsFull, fitting, first_call, next_call};

use crate::failing_calls::FailingCalls;
use crate::mem_file::MemFile;
use crate::{AddFault, Failed, Rack};
use std::alloc::{AllocError as OutOfMemory, Global};
use std::marker::Model;

/// Up to `files` files in memory, each with the same room, taken at once. The calls whose numbers, from 0, are
/// listed fail; one number counts the calls of all three kinds.
#[derive(Drop)]
pub struct MemRack {
    files: Vec<MemFile>,
    used: u32,
    room: usize,
    calls: FailingCalls,
    faults: u64,
}

impl Model for MemRack {
    ghost use Rattle.std.specs.Prelude.{◌≡◌, ◌^◌, ◌<◌, ◌≤◌, length, take, All};
    ghost use Rattle.ipe_io.specs.Memory.{RackState, files_of};

    ghost Value = { RackState };

    ghost view = { λ s. record { files = files_of (take s.used s.files.items); places = length s.files.items; room = s.room; calls = s.calls; faults = s.faults } };

    ghost invariant = { λ s. (s.used ≤ length s.files.items) × (length s.files.items < 2 ^ 32) × All (λ f. f.room ≡ s.room) s.files.items };
}

impl MemRack {
    /// An empty rack for this many files of this room.
    pub fn new(
        alloc: Global,
        files: u32,
        room: usize,
        fails: &[u32],
    ) -> Result<MemRack, OutOfMemory>
        ensures files { IfOk result (λ s. (s.files ≡ []) × (s.places ≡ files) × (s.room ≡ room)) }
        ensures counts { IfOk result (λ s. (s.calls ≡ first_call fails.now) × (s.faults ≡ 0)) }
    {
        let mut all = Vec::new(alloc);
        for _ in 0..files {
            all.push(MemFile::new(alloc, room)?)?;
        }
        Ok(MemRack {
            files: all,
            used: 0,
            room,
            calls: FailingCalls::new(alloc, fails)?,
            faults: 0,
        })
    }

    /// How many files were added.
    pub fn files(&self) -> u32
        ensures { result ≡ length self.now.files }
    {
        self.used
    }

    /// The name of the file at a place.
    pub fn name(&self, at: u32) -> &str
        requires { at < length self.now.files }
        ensures { result.now ≡ (get_or self.now.files at no_file).name }
    {
        self.files[at as usize].name()
    }

    /// The bytes of the file at a place.
    pub fn file(&self, at: u32) -> &[u8]
        requires { at < length self.now.files }
        ensures { result.now ≡ (get_or self.now.files at no_file).bytes }
    {
        self.files[at as usize].bytes()
    }

    /// How many bytes of the file at a place were flushed.
    pub fn flushed(&self, at: u32) -> usize
        requires { at < length self.now.files }
        ensures { result ≡ (get_or self.now.files at no_file).flushed }
    {
        self.files[at as usize].flushed()
    }

    /// How often it has failed, a counter that stands still at 2^64 - 1.
    pub fn faults(&self) -> u64
        ensures { result ≡ self.now.faults }
    {
        self.faults
    }
}

impl Rack for MemRack {
    ghost use Rattle.std.specs.Prelude.{Some, length, refl};

    ghost told = { λ s. record { count = length s.files; files = Some s.files; faults = s.faults } };

    /// Adds an empty file where one is unused. It fails where none is, and can be out of memory for the name.
    fn add(&mut self, alloc: Global, name: &str) -> Result<u32, AddFault>
        ensures place { IfOk result (λ at. at ≡ length self.old.files) }
        ensures written { OnOk result (self.new.files ≡ self.old.files ++ empty_file name.now ∷ []) }
        ensures unchanged { OnErr result (self.new.files ≡ self.old.files) }
        ensures failed { IsErrOf result AddFault.Failed ↔ (IsListed self.old.calls ⊎ (self.old.places ≤ length self.old.files)) }
        ensures cause { HasAddCause self.old.faults self.new.faults result }
        ensures faults { IsErrOf result AddFault.Failed → self.new.faults ≡ raised self.old.faults 1 }
        ensures no_fault { (IsErrOf result AddFault.Failed → ⊥) → self.new.faults ≡ self.old.faults }
        ensures calls { self.new.calls ≡ next_call self.old.calls }
        ensures kept { (self.new.places ≡ self.old.places) × (self.new.room ≡ self.old.room) }
    {
        let listed = self.calls.count();
        if listed || self.used as usize >= self.files.len() {
            self.faults = self.faults.saturating_add(1);
            return Err(AddFault::Failed);
        }
        let name = String::from_str(alloc, name)?;
        let place = self.used;
        self.files[place as usize].begin(name);
        self.used += 1;
        Ok(place)
    }

    /// Takes as much of the piece as its file has room for. A piece that is not empty and finds no room is a fault.
    fn write(&mut self, at: u32, piece: &[u8]) -> Result<usize, Failed>
        requires { at < length self.old.files }
        ensures bound { IfOk result (λ n. n ≤ length piece.now) }
        ensures some { IfOk result (λ n. 0 < length piece.now → 0 < n) }
        ensures written { IfOk result (λ n. self.new.files ≡ set self.old.files at (grown (get_or self.old.files at no_file) (take n piece.now))) }
        ensures count { IfOk result (λ n. n ≡ fitting self.old.room (get_or self.old.files at no_file).bytes piece.now) }
        ensures unchanged { OnErr result (self.new.files ≡ self.old.files) }
        ensures failed { IsErr result ↔ (IsListed self.old.calls ⊎ IsFull self.old.room (get_or self.old.files at no_file).bytes piece.now) }
        ensures cause { HasCause self.old.faults self.new.faults result }
        ensures faults { self.new.faults ≡ (if is_ok result then self.old.faults else raised self.old.faults 1) }
        ensures calls { self.new.calls ≡ next_call self.old.calls }
        ensures kept { (self.new.places ≡ self.old.places) × (self.new.room ≡ self.old.room) }
    {
        let listed = self.calls.count();
        if listed || self.files[at as usize].is_full(piece) {
            self.faults = self.faults.saturating_add(1);
            return Err(Failed);
        }
        Ok(self.files[at as usize].append(piece))
    }

    /// Flushes all bytes of one file.
    fn flush(&mut self, at: u32) -> Result<(), Failed>
        requires { at < length self.old.files }
        ensures flushed { OnOk result (self.new.files ≡ set self.old.files at (flushed_file (get_or self.old.files at no_file))) }
        ensures unchanged { OnErr result (self.new.files ≡ self.old.files) }
        ensures failed { IsErr result ↔ IsListed self.old.calls }
        ensures cause { HasCause self.old.faults self.new.faults result }
        ensures faults { self.new.faults ≡ (if is_ok result then self.old.faults else raised self.old.faults 1) }
        ensures calls { self.new.calls ≡ next_call self.old.calls }
        ensures kept { (self.new.places ≡ self.old.places) × (self.new.room ≡ self.old.room) }
    {
        if self.calls.count() {
            self.faults = self.faults.saturating_add(1);
            return Err(Failed);
        }
        self.files[at as usize].flush();
        Ok(())
    }

    ghost as_many = { λ s. refl };
}
