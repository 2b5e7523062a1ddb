//! A rack over what creates files by name: for real, the current folder.
ghost use Rattle.std.specs.Prelude.{◌≡◌, ◌+◌, ◌<◌, ◌≤◌, ℕ, [], true, length, take, set, get_or, Some, is_ok, if◌then◌else◌, IfOk, OnOk, OnErr};
ghost use Rattle.std.specs.Io.KnownBytes.{Keeps, WriteAppends};
ghost use Rattle.wire_spec.specs.Causes.{HasCause, RoseBy};
ghost use Rattle.wire_spec.specs.Content.{Stays, AddsFile, ChangesFile, empty_file, grown, flushed_file};
ghost use Rattle.ipe_io.specs.Counts.{HasAddCause};
ghost use Rattle.ipe_io.specs.Real.{all_put, no_file_state, AddsNewFile, AreKept, IsNewFile, told_file, told_files, unwritten};

use crate::outside::BUFFER;
use crate::rack_file::RackFile;
use crate::write_behind::zeros;
use crate::{AddFault, Creates, Failed, Folder, Rack};
use std::alloc::Global;
use std::io::ErrorKind;
use std::marker::Model;
use std::rt::Files;

/// Files that are created by name, each through a buffer of 64 KiB. It tells them where their writers tell their bytes: of the system, it
/// tells none. Each refusal of the system that is no interruption by a signal is a fault, but running out of memory in opening a file, and so
/// is each write that takes nothing of a piece that is not empty. A file takes at most 2^64 - 1 bytes; a piece with which it would have more
/// is a fault.
#[derive(Drop)]
pub struct FileRack<R: Creates + Drop> {
    system: R,
    files: Vec<RackFile<R>>,
    faults: u64,
}

impl<R: Creates + Drop> Model for FileRack<R> {
    ghost use Rattle.ipe_io.specs.Real.{FilesState};

    ghost Value = { FilesState };

    ghost view = { λ s. record { files = s.files.items; faults = s.faults } };
}

impl<R: Files + Drop> FileRack<Folder<R>> {
    /// A rack over the current folder of this system, without files.
    pub fn new(alloc: Global, system: R) -> FileRack<Folder<R>>
        ensures { (result.files ≡ []) × (result.faults ≡ 0) }
    {
        FileRack::over(alloc, Folder::of(system))
    }
}

impl<R: Creates + Drop> FileRack<R> {
    /// A rack over what this creates, without files.
    pub fn over(alloc: Global, system: R) -> FileRack<R>
        ensures { (result.files ≡ []) × (result.faults ≡ 0) }
    {
        FileRack {
            system,
            files: Vec::new(alloc),
            faults: 0,
        }
    }

    /// Writes out what all files hold back, also after one that fails; each that fails is a fault.
    pub fn flush_all(&mut self) -> Result<(), Failed>
        ensures files { AreKept self.old.files self.new.files }
        ensures counted { RoseBy self.old.faults self.new.faults (unwritten self.new.files) }
        ensures later { self.old.faults ≤ self.new.faults }
        ensures failed { OnErr result (RoseBy self.old.faults self.new.faults 1) }
        ensures written { OnOk result (unwritten self.new.files ≡ 0) }
        ensures kept { OnOk result (self.new.faults ≡ self.old.faults) }
    {
        let failed = flush_each(&mut self.files);
        self.faults = self.faults.saturating_add(failed);
        if failed == 0 { Ok(()) } else { Err(Failed) }
    }

    // Adds a file, and counts no fault.
    fn open(&mut self, alloc: Global, name: &str) -> Result<u32, AddFault>
        ensures place { IfOk result (λ at. at ≡ length self.old.files) }
        ensures created { OnOk result (AddsNewFile name.now (R.Created name.now) self.old.files self.new.files) }
        ensures written { OnOk result (AddsFile (told_files R.tells self.old.files) (told_files R.tells self.new.files) (empty_file name.now)) }
        ensures unchanged { OnErr result (self.new.files ≡ self.old.files) }
        ensures kept { self.new.faults ≡ self.old.faults }
    {
        let Ok(place) = u32::try_from(self.files.len()) else {
            return Err(AddFault::Failed);
        };
        self.files.reserve(1)?;
        let file = create_behind(&self.system, alloc, name)?;
        self.files.push_reserved(file);
        Ok(place)
    }
}

// Flushes each file, and answers how many flushes failed.
fn flush_each<R: Creates>(files: &mut [RackFile<R>]) -> u64
    ensures most { result ≤ length files.old }
    ensures files { AreKept files.old files.new }
    ensures counted { unwritten files.new ≤ result }
{
    let mut failed: u64 = 0;
    for at in 0..files.len() {
        if files[at].flush().is_err() {
            failed += 1;
        }
    }
    failed
}

// Takes the memory of a buffer, and creates the file behind it.
fn create_behind<R: Creates>(system: &R, alloc: Global, name: &str) -> Result<RackFile<R>, AddFault>
    ensures new { IfOk result (λ file. IsNewFile name.now (R.Created name.now) file) }
    ensures told { R.tells ≡ true → IfOk result (λ file. told_file file ≡ empty_file name.now) }
{
    let buffer = zeros(alloc, BUFFER)?;
    let own = String::from_str(alloc, name)?;
    let file = create(system, name)?;
    Ok(RackFile::over(own, file, buffer))
}

// Creates a file, or empties it.
fn create<R: Creates>(system: &R, name: &str) -> Result<R::Writer, AddFault>
    ensures empty { R.tells ≡ true → IfOk result (λ writer. R.Writer.contents writer ≡ Some []) }
    ensures created { IfOk result (λ writer. R.Created name.now (R.Writer.contents writer)) }
{
    match system.create(name) {
        Ok(file) => Ok(file),
        Err(e) if e.kind() == ErrorKind::OutOfMemory => Err(AddFault::OutOfMemory),
        Err(_) => Err(AddFault::Failed),
    }
}

impl<R: Creates + Drop> Rack for FileRack<R> {
    ghost use Rattle.std.specs.Prelude.{length};
    ghost use Rattle.ipe_io.specs.Real.{told_files};

    ghost told = { λ s. record { count = length s.files; files = told_files R.tells s.files; faults = s.faults } };

    /// Takes all memory first, and then creates the file, or empties it.
    fn add(&mut self, alloc: Global, name: &str) -> Result<u32, AddFault>
        ensures place { IfOk result (λ at. at ≡ length self.old.files) }
        ensures count { length self.new.files ≡ (if is_ok result then length self.old.files + 1 else length self.old.files) }
        ensures created { OnOk result (AddsNewFile name.now (R.Created name.now) self.old.files self.new.files) }
        ensures written { OnOk result (AddsFile (told_files R.tells self.old.files) (told_files R.tells self.new.files) (empty_file name.now)) }
        ensures unchanged { OnErr result (self.new.files ≡ self.old.files) }
        ensures told_unchanged { OnErr result (Stays (told_files R.tells self.old.files) (told_files R.tells self.new.files)) }
        ensures cause { HasAddCause self.old.faults self.new.faults result }
    {
        match self.open(alloc, name) {
            Err(AddFault::Failed) => {
                self.faults = self.faults.saturating_add(1);
                Err(AddFault::Failed)
            }
            added => added,
        }
    }

    /// What the file holds back and what it wrote out are together what was put, in order. No other file changes.
    fn write(&mut self, at: u32, piece: &[u8]) -> Result<usize, Failed>
        requires { at < length self.old.files }
        ensures bound { IfOk result (λ n. n ≤ length piece.now) }
        ensures some { IfOk result (λ n. 0 < length piece.now → 0 < n) }
        ensures told { IfOk result (λ n. ChangesFile (told_files R.tells self.old.files) (told_files R.tells self.new.files) at (λ file. grown file (take n piece.now))) }
        ensures unchanged { OnErr result (Stays (told_files R.tells self.old.files) (told_files R.tells self.new.files)) }
        ensures written { WriteAppends (all_put (get_or self.old.files at no_file_state).writer) (all_put (get_or self.new.files at no_file_state).writer) result piece.now }
        ensures others { self.new.files ≡ set self.old.files at (get_or self.new.files at no_file_state) }
        ensures count { length self.new.files ≡ length self.old.files }
        ensures cause { HasCause self.old.faults self.new.faults result }
    {
        match self.files[at as usize].write(piece) {
            Ok(count) => Ok(count),
            Err(Failed) => {
                self.faults = self.faults.saturating_add(1);
                Err(Failed)
            }
        }
    }

    /// Writes out what the file holds back. No other file changes.
    fn flush(&mut self, at: u32) -> Result<(), Failed>
        requires { at < length self.old.files }
        ensures told { OnOk result (ChangesFile (told_files R.tells self.old.files) (told_files R.tells self.new.files) at flushed_file) }
        ensures unchanged { OnErr result (Stays (told_files R.tells self.old.files) (told_files R.tells self.new.files)) }
        ensures empty { OnOk result ((get_or self.new.files at no_file_state).writer.waiting ≡ []) }
        ensures kept { Keeps (all_put (get_or self.old.files at no_file_state).writer) (all_put (get_or self.new.files at no_file_state).writer) }
        ensures others { self.new.files ≡ set self.old.files at (get_or self.new.files at no_file_state) }
        ensures count { length self.new.files ≡ length self.old.files }
        ensures cause { HasCause self.old.faults self.new.faults result }
    {
        match self.files[at as usize].flush() {
            Ok(()) => Ok(()),
            Err(_) => {
                self.faults = self.faults.saturating_add(1);
                Err(Failed)
            }
        }
    }

    ghost use Rattle.ipe_io.specs.RackLaw.{as_many_told};

    ghost as_many = { λ s. as_many_told R.tells s.files };
}
