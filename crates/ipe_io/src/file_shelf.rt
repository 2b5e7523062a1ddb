//! A shelf over what opens files by name: for real, the current folder.
ghost use Rattle.std.specs.Prelude.{◌≡◌, ◌≢◌, ◌<◌, ◌≤◌, ℕ, List, [], ◌∷◌, ◌++◌, length, Some, None, IfSome, IfOk, OnErr, IsErrOf, MatchOption};
ghost use Rattle.wire_spec.specs.Content.{Stays};
ghost use Rattle.ipe_io.specs.Counts.{HasLoadCause, longest_file};
ghost use Rattle.ipe_io.specs.Memory.{shelved};
ghost use Rattle.ipe_io.specs.Real.{IsAllOf, IsLonger, bytes_in};

use crate::outside::LONGEST_FILE;
use crate::shelved_file::ShelvedFile;
use crate::{Folder, LoadFault, Opens, Shelf};
use std::alloc::Global;
use std::io::{ErrorKind, Read};
use std::marker::Model;
use std::rt::Files;

// The bytes of a file that are read at once: most files are small.
const PIECE: usize = 4096;

/// The files that are opened by name. It tells the bytes of those that were loaded, and no others: it keeps a copy of them, at most
/// 1 MiB of each, and reads no file twice. Each refusal of the system is a fault, but running out of memory in opening a file. One
/// count serves all names.
#[derive(Drop)]
pub struct FileShelf<R: Opens + Drop> {
    system: R,
    loaded: Vec<ShelvedFile>,
    faults: u64,
}

// It is seen as what was loaded, and its count of faults.
impl<R: Opens + Drop> Model for FileShelf<R> {
    ghost use Rattle.ipe_io.specs.Real.{AreOpened, LoadedState};

    ghost Value = { LoadedState };

    ghost view = { λ s. record { loaded = s.loaded.items; faults = s.faults } };

    ghost invariant = { λ s. AreOpened R.Opened s.loaded.items };
}

impl<R: Files + Drop> FileShelf<Folder<R>> {
    /// A shelf over the current folder of this system, of which no file was loaded.
    pub fn new(alloc: Global, system: R) -> FileShelf<Folder<R>>
        ensures { (result.loaded ≡ []) × (result.faults ≡ 0) }
    {
        FileShelf::over(alloc, Folder::of(system))
    }
}

impl<R: Opens + Drop> FileShelf<R> {
    /// A shelf over what this opens, of which nothing was loaded.
    pub fn over(alloc: Global, system: R) -> FileShelf<R>
        ensures { (result.loaded ≡ []) × (result.faults ≡ 0) }
    {
        FileShelf {
            system,
            loaded: Vec::new(alloc),
            faults: 0,
        }
    }

    /// How many files were loaded. What it tells of each is all that was opened under its name.
    pub fn loaded(&self) -> usize
        ensures count { result ≡ length self.now.loaded }
        ensures opened { (name : List ℕ) → IfSome (bytes_in self.now.loaded name) (λ bytes. IsAllOf (R.Opened name) bytes) }
    {
        self.loaded.len()
    }

    // Loads a file that was not loaded before, and keeps a copy. It counts no fault.
    fn keep(&mut self, alloc: Global, name: &str) -> Result<Vec<u8>, LoadFault>
        ensures read { IfOk result (λ bytes. self.new.loaded ≡ self.old.loaded ++ shelved name.now bytes.items 0 ∷ []) }
        ensures short { IfOk result (λ bytes. length bytes.items ≤ longest_file) }
        ensures opened { IfOk result (λ bytes. IsAllOf (R.Opened name.now) bytes.items) }
        ensures too_long { IsErrOf result LoadFault.TooLong → IsLonger (R.Opened name.now) longest_file }
        ensures unchanged { OnErr result (self.new.loaded ≡ self.old.loaded) }
        ensures kept { self.new.faults ≡ self.old.faults }
    {
        self.loaded.reserve(1)?;
        let bytes = match load_from(&self.system, alloc, name) {
            Ok(bytes) => bytes,
            Err(fault) => return Err(fault),
        };
        let file = ShelvedFile::new(alloc, name, &bytes, 0)?;
        self.loaded.push_reserved(file);
        Ok(bytes)
    }
}

impl<R: Opens + Drop> Shelf for FileShelf<R> {
    ghost use Rattle.ipe_io.specs.Real.{bytes_in};

    ghost told = { λ s. record { file = bytes_in s.loaded; faults = λ name. s.faults } };

    /// It reads a file that was not loaded before to its end.
    fn load(&mut self, alloc: Global, name: &str) -> Result<Vec<u8>, LoadFault>
        ensures read { IfOk result (λ bytes. bytes_in self.new.loaded name.now ≡ Some bytes.items) }
        ensures short { IfOk result (λ bytes. length bytes.items ≤ longest_file) }
        ensures opened { bytes_in self.old.loaded name.now ≡ None → IfOk result (λ bytes. IsAllOf (R.Opened name.now) bytes.items) }
        ensures longer { bytes_in self.old.loaded name.now ≡ None → IsErrOf result LoadFault.TooLong → IsLonger (R.Opened name.now) longest_file }
        ensures too_long { IsErrOf result LoadFault.TooLong → IfSome (bytes_in self.new.loaded name.now) (λ held. longest_file < length held) }
        ensures unchanged { (other : List ℕ) → Stays (bytes_in self.old.loaded other) (bytes_in self.new.loaded other) }
        ensures others { (other : List ℕ) → other ≢ name.now → bytes_in self.new.loaded other ≡ bytes_in self.old.loaded other }
        ensures cause { HasLoadCause self.old.faults self.new.faults result }
        ensures kept { ¬ IsErrOf result LoadFault.Failed → self.new.faults ≡ self.old.faults }
    {
        match find(&self.loaded, name) {
            Some(bytes) => return copy_of(alloc, bytes),
            None => {}
        }
        match self.keep(alloc, name) {
            Err(LoadFault::Failed) => {
                self.faults = self.faults.saturating_add(1);
                Err(LoadFault::Failed)
            }
            loaded => loaded,
        }
    }
}

// The bytes of the first file of a name.
fn find<'f>(files: &'f [ShelvedFile], name: &str) -> Option<&'f [u8]>
    ensures { MatchOption result (bytes_in files.now name.now ≡ None) (λ bytes. bytes_in files.now name.now ≡ Some bytes.now) }
{
    for at in 0..files.len() {
        if files[at].has_name(name) {
            return Some(files[at].bytes());
        }
    }
    None
}

// A copy of bytes that were loaded.
fn copy_of(alloc: Global, bytes: &[u8]) -> Result<Vec<u8>, LoadFault>
    ensures read { IfOk result (λ copy. (copy.items ≡ bytes.now) × (length bytes.now ≤ longest_file)) }
    ensures too_long { IsErrOf result LoadFault.TooLong → longest_file < length bytes.now }
    ensures no_fault { ¬ IsErrOf result LoadFault.Failed }
{
    if bytes.len() > LONGEST_FILE {
        return Err(LoadFault::TooLong);
    }
    Ok(Vec::from_slice(alloc, bytes)?)
}

// The bytes of a file.
fn load_from<R: Opens>(system: &R, alloc: Global, name: &str) -> Result<Vec<u8>, LoadFault>
    ensures short { IfOk result (λ bytes. length bytes.items ≤ longest_file) }
    ensures opened { IfOk result (λ bytes. IsAllOf (R.Opened name.now) bytes.items) }
    ensures too_long { IsErrOf result LoadFault.TooLong → IsLonger (R.Opened name.now) longest_file }
{
    match system.open(name) {
        Ok(mut file) => read_whole(alloc, &mut file),
        Err(e) if e.kind() == ErrorKind::OutOfMemory => Err(LoadFault::OutOfMemory),
        Err(_) => Err(LoadFault::Failed),
    }
}

// All bytes of a reader.
fn read_whole<R: Read>(alloc: Global, reader: &mut R) -> Result<Vec<u8>, LoadFault>
    ensures short { IfOk result (λ bytes. length bytes.items ≤ longest_file) }
    ensures read { IfOk result (λ bytes. IfSome (R.remaining reader.old) (λ left. bytes.items ≡ left)) }
    ensures too_long { IsErrOf result LoadFault.TooLong → IfSome (R.remaining reader.old) (λ left. longest_file < length left) }
{
    let mut bytes = Vec::new(alloc);
    let mut piece = [0; PIECE];
    while bytes.len() <= LONGEST_FILE {
        match reader.read(&mut piece) {
            Ok(0) => return Ok(bytes),
            Ok(count) => bytes.extend_from_slice(&piece[..count])?,
            Err(_) => return Err(LoadFault::Failed),
        }
    }
    Err(LoadFault::TooLong)
}
