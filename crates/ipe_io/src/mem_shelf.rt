//! A shelf over memory.
ghost use Rattle.std.specs.Prelude.{◌≡◌, ◌≢◌, ◌↔◌, ℕ, ◌+◌, ◌-◌, ◌^◌, ◌<◌, ◌≤◌, ◌⊎◌, List, length, None, Some, IfOk, IfSome, OnOk, OnErr, IsErrOf, MatchOption, IsTrue, bytes_eq, if◌then◌else◌};
ghost use Rattle.wire_spec.specs.Causes.{raised};
ghost use Rattle.ipe_io.specs.Counts.{HasLoadCause, longest_file};
ghost use Rattle.ipe_io.specs.Memory.{IsListed, first_call, next_call, shelved, failed_for, called, file_of, bytes_of, faults_of};

use crate::failing_calls::FailingCalls;
use crate::outside::LONGEST_FILE;
use crate::shelved_file::ShelvedFile;
use crate::{LoadFault, Shelf};
use std::alloc::{AllocError as OutOfMemory, Global};
use std::marker::Model;

/// One file in memory, or two. The loads whose numbers, from 0, are listed fail, and so does each of another name.
/// Faults are counted apart for each file's name and for all other names together.
#[derive(Drop)]
pub struct MemShelf {
    first: ShelvedFile,
    second: Option<ShelvedFile>,
    others: u64,
    calls: FailingCalls,
}

impl Model for MemShelf {
    ghost use Rattle.ipe_io.specs.Memory.{ShelfState};

    ghost Value = { ShelfState };

    ghost view = { λ s. record { first = s.first; second = s.second; others = s.others; calls = s.calls } };
}

impl MemShelf {
    /// A shelf with one file.
    pub fn new(
        alloc: Global,
        name: &str,
        bytes: &[u8],
        fails: &[u32],
    ) -> Result<MemShelf, OutOfMemory>
        ensures files { IfOk result (λ s. (s.first ≡ shelved name.now bytes.now 0) × (s.second ≡ None)) }
        ensures counts { IfOk result (λ s. (s.others ≡ 0) × (s.calls ≡ first_call fails.now)) }
    {
        Ok(MemShelf {
            first: ShelvedFile::new(alloc, name, bytes, 0)?,
            second: None,
            others: 0,
            calls: FailingCalls::new(alloc, fails)?,
        })
    }

    /// Adds a second file, of another name. Its count of faults begins where that of all other names stands.
    pub fn also(&mut self, alloc: Global, name: &str, bytes: &[u8]) -> Result<(), OutOfMemory>
        requires one { self.old.second ≡ None }
        requires another { name.now ≢ self.old.first.name }
        ensures written { OnOk result (self.new.second ≡ Some (shelved name.now bytes.now self.old.others)) }
        ensures unchanged { OnErr result (self.new.second ≡ None) }
        ensures kept { (self.new.first ≡ self.old.first) × (self.new.others ≡ self.old.others) × (self.new.calls ≡ self.old.calls) }
    {
        self.second = Some(ShelvedFile::new(alloc, name, bytes, self.others)?);
        Ok(())
    }

    /// How often a name has failed, a counter that stands still at 2^64 - 1.
    pub fn faults(&self, name: &str) -> u64
        ensures { result ≡ faults_of self.now name.now }
    {
        match self.find(name) {
            Some(file) => file.faults(),
            None => self.others,
        }
    }

    // The file of a name.
    fn find(&self, name: &str) -> Option<&ShelvedFile>
        ensures { MatchOption result (file_of self.now name.now ≡ None) (λ file. file_of self.now name.now ≡ Some file.now) }
    {
        if self.first.has_name(name) {
            return Some(&self.first);
        }
        match &self.second {
            Some(file) if file.has_name(name) => Some(file),
            _ => None,
        }
    }

    // A file's bytes, unless the call is to fail. It counts no fault.
    fn read(&self, alloc: Global, name: &str, fails: bool) -> Result<Vec<u8>, LoadFault>
        ensures read { IfOk result (λ bytes. bytes_of self.now name.now ≡ Some bytes.items) }
        ensures short { IfOk result (λ bytes. length bytes.items ≤ longest_file) }
        ensures failed { IsErrOf result LoadFault.Failed ↔ (IsTrue fails ⊎ (file_of self.now name.now ≡ None)) }
        ensures too_long { IsErrOf result LoadFault.TooLong → IfSome (bytes_of self.now name.now) (λ told. longest_file < length told) }
    {
        let Some(file) = self.find(name) else {
            return Err(LoadFault::Failed);
        };
        if fails {
            return Err(LoadFault::Failed);
        }
        if file.bytes().len() > LONGEST_FILE {
            return Err(LoadFault::TooLong);
        }
        Ok(Vec::from_slice(alloc, file.bytes())?)
    }

    // Counts one fault of a name.
    fn fail(&mut self, name: &str)
        ensures failed { self.new ≡ failed_for name.now self.old }
        ensures later { (other : List ℕ) → faults_of self.old other ≤ faults_of self.new other }
    {
        if self.first.has_name(name) {
            self.first.fail();
            return;
        }
        if let Some(file) = &mut self.second {
            if file.has_name(name) {
                file.fail();
                return;
            }
        }
        self.others = self.others.saturating_add(1);
    }
}

impl Shelf for MemShelf {
    ghost use Rattle.ipe_io.specs.Memory.{bytes_of, faults_of};

    ghost told = { λ s. record { file = bytes_of s; faults = faults_of s } };

    /// Answers a file's bytes. The load of another name fails.
    fn load(&mut self, alloc: Global, name: &str) -> Result<Vec<u8>, LoadFault>
        ensures read { IfOk result (λ bytes. bytes_of self.old name.now ≡ Some bytes.items) }
        ensures short { IfOk result (λ bytes. length bytes.items ≤ longest_file) }
        ensures failed { IsErrOf result LoadFault.Failed ↔ (IsListed self.old.calls ⊎ (file_of self.old name.now ≡ None)) }
        ensures too_long { IsErrOf result LoadFault.TooLong → IfSome (bytes_of self.old name.now) (λ told. longest_file < length told) }
        ensures unchanged { (other : List ℕ) → bytes_of self.new other ≡ bytes_of self.old other }
        ensures cause { HasLoadCause (faults_of self.old name.now) (faults_of self.new name.now) result }
        ensures later { (other : List ℕ) → faults_of self.old other ≤ faults_of self.new other }
        ensures kept { ¬ IsErrOf result LoadFault.Failed → (other : List ℕ) → faults_of self.new other ≡ faults_of self.old other }
        ensures fault { IsErrOf result LoadFault.Failed → self.new ≡ failed_for name.now (called self.old) }
        ensures no_fault { (IsErrOf result LoadFault.Failed → ⊥) → self.new ≡ called self.old }
    {
        let listed = self.calls.count();
        match self.read(alloc, name, listed) {
            Err(LoadFault::Failed) => {
                self.fail(name);
                Err(LoadFault::Failed)
            }
            loaded => loaded,
        }
    }
}
