//! The traits: what an object may tell of its content, how often it has failed, and what each call does to both.
ghost use Rattle.std.specs.Prelude.{◌≡◌, ◌≢◌, ℕ, ◌+◌, ◌-◌, ◌*◌, ◌^◌, ◌<◌, ◌≤◌, Bool, List, [], ◌∷◌, ◌++◌, length, take, Option, None, Some, is_ok, IfOk, OnOk, OnErr, IfSome, IsErrOf, if◌then◌else◌, ◌==◌};
ghost use Rattle.std.specs.Borrow.{sem};
ghost use Rattle.std.specs.Io.{ReadsAtMost};
ghost use Rattle.std.specs.Io.BufRead.{Rests};
ghost use Rattle.std.specs.Io.KnownBytes.{ReadConsumes, WriteAppends, Keeps};
ghost use Rattle.wire_spec.specs.Causes.{HasCause};
ghost use Rattle.wire_spec.specs.Content.{File, Stays, AddsFile, ChangesFile, empty_file, grown, flushed_file};
ghost use Rattle.ipe_io.specs.Told.{InputTold, OutputTold, ShelfTold, RackTold};
ghost use Rattle.ipe_io.specs.Lending.{Lends};
ghost use Rattle.ipe_io.specs.Counts.{HasAddCause, HasLoadCause, IsFlushed, taken_after, ended_after, longest_file};

use crate::{AddFault, Failed, LoadFault};
use std::alloc::Global;

/// Where bytes come from.
pub trait Source {
    /// What it tells of its bytes, and its counts.
    ghost told: { Self → InputTold };

    /// Moves the next bytes into the front of `into`, and answers how many. 0 where there is room says that the
    /// input has ended. On `Failed` nothing is taken.
    fn read(&mut self, into: &mut [u8]) -> Result<usize, Failed>
        ensures bound { ReadsAtMost result into.new }
        ensures read { ReadConsumes (told self.old).left (told self.new).left result into.new }
        ensures taken { (told self.new).taken ≡ taken_after (told self.old).taken result }
        ensures ended { (told self.new).ended ≡ ended_after (told self.old).ended (length into.new) result }
        ensures cause { HasCause (told self.old).faults (told self.new).faults result };

    /// Lends the next `size` bytes and takes them, where it has so many in hand. It reads nothing: after a None, which
    /// takes nothing, go on with `read`.
    fn lend(&mut self, size: usize) -> Option<&[u8]>
        ensures size { IfSome result (λ piece. length piece.now ≡ size) }
        ensures* after_borrow { sem 𝓛 (Rests Self.row self.entry (λ new. Lends (told self.old) (told new) result)) }
    {
        None
    }

    /// The counter of the bytes taken is one of 64 bits.
    ghost taken_fits: { (source : Self) → (told source).taken ≤ 2 ^ 64 - 1 };
}

/// Where bytes go.
pub trait Sink {
    /// What it tells of its bytes, and its count.
    ghost told: { Self → OutputTold };

    /// Appends a prefix of `piece`, and answers its length: 1 or more where the piece is not empty. On `Failed`
    /// nothing is appended.
    fn write(&mut self, piece: &[u8]) -> Result<usize, Failed>
        ensures bound { IfOk result (λ n. n ≤ length piece.now) }
        ensures some { IfOk result (λ n. 0 < length piece.now → 0 < n) }
        ensures written { WriteAppends (told self.old).held (told self.new).held result piece.now }
        ensures flushed { Stays (told self.old).flushed (told self.new).flushed }
        ensures cause { HasCause (told self.old).faults (told self.new).faults result };

    /// Flushes all bytes, and changes none.
    fn flush(&mut self) -> Result<(), Failed>
        ensures flushed { OnOk result (IsFlushed (told self.new).held (told self.new).flushed) }
        ensures kept { Keeps (told self.old).held (told self.new).held }
        ensures unchanged { OnErr result (Stays (told self.old).flushed (told self.new).flushed) }
        ensures cause { HasCause (told self.old).faults (told self.new).faults result };
}

/// Where files are loaded from by name.
pub trait Shelf {
    /// What it tells of the files that it knows, and its counts by name.
    ghost told: { Self → ShelfTold };

    /// The bytes of the file of that name, at most 1,048,576. It knows them from then on, and what it knows stays.
    fn load(&mut self, alloc: Global, name: &str) -> Result<Vec<u8>, LoadFault>
        ensures read { IfOk result (λ bytes. (told self.new).file name.now ≡ Some bytes.items) }
        ensures short { IfOk result (λ bytes. length bytes.items ≤ longest_file) }
        ensures too_long { IsErrOf result LoadFault.TooLong → IfSome ((told self.new).file name.now) (λ held. longest_file < length held) }
        ensures unchanged { (other : List ℕ) → Stays ((told self.old).file other) ((told self.new).file other) }
        ensures others { (other : List ℕ) → other ≢ name.now → (told self.new).file other ≡ (told self.old).file other }
        ensures cause { HasLoadCause ((told self.old).faults name.now) ((told self.new).faults name.now) result }
        ensures later { (other : List ℕ) → (told self.old).faults other ≤ (told self.new).faults other }
        ensures kept { ¬ IsErrOf result LoadFault.Failed → (other : List ℕ) → (told self.new).faults other ≡ (told self.old).faults other };
}

/// Where files are added and written.
pub trait Rack {
    /// What it tells of its files, and its counts.
    ghost told: { Self → RackTold };

    /// Adds an empty file of that name, and answers its place: the number of files added before. After an Err no
    /// file was added.
    fn add(&mut self, alloc: Global, name: &str) -> Result<u32, AddFault>
        ensures place { IfOk result (λ at. at ≡ (told self.old).count) }
        ensures count { (told self.new).count ≡ (if is_ok result then (told self.old).count + 1 else (told self.old).count) }
        ensures written { OnOk result (AddsFile (told self.old).files (told self.new).files (empty_file name.now)) }
        ensures unchanged { OnErr result (Stays (told self.old).files (told self.new).files) }
        ensures cause { HasAddCause (told self.old).faults (told self.new).faults result };

    /// Appends a prefix of `piece` to the file at a place, as [Sink] does.
    fn write(&mut self, at: u32, piece: &[u8]) -> Result<usize, Failed>
        requires { at < (told self.old).count }
        ensures bound { IfOk result (λ n. n ≤ length piece.now) }
        ensures some { IfOk result (λ n. 0 < length piece.now → 0 < n) }
        ensures count { (told self.new).count ≡ (told self.old).count }
        ensures written { IfOk result (λ n. ChangesFile (told self.old).files (told self.new).files at (λ file. grown file (take n piece.now))) }
        ensures unchanged { OnErr result (Stays (told self.old).files (told self.new).files) }
        ensures cause { HasCause (told self.old).faults (told self.new).faults result };

    /// Flushes the file at a place.
    fn flush(&mut self, at: u32) -> Result<(), Failed>
        requires { at < (told self.old).count }
        ensures count { (told self.new).count ≡ (told self.old).count }
        ensures flushed { OnOk result (ChangesFile (told self.old).files (told self.new).files at flushed_file) }
        ensures unchanged { OnErr result (Stays (told self.old).files (told self.new).files) }
        ensures cause { HasCause (told self.old).faults (told self.new).faults result };

    /// It tells as many files as were added.
    ghost as_many: { (rack : Self) → IfSome (told rack).files (λ files. length files ≡ (told rack).count) };
}

/// Where received datagrams are delivered.
pub trait Outlet {
    /// The number of services, which are numbered from 0.
    ghost services: { Self → ℕ };

    /// How often it has failed.
    ghost faults: { Self → ℕ };

    /// These pairs of service and datagram were delivered, in this order.
    ghost StandsFor: { Self → List (ℕ × List ℕ) → Type 0 };

    /// This datagram of this service was refused last.
    ghost Refused: { Self → ℕ → List ℕ → Type 0 };

    /// Delivers one datagram of a service.
    fn deliver(&mut self, service: u32, datagram: &[u8]) -> Result<(), Failed>
        requires { service < services self.old }
        ensures services { services self.new ≡ services self.old }
        ensures written { OnOk result ((pairs : List (ℕ × List ℕ)) → StandsFor self.old pairs → StandsFor self.new (pairs ++ (service, datagram.now) ∷ [])) }
        ensures refused { OnErr result (Refused self.new service datagram.now) }
        ensures unchanged { OnErr result ((pairs : List (ℕ × List ℕ)) → StandsFor self.old pairs → StandsFor self.new pairs) }
        ensures cause { HasCause (faults self.old) (faults self.new) result };
}

// The most bytes that a loaded file has.
pub(crate) const LONGEST_FILE: usize = 1_048_576;

// The bytes that a real object reads from the system, or writes to it, at once.
pub(crate) const BUFFER: usize = 65_536;

// Whether the input has ended, after a read that gave this many bytes.
pub(crate) fn has_ended(before: bool, room: usize, count: usize) -> bool
    ensures { result ≡ (if room == 0 then before else count == 0) }
{
    if room == 0 { before } else { count == 0 }
}
