//! Why a recording was not searched, and what a fault below becomes.
ghost use Rattle.std.specs.Prelude.{◌≡◌};
ghost use Rattle.find_command.specs.Faults.{fault_of_reading};

use recording_reader::ReadFault;

/// Why a recording was not searched.
#[derive(Clone, Copy, Debug, PartialEq, Eq)]
pub enum FindFault {
    /// The input could not be read.
    Source,
    /// The output could not be written.
    Sink,
    /// The recording has 2^32 records or more.
    TooLong,
    /// Out of memory: before the first record, with the one that completes the first PAT, or for the text.
    OutOfMemory,
}

/// The fault of a search where that of a reading came: what takes the records stops out of memory alone.
pub(crate) fn fault_of(below: ReadFault) -> FindFault
    ensures { result ≡ fault_of_reading below }
{
    match below {
        ReadFault::Source => FindFault::Source,
        ReadFault::TooLong => FindFault::TooLong,
        ReadFault::Taker => FindFault::OutOfMemory,
    }
}
