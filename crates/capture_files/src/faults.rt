//! Why a reception was not done, and how the faults below come up to it.

use ipe_io::{AddFault, OutOfMemory};
use recording_reader::ReadFault;

/// Why a reception was not done.
#[derive(Clone, Copy, Debug, PartialEq, Eq)]
pub enum ReceiveFault {
    /// The input could not be read.
    Source,
    /// The output could not be written.
    Sink,
    /// A file could not be added or written.
    Rack,
    /// The recording has 2^32 records or more.
    TooLong,
    /// Out of memory: before the first record, or for the report.
    OutOfMemory,
}

impl From<ReadFault> for ReceiveFault {
    ghost use Rattle.std.specs.Prelude.{◌≡◌};
    ghost use Rattle.capture_files.specs.Faults.{fault_of_reading};

    ghost from_gives = { λ below fault. fault ≡ fault_of_reading below };

    fn from(below: ReadFault) -> ReceiveFault {
        match below {
            ReadFault::Source => ReceiveFault::Source,
            ReadFault::TooLong => ReceiveFault::TooLong,
            ReadFault::Taker => ReceiveFault::Rack,
        }
    }
}

impl From<AddFault> for ReceiveFault {
    ghost use Rattle.std.specs.Prelude.{◌≡◌};
    ghost use Rattle.capture_files.specs.Faults.{fault_of_adding};

    ghost from_gives = { λ below fault. fault ≡ fault_of_adding below };

    fn from(below: AddFault) -> ReceiveFault {
        match below {
            AddFault::Failed => ReceiveFault::Rack,
            AddFault::OutOfMemory => ReceiveFault::OutOfMemory,
        }
    }
}

impl From<OutOfMemory> for ReceiveFault {
    ghost use Rattle.std.specs.Prelude.{◌≡◌};
    ghost use Rattle.capture_files.specs.declared.faults.ReceiveFault.TheVariants as fault_variant;

    ghost from_gives = { λ _ fault. fault ≡ fault_variant.OutOfMemory };

    fn from(_: OutOfMemory) -> ReceiveFault {
        ReceiveFault::OutOfMemory
    }
}
