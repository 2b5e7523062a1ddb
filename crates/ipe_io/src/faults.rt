//! The answers of the outside other than Ok, and the forms that a recording has.

use std::alloc::AllocError as OutOfMemory;

/// The object failed, and counted it.
#[derive(Clone, Copy, Debug, PartialEq, Eq)]
pub struct Failed;

/// Why a file was not loaded.
#[derive(Clone, Copy, Debug, PartialEq, Eq)]
pub enum LoadFault {
    /// The shelf failed, and counted it for the file's name.
    Failed,
    /// The file holds more than 1,048,576 bytes.
    TooLong,
    /// No memory for the bytes, or to open the file.
    OutOfMemory,
}

/// Why a file was not added.
#[derive(Clone, Copy, Debug, PartialEq, Eq)]
pub enum AddFault {
    /// The rack failed, and counted it.
    Failed,
    /// No memory for the name, or to open the file.
    OutOfMemory,
}

/// Why a reader of records gave none.
#[derive(Clone, Copy, Debug, PartialEq, Eq)]
pub enum RecordFault {
    /// The source failed, and counted it.
    Failed,
    /// 2^32 records were given before.
    TooLong,
}

/// What a recording has before each transport packet.
#[derive(Clone, Copy, Debug, PartialEq, Eq)]
pub enum Recording {
    /// Nothing.
    Plain,
    /// The arrival time in microseconds, in 8 bytes.
    Stamped,
    /// The copy permission in 2 bits and the arrival time in 30, at 27 MHz.
    M2ts,
}

impl From<OutOfMemory> for LoadFault {
    ghost use Rattle.std.specs.Prelude.{◌≡◌};
    ghost use Rattle.ipe_io.specs.declared.faults.LoadFault.TheVariants as load;

    ghost from_gives = { λ _ e. e ≡ load.OutOfMemory };

    fn from(_: OutOfMemory) -> Self {
        LoadFault::OutOfMemory
    }
}

impl From<OutOfMemory> for AddFault {
    ghost use Rattle.std.specs.Prelude.{◌≡◌};
    ghost use Rattle.ipe_io.specs.declared.faults.AddFault.TheVariants as add;

    ghost from_gives = { λ _ e. e ≡ add.OutOfMemory };

    fn from(_: OutOfMemory) -> Self {
        AddFault::OutOfMemory
    }
}
