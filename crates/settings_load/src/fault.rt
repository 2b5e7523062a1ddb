//! Why a settings file gave no plan.

use service_plan::PlanFault;

/// What is wrong with a settings file.
#[derive(Clone, Copy, Debug, PartialEq, Eq)]
pub enum FileFault {
    /// It holds more than 1,048,576 bytes.
    TooLong,
    /// Its bytes are refused.
    Plan(PlanFault),
}

/// Why a settings file gave no plan.
#[derive(Clone, Copy, Debug, PartialEq, Eq)]
pub enum SettingsError {
    /// The shelf failed, and counted it for the file's name.
    ShelfFault,
    /// The file gives none.
    File(FileFault),
    /// Out of memory.
    OutOfMemory,
}
