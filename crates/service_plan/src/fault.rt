//! Why no plan was read.

pub use settings_keys::PlanFault;
use std::alloc::AllocError as OutOfMemory;

/// Why no plan was read.
#[derive(Clone, Copy, Debug, PartialEq, Eq)]
pub enum PlanError {
    /// The settings are refused.
    Fault(PlanFault),
    /// Out of memory.
    OutOfMemory,
}

impl From<OutOfMemory> for PlanError {
    ghost use Rattle.std.specs.Prelude.{◌≡◌};
    ghost use Rattle.service_plan.specs.declared.fault.PlanError.TheVariants as error;

    ghost from_gives = { λ _ e. e ≡ error.OutOfMemory };

    fn from(_error: OutOfMemory) -> PlanError {
        PlanError::OutOfMemory
    }
}

impl From<PlanFault> for PlanError {
    ghost use Rattle.std.specs.Prelude.{◌≡◌};
    ghost use Rattle.service_plan.specs.declared.fault.PlanError.TheVariants as error;

    ghost from_gives = { λ fault e. e ≡ error.Fault fault };

    fn from(fault: PlanFault) -> PlanError {
        PlanError::Fault(fault)
    }
}
