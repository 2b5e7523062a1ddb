//! Why a stream was not sent whole, whatever carries it.

use std::alloc::AllocError as OutOfMemory;

/// Why a stream was not sent whole.
#[derive(Clone, Copy, Debug, PartialEq, Eq)]
pub enum MuxFault {
    /// The sink has failed.
    Sink,
    /// Out of memory.
    OutOfMemory,
}

impl From<OutOfMemory> for MuxFault {
    ghost use Rattle.std.specs.Prelude.{◌≡◌};
    ghost use Rattle.datagram_routing.specs.declared.faults.MuxFault.TheVariants as fault;

    ghost from_gives = { λ _ e. e ≡ fault.OutOfMemory };

    fn from(_error: OutOfMemory) -> MuxFault {
        MuxFault::OutOfMemory
    }
}
