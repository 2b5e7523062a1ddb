//! What receptions and bridges work in.
ghost use Rattle.std.specs.Prelude.{◌≡◌, IfOk, vec_len};

use gse_reassembly::Slot;
use std::alloc::{AllocError as OutOfMemory, Global};

/// A buffer of zeros.
pub(crate) fn zeros(alloc: Global, count: usize) -> Result<Vec<u8>, OutOfMemory>
    ensures { IfOk result (λ v. vec_len v ≡ count) }
{
    vec![in alloc; 0u8; count]
}

/// So many slots.
pub(crate) fn empty_slots(alloc: Global, count: usize) -> Result<Vec<Slot>, OutOfMemory>
    ensures { IfOk result (λ v. vec_len v ≡ count) }
{
    vec![in alloc; Slot::new(); count]
}
