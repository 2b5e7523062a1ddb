//! Tables of frames of 256 rows.
ghost use Rattle.std.specs.Prelude.{◌≡◌, IfOk, vec_len};

use fec_frame::Table;
use std::alloc::{AllocError as OutOfMemory, Global};

/// A buffer of zeros.
fn zeros(alloc: Global, count: usize) -> Result<Vec<u8>, OutOfMemory>
    ensures { IfOk result (λ v. vec_len v ≡ count) }
{
    vec![in alloc; 0u8; count]
}

/// The table of a frame of 256 rows, of which no section came.
pub(crate) fn empty_table(alloc: Global) -> Result<Table<Global>, OutOfMemory>
    ensures rows { IfOk result (λ table. table.rows ≡ 256) }
{
    let bytes = zeros(alloc, 65_280)?;
    let marks = zeros(alloc, 65_280)?;
    Ok(Table::over(256, bytes, marks, zeros(alloc, 16_640)?))
}
