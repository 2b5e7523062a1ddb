//! Which rows of a run are no codeword's: where something is left after the elimination.

ghost use Rattle.rs_erasure.specs.Columns.{cell};
ghost use Rattle.rs_erasure.specs.Marks.{IsMarked};
ghost use Rattle.std.specs.Prelude.{◌*◌, ◌<◌, ◌≡◌, ◌≢◌, ◌≤◌, ◌⊎◌, ℕ, false, length, slice_index, true};

use crate::columns::Run;

/// Whether in a row a column from `first` on is not 0.
fn is_left(rows: usize, row: usize, first: usize, work: &[u8]) -> bool
    requires room { length work.now ≡ 64 * rows }
    requires within { row < rows }
    requires low { first ≤ 64 }
    ensures yes { result ≡ true → (j : ℕ) × (first ≤ j) × (j < 64) × (cell rows work.now j row ≢ 0) }
    ensures no { result ≡ false → (j : ℕ) → first ≤ j → j < 64 → cell rows work.now j row ≡ 0 }
{
    for column in first..64 {
        if work[column * rows + row] != 0 {
            return true;
        }
    }
    false
}

/// Makes a row 0 in the columns before `first`.
fn clear_row(rows: usize, row: usize, first: usize, work: &mut [u8])
    requires room { length work.old ≡ 64 * rows }
    requires within { row < rows }
    requires low { first ≤ 64 }
    ensures here { (j : ℕ) → j < first → cell rows work.new j row ≡ 0 }
    ensures elsewhere { (j r : ℕ) → r < rows → r ≢ row → cell rows work.new j r ≡ cell rows work.old j r }
{
    for column in 0..first {
        work[column * rows + row] = 0;
    }
}

/// Marks a row: 1 where a column from `first` on is not 0, and then the columns before it become 0.
fn mark_row(rows: usize, row: usize, first: usize, work: &mut [u8]) -> u8
    requires room { length work.old ≡ 64 * rows }
    requires within { row < rows }
    requires low { first ≤ 64 }
    ensures here { IsMarked rows first work.old work.new row result }
    ensures elsewhere { (j r : ℕ) → r < rows → r ≢ row → cell rows work.new j r ≡ cell rows work.old j r }
{
    if is_left(rows, row, first, work) {
        clear_row(rows, row, first, work);
        1
    } else {
        0
    }
}

/// Marks the rows of a run.
pub fn mark(first: usize, run: Run, work: &mut [u8], bad: &mut [u8])
    requires room { length work.old ≡ 64 * run.rows }
    requires marks { length bad.old ≡ run.rows }
    requires low { first ≤ 64 }
    ensures run { (r : ℕ) → run.from ≤ r → r < run.to → IsMarked run.rows first work.old work.new r (slice_index bad.new r) }
    ensures outside { (j r : ℕ) → r < run.rows → (r < run.from) ⊎ (run.to ≤ r) → cell run.rows work.new j r ≡ cell run.rows work.old j r }
    ensures kept { (r : ℕ) → (r < run.from) ⊎ (run.to ≤ r) → slice_index bad.new r ≡ slice_index bad.old r }
{
    for row in run.from..run.to {
        bad[row] = mark_row(run.rows, row, first, work);
    }
}
