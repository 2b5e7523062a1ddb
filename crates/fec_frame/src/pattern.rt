//! Runs of rows that lack the same columns.
ghost use Rattle.std.specs.Prelude.{◌≡◌, ◌+◌, ◌*◌, ◌<◌, ◌≤◌, ◌∷◌, ◌++◌, [], length, slice_index, if◌then◌else◌, ℕ};
ghost use Rattle.arrayvec.specs.ArrayVec.{array_vec_len};
ghost use Rattle.fec_frame.specs.Marks.{is_known_mark};
ghost use Rattle.fec_frame.specs.Runs.{IsPattern, unmarked};

use crate::fill::is_known;
use crate::run::{gap_end, run_end};
use arrayvec::ArrayVec;

/// Answers where the rows end that are known in a column exactly where row `from` is: `end` at most.
#[tactic(auto, using(crate::proofs::KnownRuns::run_some, crate::proofs::KnownRuns::gap_some))]
fn column_end(marks: &[u8], rows: usize, j: usize, from: usize, end: usize) -> usize
    requires column { j < 255 }
    requires rows_most { rows ≤ 1024 }
    requires long { length marks.now ≡ 255 * rows }
    requires order { from < end }
    requires within { end ≤ rows }
    ensures some { from < result }
    ensures most { result ≤ end }
    ensures same { (r : ℕ) → from ≤ r → r < result → is_known_mark (slice_index marks.now (j * rows + r)) ≡ is_known_mark (slice_index marks.now (j * rows + from)) }
{
    let first = j * rows;
    let to = if is_known(marks[first + from]) {
        run_end(marks, first + from, first + end)
    } else {
        gap_end(marks, first + from, first + end)
    };
    to - first
}

/// Answers where the rows end that lack the same columns as row `from`.
pub fn pattern_end(marks: &[u8], rows: usize, from: usize) -> usize
    requires rows_most { rows ≤ 1024 }
    requires long { length marks.now ≡ 255 * rows }
    requires within { from < rows }
    ensures some { from < result }
    ensures most { result ≤ rows }
    ensures pattern { IsPattern rows marks.now 255 from result }
{
    let mut end = rows;
    for j in 0..255usize {
        end = column_end(marks, rows, j, from, end);
    }
    end
}

/// Adds a column, where its mark does not tell a known byte.
fn add_unknown(unknown: &mut ArrayVec<u8, 255>, j: u8, mark: u8)
    requires room { array_vec_len unknown.old < 255 }
    ensures items { unknown.new.items ≡ unknown.old.items ++ (if is_known_mark mark then [] else j ∷ []) }
    ensures few { array_vec_len unknown.new ≤ array_vec_len unknown.old + 1 }
{
    if !is_known(mark) {
        unknown.push(j);
    }
}

/// The columns in which a row has no known byte.
pub fn unknown_in(marks: &[u8], rows: usize, r: usize) -> ArrayVec<u8, 255>
    requires row { r < rows }
    requires rows_most { rows ≤ 1024 }
    requires long { length marks.now ≡ 255 * rows }
    ensures items { result.items ≡ unmarked rows marks.now r 255 }
{
    let mut unknown = ArrayVec::new();
    for j in 0..255u8 {
        add_unknown(&mut unknown, j, marks[usize::from(j) * rows + r]);
    }
    unknown
}
