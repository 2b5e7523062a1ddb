//! Rows of a table, corrected in runs that lack the same columns.
ghost use Rattle.std.specs.Prelude.{◌≡◌, ◌+◌, ◌*◌, ◌-◌, ◌<◌, ◌≤◌, ◌||◌, List, false, true, count_by, length, slice_index, ◌==◌, if◌then◌else◌, ℕ};
ghost use Rattle.std.specs.List.{range_with_len};
ghost use Rattle.fec_frame_spec.specs.Sections.{FrameSection};
ghost use Rattle.fec_frame.specs.Marks.{is_known_mark, is_start_mark};
ghost use Rattle.fec_frame.specs.Stands.{TellsKnown};
ghost use Rattle.fec_frame.specs.Runs.{AreRowsSolved, IsColumnMarked, IsMarked, IsPattern, is_good};
ghost use Rattle.rs_erasure.specs.Syndromes.{HasLeft};

use crate::fill::{is_known, with_known};
use crate::left::{Left, data_columns, find_left, lacks_data, others_of};
use crate::pattern::{pattern_end, unknown_in};
use crate::place::{State, has_all_data};
use arrayvec::ArrayVec;
use rs_erasure::decode_run_with_syndromes;

/// Rows that lacked a byte of the application data table.
#[derive(Clone, Copy, PartialEq, Eq)]
pub struct RowCounts {
    /// Those that were corrected.
    pub mended: u32,
    /// Those that were not.
    pub left: u32,
}

/// The mark of a byte in a corrected row, which is known where the row is good.
fn with_row(mark: u8, bad: u8) -> u8
    ensures known { is_known_mark result ≡ (is_known_mark mark || (bad == 0)) }
    ensures start { is_start_mark result ≡ is_start_mark mark }
{
    if bad == 0 { with_known(mark) } else { mark }
}

/// Marks the good rows of a run as known in a column.
fn mark_column(marks: &mut [u8], rows: usize, j: usize, from: usize, to: usize, bad: &[u8])
    requires column { j < 255 }
    requires rows_most { rows ≤ 1024 }
    requires long { length marks.old ≡ 255 * rows }
    requires bad_long { length bad.now ≡ rows }
    requires order { from ≤ to }
    requires within { to ≤ rows }
    ensures marked { IsColumnMarked rows j from to bad.now marks.old marks.new }
{
    for r in from..to {
        marks[j * rows + r] = with_row(marks[j * rows + r], bad[r]);
    }
}

/// The same where the column is unknown in the run. Where it is known nothing changes.
fn mark_unknown(marks: &mut [u8], rows: usize, j: usize, from: usize, to: usize, bad: &[u8])
    requires column { j < 255 }
    requires rows_most { rows ≤ 1024 }
    requires long { length marks.old ≡ 255 * rows }
    requires bad_long { length bad.now ≡ rows }
    requires order { from < to }
    requires within { to ≤ rows }
    requires same { (r : ℕ) → from ≤ r → r < to → is_known_mark (slice_index marks.old (j * rows + r)) ≡ is_known_mark (slice_index marks.old (j * rows + from)) }
    ensures marked { IsColumnMarked rows j from to bad.now marks.old marks.new }
{
    if !is_known(marks[j * rows + from]) {
        mark_column(marks, rows, j, from, to, bad);
    }
}

/// Marks the good rows of a run as known in the application data table.
fn mark_rows(marks: &mut [u8], rows: usize, from: usize, to: usize, bad: &[u8])
    requires rows_most { rows ≤ 1024 }
    requires long { length marks.old ≡ 255 * rows }
    requires bad_long { length bad.now ≡ rows }
    requires order { from < to }
    requires within { to ≤ rows }
    requires pattern { IsPattern rows marks.old 255 from to }
    ensures marked { IsMarked rows 191 from to bad.now marks.old marks.new }
{
    for j in 0..191usize {
        mark_unknown(marks, rows, j, from, to, bad);
    }
}

/// 1 for a good row.
fn one_of(bad: u8) -> u32
    ensures { result ≡ (if bad == 0 then 1 else 0) }
{
    if bad == 0 { 1 } else { 0 }
}

/// How many rows of a run are good.
fn count_good(bad: &[u8], from: usize, to: usize) -> u32
    requires order { from ≤ to }
    requires within { to ≤ length bad.now }
    requires most { to ≤ 1024 }
    ensures count { result ≡ count_by (is_good bad.now) (range_with_len from (to - from)) }
    ensures few { result ≤ to - from }
{
    let mut count = 0u32;
    for r in from..to {
        count += one_of(bad[r]);
    }
    count
}

/// Corrects the rows of a run that lack the same columns. `work` and `bad` have 64 bytes and one for each row; what `left` tells stands
/// in `work`, from the rows of the run on.
fn solve_run(
    bytes: &mut [u8],
    marks: &mut [u8],
    work: &mut [u8],
    bad: &mut [u8],
    rows: usize,
    from: usize,
    to: usize,
    left: &mut Left,
) -> RowCounts
    requires rows_most { rows ≤ 1024 }
    requires bytes_long { length bytes.old ≡ 255 * rows }
    requires marks_long { length marks.old ≡ 255 * rows }
    requires work_long { length work.old ≡ 64 * rows }
    requires bad_long { length bad.old ≡ rows }
    requires order { from < to }
    requires within { to ≤ rows }
    requires pattern { IsPattern rows marks.old 255 from to }
    requires most { left.old.to ≤ rows }
    requires syndromes { (r : ℕ) → from ≤ r → r < left.old.to → HasLeft rows left.old.others.items bytes.old work.old r }
    ensures solved { AreRowsSolved rows from to bytes.old marks.old bytes.new marks.new result.mended result.left }
    ensures few { result.mended + result.left ≤ to - from }
    ensures most { left.new.to ≤ rows }
    ensures syndromes { (r : ℕ) → to ≤ r → r < left.new.to → HasLeft rows left.new.others.items bytes.new work.new r }
{
    if !lacks_data(marks, rows, from) {
        return RowCounts { mended: 0, left: 0 };
    }
    let unknown = unknown_in(marks, rows, from);
    let count = (to - from) as u32;
    if unknown.len() > 64 {
        return RowCounts {
            mended: 0,
            left: count,
        };
    }
    let columns = unknown.as_slice();
    let wanted = data_columns(columns);
    let others = others_of(columns, wanted);
    find_left(bytes, marks, work, rows, from, to, others, left);
    decode_run_with_syndromes(bytes, rows, from, to, &unknown, wanted, work, bad);
    mark_rows(marks, rows, from, to, bad);
    let mended = count_good(bad, from, to);
    RowCounts {
        mended,
        left: count - mended,
    }
}

/// Corrects all rows, run after run.
fn solve_lacking(
    bytes: &mut [u8],
    marks: &mut [u8],
    work: &mut [u8],
    bad: &mut [u8],
    rows: usize,
) -> RowCounts
    requires rows_most { rows ≤ 1024 }
    requires bytes_long { length bytes.old ≡ 255 * rows }
    requires marks_long { length marks.old ≡ 255 * rows }
    requires work_long { length work.old ≡ 64 * rows }
    requires bad_long { length bad.old ≡ rows }
    ensures solved { AreRowsSolved rows 0 rows bytes.old marks.old bytes.new marks.new result.mended result.left }
{
    let mut mended = 0u32;
    let mut left = 0u32;
    let mut from = 0;
    let mut syndromes = Left {
        to: 0,
        others: ArrayVec::new(),
    };
    while from < rows {
        let to = pattern_end(marks, rows, from);
        let counts = solve_run(bytes, marks, work, bad, rows, from, to, &mut syndromes);
        mended += counts.mended;
        left += counts.left;
        from = to;
    }
    RowCounts { mended, left }
}

/// The state, that tells of no byte that it is known.
fn without_known(state: &State, rows: usize) -> State
    requires rows_most { rows ≤ 1024 }
    ensures told { (bytes marks : List ℕ) → TellsKnown rows bytes marks result }
    ensures empty { result.empty ≡ state.now.empty }
{
    State {
        empty: state.empty,
        frame_ended: state.frame_ended,
        table_ended: state.table_ended,
        end: state.end,
        covered: state.covered,
        column: state.column,
        known_to: 0,
        zeros_from: 191 * rows,
    }
}

/// Corrects all rows. Where the state tells that none lacks application data, no mark is looked at.
pub fn solve_rows(
    bytes: &mut [u8],
    marks: &mut [u8],
    work: &mut [u8],
    bad: &mut [u8],
    state: &mut State,
    rows: usize,
) -> RowCounts
    requires rows_most { rows ≤ 1024 }
    requires bytes_long { length bytes.old ≡ 255 * rows }
    requires marks_long { length marks.old ≡ 255 * rows }
    requires work_long { length work.old ≡ 64 * rows }
    requires bad_long { length bad.old ≡ rows }
    requires told { TellsKnown rows bytes.old marks.old state.old }
    ensures solved { AreRowsSolved rows 0 rows bytes.old marks.old bytes.new marks.new result.mended result.left }
    ensures told { TellsKnown rows bytes.new marks.new state.new }
    ensures empty { state.new.empty ≡ state.old.empty }
{
    if has_all_data(state) {
        RowCounts { mended: 0, left: 0 }
    } else {
        *state = without_known(state, rows);
        solve_lacking(bytes, marks, work, bad, rows)
    }
}
