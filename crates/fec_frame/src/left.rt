//! What is left of the rows of a frame where the columns that are not wanted are eliminated: found once for many runs.
ghost use Rattle.std.specs.Prelude.{◌≡◌, ◌+◌, ◌*◌, ◌<◌, ◌≤◌, false, true, drop, length, slice_index, ℕ};
ghost use Rattle.std.specs.List.{All};
ghost use Rattle.fec_spec.specs.Row.{is_among};
ghost use Rattle.fec_frame.specs.Marks.{is_known_mark};
ghost use Rattle.rs_erasure.specs.Syndromes.{HasLeft};

use crate::fill::is_known;
use arrayvec::ArrayVec;
use rs_erasure::find_run_syndromes;

/// Columns before this one are of the application data table (EN 301 192 clause 9).
const DATA_COLUMNS: u8 = 191;

/// What stands in the work: what is left of the rows before `to` where these columns are eliminated.
#[derive(Drop)]
pub struct Left {
    pub to: usize,
    pub others: ArrayVec<u8, 255>,
}

/// Answers whether a row lacks a byte of the application data table.
pub fn lacks_data(marks: &[u8], rows: usize, r: usize) -> bool
    requires row { r < rows }
    requires rows_most { rows ≤ 1024 }
    requires long { length marks.now ≡ 255 * rows }
    ensures yes { result ≡ true → (j : ℕ) × (j < 191) × (is_known_mark (slice_index marks.now (j * rows + r)) ≡ false) }
    ensures no { result ≡ false → (j : ℕ) → j < 191 → is_known_mark (slice_index marks.now (j * rows + r)) ≡ true }
{
    for j in 0..191usize {
        if !is_known(marks[j * rows + r]) {
            return true;
        }
    }
    false
}

/// Answers after which row none lacks a byte of the application data table, from `to` on.
fn lacking_end(marks: &[u8], rows: usize, to: usize) -> usize
    requires rows_most { rows ≤ 1024 }
    requires long { length marks.now ≡ 255 * rows }
    requires within { to ≤ rows }
    ensures least { to ≤ result }
    ensures most { result ≤ rows }
{
    let mut end = rows;
    while end > to && !lacks_data(marks, rows, end - 1) {
        end -= 1;
    }
    end
}

/// How many of the unknown columns are of the application data table: they come first.
pub fn data_columns(unknown: &[u8]) -> usize
    ensures most { result ≤ length unknown.now }
    ensures others { (j : ℕ) → j < 191 → is_among j (drop result unknown.now) ≡ false }
{
    let mut count = unknown.len();
    while count > 0 && unknown[count - 1] >= DATA_COLUMNS {
        count -= 1;
    }
    count
}

/// The unknown columns after the wanted ones.
pub fn others_of(unknown: &[u8], wanted: usize) -> &[u8]
    requires { wanted ≤ length unknown.now }
    ensures { result.now ≡ drop wanted unknown.now }
{
    &unknown[wanted..]
}

/// Answers whether two lists of columns are the same.
fn are_same(one: &[u8], other: &[u8]) -> bool
    ensures { result ≡ true → one.now ≡ other.now }
{
    if one.len() != other.len() {
        return false;
    }
    for i in 0..one.len() {
        if one[i] != other[i] {
            return false;
        }
    }
    true
}

/// A list of columns, kept.
fn kept(columns: &[u8]) -> ArrayVec<u8, 255>
    requires { length columns.now ≤ 64 }
    ensures { result.items ≡ columns.now }
{
    let mut list = ArrayVec::new();
    for column in columns {
        list.push(*column);
    }
    list
}

/// Finds what is left of the rows of a run where the columns that are not wanted are eliminated, if it does not stand in `work` yet, and
/// with it that of all rows after it that lack application data.
pub fn find_left(
    bytes: &[u8],
    marks: &[u8],
    work: &mut [u8],
    rows: usize,
    from: usize,
    to: usize,
    others: &[u8],
    left: &mut Left,
)
    requires rows_most { rows ≤ 1024 }
    requires bytes_long { length bytes.now ≡ 255 * rows }
    requires marks_long { length marks.now ≡ 255 * rows }
    requires work_long { length work.old ≡ 64 * rows }
    requires order { from < to }
    requires within { to ≤ rows }
    requires low { All (λ p. p < 255) others.now }
    requires few { length others.now ≤ 64 }
    requires most { left.old.to ≤ rows }
    requires syndromes { (r : ℕ) → from ≤ r → r < left.old.to → HasLeft rows left.old.others.items bytes.now work.old r }
    ensures least { to ≤ left.new.to }
    ensures most { left.new.to ≤ rows }
    ensures same { left.new.others.items ≡ others.now }
    ensures syndromes { (r : ℕ) → from ≤ r → r < left.new.to → HasLeft rows others.now bytes.now work.new r }
{
    if to <= left.to && are_same(left.others.as_slice(), others) {
        return;
    }
    let end = lacking_end(marks, rows, to);
    find_run_syndromes(bytes, rows, from, end, others, work);
    *left = Left {
        to: end,
        others: kept(others),
    };
}
