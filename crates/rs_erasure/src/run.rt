//! Many rows of a table at once, all with the same unknown columns: the corrected rows go out, and marks of those that have none.

ghost use Rattle.fec_spec.specs.Row.{IsCorrectable, IsCorrected};
ghost use Rattle.fec_spec.specs.Table.{table_row};
ghost use Rattle.rs_erasure.specs.Correction.{IsCorrectedBut};
ghost use Rattle.rs_erasure.specs.Syndromes.{HasLeft};
ghost use Rattle.std.specs.List.{All};
ghost use Rattle.std.specs.List.Sorted.{IsStrictlyIncreasing};
ghost use Rattle.std.specs.Prelude.{◌*◌, ◌<◌, ◌≡◌, ◌≤◌, ◌↔◌, ◌⊎◌, List, ℕ, drop, length, slice_index};

use crate::columns::Run;
use crate::correction::correct;
use crate::elimination::{eliminate, powers_of};
use crate::left::find_left;
use crate::marks::mark;
use arrayvec::ArrayVec;

/// Finds what is left of the rows `from` up to but not including `to` where the `others` are eliminated, in a table that stands column
/// by column, 255 columns of `rows` bytes, unknown bytes too: it depends on no bytes of these columns.
///
/// The others are columns that no run of these rows knows or wants, at most 64. `work` has 64 × `rows` bytes of any content.
pub fn find_run_syndromes(
    table: &[u8],
    rows: usize,
    from: usize,
    to: usize,
    others: &[u8],
    work: &mut [u8],
)
    requires size { length table.now ≡ 255 * rows }
    requires order { from ≤ to }
    requires within { to ≤ rows }
    requires low { All (λ p. p < 255) others.now }
    requires few { length others.now ≤ 64 }
    requires room { length work.old ≡ 64 * rows }
    ensures found { (r : ℕ) → from ≤ r → r < to → HasLeft rows others.now table.now work.new r }
{
    find_left(others, Run { rows, from, to }, table, work);
}

/// Corrects the first `wanted` of the unknown columns, in the rows `from` up to but not including `to`. What is left of these rows where
/// the other unknown columns are eliminated stands in `work`, by `find_run_syndromes`. The other columns stay as they are: a codeword
/// agrees with the new row but in these.
///
/// What stands in `work` of other rows still stands there afterwards; of the rows of the run nothing is said.
pub fn decode_run_with_syndromes(
    table: &mut [u8],
    rows: usize,
    from: usize,
    to: usize,
    unknown: &ArrayVec<u8, 255>,
    wanted: usize,
    work: &mut [u8],
    bad: &mut [u8],
)
    requires size { length table.old ≡ 255 * rows }
    requires order { from ≤ to }
    requires within { to ≤ rows }
    requires few { length unknown.now.items ≤ 64 }
    requires rising { IsStrictlyIncreasing unknown.now.items }
    requires low { All (λ p. p < 255) unknown.now.items }
    requires wanted { wanted ≤ length unknown.now.items }
    requires room { length work.old ≡ 64 * rows }
    requires syndromes { (r : ℕ) → from ≤ r → r < to → HasLeft rows (drop wanted unknown.now.items) table.old work.old r }
    requires marks { length bad.old ≡ rows }
    ensures corrected { (r : ℕ) → from ≤ r → r < to → IsCorrectedBut (drop wanted unknown.now.items) unknown.now.items (table_row 255 rows table.old r) (table_row 255 rows table.new r) }
    ensures consistent { (r : ℕ) → from ≤ r → r < to → (slice_index bad.new r ≡ 0) ↔ IsCorrectable unknown.now.items (table_row 255 rows table.old r) }
    ensures inconsistent { (r : ℕ) → from ≤ r → r < to → (slice_index bad.new r ≡ 1) ↔ (IsCorrectable unknown.now.items (table_row 255 rows table.old r) → ⊥) }
    ensures outside { (r : ℕ) → r < rows → (r < from) ⊎ (to ≤ r) → table_row 255 rows table.new r ≡ table_row 255 rows table.old r }
    ensures kept { (r : ℕ) → (r < from) ⊎ (to ≤ r) → slice_index bad.new r ≡ slice_index bad.old r }
    ensures syndromes { (others : List ℕ) (r : ℕ) → r < rows → (r < from) ⊎ (to ≤ r) → HasLeft rows others table.old work.old r → HasLeft rows others table.new work.new r }
{
    let run = Run { rows, from, to };
    let places = unknown.as_slice();
    let powers = powers_of(places);
    let others = places.len() - wanted;
    eliminate(powers.as_slice(), others, run, work);
    mark(places.len(), run, work, bad);
    correct(places, powers.as_slice(), others, run, work, table);
}

/// Corrects the rows `from` up to but not including `to` of a table that stands column by column, 255 columns of `rows` bytes,
/// where the columns of `unknown` are unknown, at most 64 of them.
///
/// `bad` has one byte for each row: in the rows of the run it becomes 1 where no codeword agrees with the known bytes, otherwise 0.
/// `work` has 64 × `rows` bytes of any content, and nothing is said of them afterwards.
pub fn decode_run(
    table: &mut [u8],
    rows: usize,
    from: usize,
    to: usize,
    unknown: &ArrayVec<u8, 255>,
    work: &mut [u8],
    bad: &mut [u8],
)
    requires size { length table.old ≡ 255 * rows }
    requires order { from ≤ to }
    requires within { to ≤ rows }
    requires few { length unknown.now.items ≤ 64 }
    requires rising { IsStrictlyIncreasing unknown.now.items }
    requires low { All (λ p. p < 255) unknown.now.items }
    requires room { length work.old ≡ 64 * rows }
    requires marks { length bad.old ≡ rows }
    ensures corrected { (r : ℕ) → from ≤ r → r < to → IsCorrected unknown.now.items (table_row 255 rows table.old r) (table_row 255 rows table.new r) }
    ensures consistent { (r : ℕ) → from ≤ r → r < to → (slice_index bad.new r ≡ 0) ↔ IsCorrectable unknown.now.items (table_row 255 rows table.old r) }
    ensures inconsistent { (r : ℕ) → from ≤ r → r < to → (slice_index bad.new r ≡ 1) ↔ (IsCorrectable unknown.now.items (table_row 255 rows table.old r) → ⊥) }
    ensures outside { (r : ℕ) → r < rows → (r < from) ⊎ (to ≤ r) → table_row 255 rows table.new r ≡ table_row 255 rows table.old r }
    ensures kept { (r : ℕ) → (r < from) ⊎ (to ≤ r) → slice_index bad.new r ≡ slice_index bad.old r }
{
    find_run_syndromes(table, rows, from, to, &[], work);
    decode_run_with_syndromes(table, rows, from, to, unknown, unknown.len(), work, bad);
}
