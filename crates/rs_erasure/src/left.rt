//! What is left of the rows of a run where some places are eliminated, in the last columns of `work`.
//!
//! Where few columns have a byte that is not 0 it is a sum over those. Otherwise the syndromes of the rows are found, and the places eliminated.

ghost use Rattle.erasure_law.specs.Roots.{differences, place_power};
ghost use Rattle.fec_spec.specs.Field.{field_power, field_product, field_sum};
ghost use Rattle.rs_erasure.specs.Columns.{cell};
ghost use Rattle.rs_erasure.specs.Syndromes.{AreEmpty, HasLeft};
ghost use Rattle.std.specs.List.{All};
ghost use Rattle.std.specs.Prelude.{◌+◌, ◌*◌, ◌<◌, ◌≡◌, ◌≢◌, ◌≤◌, ◌⊎◌, ℕ, false, length, slice_index};

use crate::columns::{Run, add_to_other, clear_column};
use crate::correction::differences_of;
use crate::elimination::{eliminate, powers_of};
use crate::row::cleared;
use crate::syndromes::locator_of;
use crate::table_syndromes::find_syndromes;
use gf256::Gf;

/// The syndromes take as long as so many steps on columns.
const STEPS: usize = 2100;

/// So many steps the elimination of a place takes: the mean over 48 places.
const STEPS_OF_PLACE: usize = 40;

/// So many bytes are looked at together.
const BLOCK: usize = 256;

/// The bits that any byte of a part has.
fn any_bits(bytes: &[u8], from: usize, to: usize) -> u8
    requires order { from ≤ to }
    requires within { to ≤ length bytes.now }
    ensures { result ≡ 0 → (i : ℕ) → from ≤ i → i < to → slice_index bytes.now i ≡ 0 }
{
    let mut bits = 0;
    for i in from..to {
        bits |= bytes[i];
    }
    bits
}

/// Answers whether a column has a byte that is not 0, in the rows of a run.
fn has_bytes(run: Run, table: &[u8], column: usize) -> bool
    requires table_room { length table.now ≡ 255 * run.rows }
    requires low { column < 255 }
    ensures { result ≡ false → (r : ℕ) → run.from ≤ r → r < run.to → cell run.rows table.now column r ≡ 0 }
{
    let first = column * run.rows;
    let mut from = run.from;
    while from < run.to {
        let to = run.to.min(from + BLOCK);
        if any_bits(table, first + from, first + to) != 0 {
            return true;
        }
        from = to;
    }
    false
}

/// The mark of a column, or 0 where the column has no byte that is not 0 in the rows of a run.
fn mark_of(mark: u8, run: Run, table: &[u8], column: usize) -> u8
    requires table_room { length table.now ≡ 255 * run.rows }
    requires low { column < 255 }
    ensures { result ≡ 0 → (mark ≡ 0) ⊎ ((r : ℕ) → run.from ≤ r → r < run.to → cell run.rows table.now column r ≡ 0) }
{
    if mark != 0 && has_bytes(run, table, column) {
        mark
    } else {
        0
    }
}

/// Marks the columns that have a byte that is not 0 in the rows of a run and are none of the places: 1, and all others 0.
fn columns_with_bytes(run: Run, table: &[u8], places: &[u8]) -> [u8; 255]
    requires table_room { length table.now ≡ 255 * run.rows }
    requires low { All (λ p. p < 255) places.now }
    ensures { AreEmpty run.rows run.from run.to places.now table.now result }
{
    let mut marks = cleared(&[1; 255], places);
    for column in 0..255usize {
        marks[column] = mark_of(marks[column], run, table, column);
    }
    marks
}

/// 1 for a mark that is not 0.
fn one_of(mark: u8) -> usize
    ensures few { result ≤ 1 }
{
    if mark != 0 { 1 } else { 0 }
}

/// How many marks are not 0.
fn count_of(marks: &[u8; 255]) -> usize
    ensures few { result ≤ 255 }
{
    let mut count = 0;
    for column in 0..255usize {
        count += one_of(marks[column]);
    }
    count
}

/// Makes the columns from `first` on 0.
fn clear_columns(first: usize, run: Run, work: &mut [u8])
    requires room { length work.old ≡ 64 * run.rows }
    requires low { first ≤ 64 }
    ensures here { (r : ℕ) → run.from ≤ r → r < run.to → (j : ℕ) → first ≤ j → j < 64 → cell run.rows work.new j r ≡ 0 }
{
    for column in first..64 {
        clear_column(run, work, column);
    }
}

/// Adds what the bytes of a column leave: times the differences of its power and the roots, and then times the power, once more in
/// each further column of `work`.
fn add_column(place: u8, roots: &[u8], run: Run, table: &[u8], work: &mut [u8])
    requires table_room { length table.now ≡ 255 * run.rows }
    requires room { length work.old ≡ 64 * run.rows }
    requires few { length roots.now ≤ 64 }
    requires low { place < 255 }
    ensures { (r : ℕ) → run.from ≤ r → r < run.to → (m : ℕ) → m + length roots.now < 64 → cell run.rows work.new (length roots.now + m) r ≡ field_sum (cell run.rows work.old (length roots.now + m) r) (field_product (field_product (field_power (place_power place) m) (differences roots.now (place_power place))) (cell run.rows table.now place r)) }
{
    let power = locator_of(place);
    let mut factor = differences_of(roots, 0, power);
    for into in roots.len()..64 {
        add_to_other(factor, run, table, usize::from(place), work, into);
        factor = power.mul(factor);
    }
}

/// The same for a column that is marked. What another one leaves is 0.
fn add_marked(mark: u8, place: u8, roots: &[u8], run: Run, table: &[u8], work: &mut [u8])
    requires table_room { length table.now ≡ 255 * run.rows }
    requires room { length work.old ≡ 64 * run.rows }
    requires few { length roots.now ≤ 64 }
    requires low { place < 255 }
    ensures added { mark ≢ 0 → (r : ℕ) → run.from ≤ r → r < run.to → (m : ℕ) → m + length roots.now < 64 → cell run.rows work.new (length roots.now + m) r ≡ field_sum (cell run.rows work.old (length roots.now + m) r) (field_product (field_product (field_power (place_power place) m) (differences roots.now (place_power place))) (cell run.rows table.now place r)) }
    ensures kept { mark ≡ 0 → work.new ≡ work.old }
{
    if mark != 0 {
        add_column(place, roots, run, table, work);
    }
}

/// What is left, as a sum over the marked columns.
fn find_by_columns(marks: &[u8; 255], places: &[u8], run: Run, table: &[u8], work: &mut [u8])
    requires table_room { length table.now ≡ 255 * run.rows }
    requires room { length work.old ≡ 64 * run.rows }
    requires low { All (λ p. p < 255) places.now }
    requires few { length places.now ≤ 64 }
    requires empty { AreEmpty run.rows run.from run.to places.now table.now marks.now }
    ensures { (r : ℕ) → run.from ≤ r → r < run.to → HasLeft run.rows places.now table.now work.new r }
{
    let powers = powers_of(places);
    clear_columns(places.len(), run, work);
    for place in 0..255u8 {
        add_marked(
            marks[usize::from(place)],
            place,
            powers.as_slice(),
            run,
            table,
            work,
        );
    }
}

/// What is left, from the syndromes of the rows.
fn find_by_syndromes(places: &[u8], run: Run, table: &[u8], work: &mut [u8])
    requires table_room { length table.now ≡ 255 * run.rows }
    requires room { length work.old ≡ 64 * run.rows }
    requires low { All (λ p. p < 255) places.now }
    requires few { length places.now ≤ 64 }
    ensures { (r : ℕ) → run.from ≤ r → r < run.to → HasLeft run.rows places.now table.now work.new r }
{
    find_syndromes(run, table, work);
    let powers = powers_of(places);
    eliminate(powers.as_slice(), 0, run, work);
}

/// What is left of the rows where the places are eliminated, in the way that takes fewer steps.
pub fn find_left(places: &[u8], run: Run, table: &[u8], work: &mut [u8])
    requires table_room { length table.now ≡ 255 * run.rows }
    requires room { length work.old ≡ 64 * run.rows }
    requires low { All (λ p. p < 255) places.now }
    requires few { length places.now ≤ 64 }
    ensures { (r : ℕ) → run.from ≤ r → r < run.to → HasLeft run.rows places.now table.now work.new r }
{
    let marks = columns_with_bytes(run, table, places);
    let steps = STEPS + STEPS_OF_PLACE * places.len();
    if count_of(&marks) * (64 - places.len()) < steps {
        find_by_columns(&marks, places, run, table, work);
    } else {
        find_by_syndromes(places, run, table, work);
    }
}
