//! From what is left after the elimination, the wanted columns are corrected one after another, each in all rows of a run.
//!
//! They are the first of the unknown ones. The others are the last `lowest`, which stay as they are.

ghost use Rattle.erasure_law.specs.Roots.{differences, place_power};
ghost use Rattle.fec_spec.specs.Field.{field_product, field_sum};
ghost use Rattle.fec_spec.specs.Row.{is_among};
ghost use Rattle.fec_spec.specs.Table.{table_row};
ghost use Rattle.rs_erasure.specs.Columns.{cell};
ghost use Rattle.rs_erasure.specs.Correction.{IsBeingCorrected};
ghost use Rattle.std.specs.List.{All};
ghost use Rattle.std.specs.List.Sorted.{IsStrictlyIncreasing};
ghost use Rattle.std.specs.Prelude.{◌+◌, ◌*◌, ◌-◌, ◌<◌, ◌≡◌, ◌≤◌, ◌⊎◌, ℕ, drop, false, length, map, slice_index};

use crate::columns::{Run, add_to_earlier, add_to_other};
use gf256::Gf;

/// The product of the differences of a power and the roots from `first` on.
pub fn differences_of(roots: &[u8], first: usize, power: Gf) -> Gf
    requires { first ≤ length roots.now }
    ensures { result.0 ≡ differences (drop first roots.now) power.0 }
{
    let mut value = Gf(1);
    let mut left = roots.len();
    while left > first {
        left -= 1;
        value = Gf(roots[left]).add(power).mul(value);
    }
    value
}

/// Adds a column to each one before it from `lowest` on, times `scale` and the differences of a power and the roots eliminated there.
fn spread(
    scale: Gf,
    power: Gf,
    roots: &[u8],
    lowest: usize,
    column: usize,
    run: Run,
    work: &mut [u8],
)
    requires room { length work.old ≡ 64 * run.rows }
    requires few { length roots.now ≤ 64 }
    requires above { lowest ≤ column }
    requires low { column < length roots.now }
    ensures before { (r : ℕ) → run.from ≤ r → r < run.to → (j : ℕ) → lowest ≤ j → j < column → cell run.rows work.new j r ≡ field_sum (cell run.rows work.old j r) (field_product (field_product (differences (drop (length roots.now - j) roots.now) power.0) scale.0) (cell run.rows work.old column r)) }
    ensures kept { (r : ℕ) → run.from ≤ r → r < run.to → (j : ℕ) → column ≤ j → cell run.rows work.new j r ≡ cell run.rows work.old j r }
    ensures outside { (j r : ℕ) → r < run.rows → (r < run.from) ⊎ (run.to ≤ r) → cell run.rows work.new j r ≡ cell run.rows work.old j r }
{
    let mut factor = differences_of(roots, roots.len() - lowest, power).mul(scale);
    for into in lowest..column {
        add_to_earlier(factor, run, work, column, into);
        factor = Gf(roots[roots.len() - 1 - into]).add(power).mul(factor);
    }
}

/// Corrects the unknown column at a place of the list, but the last `lowest`.
fn correct_column(
    unknown: &[u8],
    roots: &[u8],
    lowest: usize,
    at: usize,
    run: Run,
    work: &mut [u8],
    table: &mut [u8],
)
    requires table_room { length table.old ≡ 255 * run.rows }
    requires room { length work.old ≡ 64 * run.rows }
    requires places { All (λ p. p < 255) unknown.now }
    requires rising { IsStrictlyIncreasing unknown.now }
    requires few { length unknown.now ≤ 64 }
    requires powers { roots.now ≡ map place_power unknown.now }
    requires low { at + lowest < length unknown.now }
    ensures corrected { (r : ℕ) → run.from ≤ r → r < run.to → IsBeingCorrected unknown.now lowest at (table_row 255 run.rows table.old r) (λ j. cell run.rows work.old j r) → IsBeingCorrected unknown.now lowest (at + 1) (table_row 255 run.rows table.new r) (λ j. cell run.rows work.new j r) }
    ensures zero { (r : ℕ) → run.from ≤ r → r < run.to → ((j : ℕ) → lowest ≤ j → j < length unknown.now → cell run.rows work.old j r ≡ 0) → ((j : ℕ) → lowest ≤ j → j < length unknown.now → cell run.rows work.new j r ≡ 0) × (table_row 255 run.rows table.new r ≡ table_row 255 run.rows table.old r) }
    ensures known { (j r : ℕ) → r < run.rows → is_among j unknown.now ≡ false → cell run.rows table.new j r ≡ cell run.rows table.old j r }
    ensures outside { (j r : ℕ) → r < run.rows → (r < run.from) ⊎ (run.to ≤ r) → cell run.rows table.new j r ≡ cell run.rows table.old j r }
    ensures work_outside { (j r : ℕ) → r < run.rows → (r < run.from) ⊎ (run.to ≤ r) → cell run.rows work.new j r ≡ cell run.rows work.old j r }
{
    let power = Gf(roots[at]);
    let column = unknown.len() - 1 - at;
    let scale = differences_of(roots, at + 1, power).inverse();
    add_to_other(scale, run, work, column, table, usize::from(unknown[at]));
    spread(scale, power, roots, lowest, column, run, work);
}

/// Corrects the unknown columns, but the last `lowest`.
pub fn correct(
    unknown: &[u8],
    roots: &[u8],
    lowest: usize,
    run: Run,
    work: &mut [u8],
    table: &mut [u8],
)
    requires table_room { length table.old ≡ 255 * run.rows }
    requires room { length work.old ≡ 64 * run.rows }
    requires places { All (λ p. p < 255) unknown.now }
    requires rising { IsStrictlyIncreasing unknown.now }
    requires few { length unknown.now ≤ 64 }
    requires powers { roots.now ≡ map place_power unknown.now }
    requires low { lowest ≤ length unknown.now }
    ensures corrected { (r : ℕ) → run.from ≤ r → r < run.to → IsBeingCorrected unknown.now lowest 0 (table_row 255 run.rows table.old r) (λ j. cell run.rows work.old j r) → IsBeingCorrected unknown.now lowest (length unknown.now - lowest) (table_row 255 run.rows table.new r) (λ j. cell run.rows work.new j r) }
    ensures zero { (r : ℕ) → run.from ≤ r → r < run.to → ((j : ℕ) → lowest ≤ j → j < length unknown.now → cell run.rows work.old j r ≡ 0) → table_row 255 run.rows table.new r ≡ table_row 255 run.rows table.old r }
    ensures known { (j r : ℕ) → r < run.rows → is_among j unknown.now ≡ false → cell run.rows table.new j r ≡ cell run.rows table.old j r }
    ensures outside { (j r : ℕ) → r < run.rows → (r < run.from) ⊎ (run.to ≤ r) → cell run.rows table.new j r ≡ cell run.rows table.old j r }
    ensures work_outside { (j r : ℕ) → r < run.rows → (r < run.from) ⊎ (run.to ≤ r) → cell run.rows work.new j r ≡ cell run.rows work.old j r }
{
    for at in 0..unknown.len() - lowest {
        correct_column(unknown, roots, lowest, at, run, work, table);
    }
}
