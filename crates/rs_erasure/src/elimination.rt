//! Column by column, in the rows of a run: the elimination of the unknown places from the syndromes of the rows.

ghost use Rattle.erasure_law.specs.Roots.{combined, place_power, root_polynomial};
ghost use Rattle.fec_spec.specs.Codeword.{row_value};
ghost use Rattle.fec_spec.specs.Field.{field_power, field_product, field_sum};
ghost use Rattle.fec_spec.specs.Table.{table_row};
ghost use Rattle.rs_erasure.specs.Columns.{IsColumnChanged, cell};
ghost use Rattle.rs_erasure.specs.Syndromes.{HasSyndromes};
ghost use Rattle.std.specs.List.{All};
ghost use Rattle.std.specs.Prelude.{◌*◌, ◌-◌, ◌<◌, ◌≡◌, ◌≤◌, ◌⊎◌, ℕ, drop, length, map};

use crate::columns::{Run, add_to_later};
use crate::syndromes::locator_of;
use arrayvec::ArrayVec;
use gf256::Gf;

/// The powers of places.
pub fn powers_of(places: &[u8]) -> ArrayVec<u8, 64>
    requires low { All (λ p. p < 255) places.now }
    requires few { length places.now ≤ 64 }
    ensures { result.items ≡ map place_power places.now }
{
    let mut powers = ArrayVec::new();
    for place in places {
        powers.push(locator_of(*place).0);
    }
    powers
}

/// One root more: adds to each column from `first` on the root times the column before it.
fn eliminate_root(root: Gf, first: usize, run: Run, work: &mut [u8])
    requires room { length work.old ≡ 64 * run.rows }
    requires positive { 0 < first }
    requires low { first ≤ 64 }
    ensures raised { (r : ℕ) → run.from ≤ r → r < run.to → (j : ℕ) → first ≤ j → j < 64 → cell run.rows work.new j r ≡ field_sum (cell run.rows work.old j r) (field_product root.0 (cell run.rows work.old (j - 1) r)) }
    ensures kept { (r : ℕ) → run.from ≤ r → r < run.to → (j : ℕ) → j < first → cell run.rows work.new j r ≡ cell run.rows work.old j r }
    ensures outside { (j r : ℕ) → r < run.rows → (r < run.from) ⊎ (run.to ≤ r) → cell run.rows work.new j r ≡ cell run.rows work.old j r }
{
    let mut column = 64;
    while column > first {
        column -= 1;
        add_to_later(root, run, work, column - 1, column);
    }
}

/// All roots but the last `done`, which were eliminated before, from the last one on: column j then combines the syndromes by the polynomial
/// of the last j roots. Nothing is said of the first `done` columns.
pub fn eliminate(roots: &[u8], done: usize, run: Run, work: &mut [u8])
    requires room { length work.old ≡ 64 * run.rows }
    requires few { length roots.now ≤ 64 }
    requires some { done ≤ length roots.now }
    ensures eliminated { (syndromes : ℕ → ℕ) (r : ℕ) → run.from ≤ r → r < run.to → ((j : ℕ) → done ≤ j → j < 64 → cell run.rows work.old j r ≡ combined (root_polynomial (drop (length roots.now - done) roots.now)) syndromes (j - done)) → (j : ℕ) → done ≤ j → j < 64 → cell run.rows work.new j r ≡ combined (root_polynomial (drop (length roots.now - j) roots.now)) syndromes (j - length roots.now) }
    ensures outside { (j r : ℕ) → r < run.rows → (r < run.from) ⊎ (run.to ≤ r) → cell run.rows work.new j r ≡ cell run.rows work.old j r }
{
    let mut left = roots.len() - done;
    while left > 0 {
        left -= 1;
        eliminate_root(Gf(roots[left]), roots.len() - left, run, work);
    }
}
