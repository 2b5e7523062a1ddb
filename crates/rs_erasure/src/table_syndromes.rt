//! The syndromes of the rows of a run at the powers 0 to 63 of 2.
//!
//! 255 is 3 times 5 times 17, so the power 85 of a power of 2 is one of three, and the power 17 one of fifteen. Horner's rule first goes
//! over every 85th column with each of the three: 85 thirds. With each of the fifteen it then goes over every seventeenth of
//! these: 17 class values. With each of the 64 powers it then goes over the 17 class values.

ghost use Rattle.fec_spec.specs.Field.{field_power};
ghost use Rattle.gf256.specs.Horner.{horner_value};
ghost use Rattle.rs_erasure.specs.Columns.{IsColumnChanged, cell};
ghost use Rattle.rs_erasure.specs.Syndromes.{HasSyndromes};
ghost use Rattle.std.specs.Prelude.{◌+◌, ◌*◌, ◌-◌, ◌%◌, ◌<◌, ◌≡◌, ◌≤◌, ◌⊎◌, ℕ, length};

use crate::columns::{Run, Stride, find_values};
use gf256::Gf;

/// So many rows are taken together at most: a frame has 256, 512, 768 or 1,024.
const BLOCK: usize = 256;

/// The class values of a block, column by column: column 17 × k + b is of the columns b, b + 17 and so on, at the power 17 × k of 2.
const CLASSES: usize = 255 * BLOCK;

/// The thirds of a block, column by column: column e is of the columns e, e + 85 and e + 170, at one power.
const THIRDS: usize = 85 * BLOCK;

/// The rows of a block, as they stand among the thirds and the class values.
fn block_of(run: Run) -> Run
    requires few { run.to ≤ run.from + 256 }
    ensures rows { result.rows ≡ 256 }
    ensures from { result.from ≡ 0 }
    ensures to { result.to ≡ run.to - run.from }
{
    Run {
        rows: BLOCK,
        from: 0,
        to: run.to - run.from,
    }
}

/// The value of the columns e, e + 85 and e + 170, in column e of the thirds.
fn find_third(root: Gf, e: usize, run: Run, table: &[u8], thirds: &mut [u8])
    requires few { run.to ≤ run.from + 256 }
    requires table_room { length table.now ≡ 255 * run.rows }
    requires room { length thirds.old ≡ 21760 }
    requires third { e < 85 }
    ensures { IsColumnChanged 256 0 (run.to - run.from) e (λ i. horner_value root.0 (λ t. cell run.rows table.now (e + t * 85) (run.from + i)) 3) thirds.old thirds.new }
{
    let block = block_of(run);
    let columns = Stride {
        first: e,
        apart: 85,
        count: 3,
    };
    find_values(root, run, table, columns, block, thirds, e);
}

/// The 85 thirds at the power 85 × h of 2.
fn find_thirds(h: u8, run: Run, table: &[u8], thirds: &mut [u8])
    requires few { run.to ≤ run.from + 256 }
    requires table_room { length table.now ≡ 255 * run.rows }
    requires room { length thirds.old ≡ 21760 }
    requires low { h < 3 }
    ensures { (e i : ℕ) → e < 85 → i < run.to - run.from → cell 256 thirds.new e i ≡ horner_value (field_power 2 (85 * h)) (λ t. cell run.rows table.now (e + t * 85) (run.from + i)) 3 }
{
    let root = Gf(2).power(u32::from(h) * 85);
    for e in 0..85usize {
        find_third(root, e, run, table, thirds);
    }
}

/// The value of the thirds b, b + 17 and so on, in a column of the class values.
fn find_class(root: Gf, b: usize, run: Run, thirds: &[u8], classes: &mut [u8], into: usize)
    requires few { run.to ≤ run.from + 256 }
    requires thirds_room { length thirds.now ≡ 21760 }
    requires room { length classes.old ≡ 65280 }
    requires class { b < 17 }
    requires low { into < 255 }
    ensures { IsColumnChanged 256 0 (run.to - run.from) into (λ i. horner_value root.0 (λ a. cell 256 thirds.now (b + a * 17) i) 5) classes.old classes.new }
{
    let block = block_of(run);
    let columns = Stride {
        first: b,
        apart: 17,
        count: 5,
    };
    find_values(root, block, thirds, columns, block, classes, into);
}

/// The 17 class values at the power 17 × k of 2, from the thirds at its power 5.
fn find_classes(k: u8, run: Run, thirds: &[u8], classes: &mut [u8])
    requires few { run.to ≤ run.from + 256 }
    requires thirds_room { length thirds.now ≡ 21760 }
    requires room { length classes.old ≡ 65280 }
    requires low { k < 15 }
    ensures here { (b i : ℕ) → b < 17 → i < run.to - run.from → cell 256 classes.new (k * 17 + b) i ≡ horner_value (field_power 2 (17 * k)) (λ a. cell 256 thirds.now (b + a * 17) i) 5 }
    ensures other { (j i : ℕ) → (j < k * 17) ⊎ (k * 17 + 17 ≤ j) → i < 256 → cell 256 classes.new j i ≡ cell 256 classes.old j i }
{
    let root = Gf(2).power(u32::from(k) * 17);
    let first = usize::from(k) * 17;
    for b in 0..17usize {
        find_class(root, b, run, thirds, classes, first + b);
    }
}

/// The class values at the powers 17 × k of 2 with k = h, h + 3 and so on, which have the same power 85 × h.
fn find_some_classes(h: u8, run: Run, table: &[u8], classes: &mut [u8])
    requires few { run.to ≤ run.from + 256 }
    requires table_room { length table.now ≡ 255 * run.rows }
    requires room { length classes.old ≡ 65280 }
    requires low { h < 3 }
    ensures here { (n b i : ℕ) → n < 5 → b < 17 → i < run.to - run.from → cell 256 classes.new ((n * 3 + h) * 17 + b) i ≡ horner_value (field_power 2 (17 * (n * 3 + h))) (λ q. cell run.rows table.now (b + q * 17) (run.from + i)) 15 }
    ensures other { (k b i : ℕ) → (k % 3 ≡ h → ⊥) → b < 17 → i < 256 → cell 256 classes.new (k * 17 + b) i ≡ cell 256 classes.old (k * 17 + b) i }
{
    let mut thirds = [0u8; THIRDS];
    find_thirds(h, run, table, &mut thirds);
    for n in 0..5u8 {
        find_classes(n * 3 + h, run, &thirds, classes);
    }
}

/// All class values.
fn find_all_classes(run: Run, table: &[u8], classes: &mut [u8])
    requires few { run.to ≤ run.from + 256 }
    requires table_room { length table.now ≡ 255 * run.rows }
    requires room { length classes.old ≡ 65280 }
    ensures { (k b i : ℕ) → k < 15 → b < 17 → i < run.to - run.from → cell 256 classes.new (k * 17 + b) i ≡ horner_value (field_power 2 (17 * k)) (λ q. cell run.rows table.now (b + q * 17) (run.from + i)) 15 }
{
    for h in 0..3u8 {
        find_some_classes(h, run, table, classes);
    }
}

/// The syndromes at the power m of 2, from 17 columns of the class values from `first` on, in column m of `work`.
fn find_value(m: u8, run: Run, classes: &[u8], first: usize, work: &mut [u8])
    requires few { run.to ≤ run.from + 256 }
    requires classes_room { length classes.now ≡ 65280 }
    requires room { length work.old ≡ 64 * run.rows }
    requires low { m < 64 }
    requires first_low { first + 17 ≤ 255 }
    ensures { IsColumnChanged run.rows run.from run.to m (λ r. horner_value (field_power 2 m) (λ b. cell 256 classes.now (first + b) (r - run.from)) 17) work.old work.new }
{
    let root = Gf(2).power(u32::from(m));
    let block = block_of(run);
    let into = usize::from(m);
    let columns = Stride {
        first,
        apart: 1,
        count: 17,
    };
    find_values(root, block, classes, columns, run, work, into);
}

/// The syndromes of the rows of a block.
fn find_block(run: Run, table: &[u8], work: &mut [u8])
    requires few { run.to ≤ run.from + 256 }
    requires table_room { length table.now ≡ 255 * run.rows }
    requires room { length work.old ≡ 64 * run.rows }
    ensures found { (r : ℕ) → run.from ≤ r → r < run.to → HasSyndromes run.rows table.now work.new r }
    ensures outside { (j r : ℕ) → r < run.rows → (r < run.from) ⊎ (run.to ≤ r) → cell run.rows work.new j r ≡ cell run.rows work.old j r }
{
    let mut classes = [0u8; CLASSES];
    find_all_classes(run, table, &mut classes);
    for m in 0..64u8 {
        find_value(m, run, &classes, usize::from(m % 15) * 17, work);
    }
}

/// The syndromes of the rows at the powers 0 to 63 of 2, in the 64 columns of `work`.
pub fn find_syndromes(run: Run, table: &[u8], work: &mut [u8])
    requires table_room { length table.now ≡ 255 * run.rows }
    requires room { length work.old ≡ 64 * run.rows }
    ensures { (r : ℕ) → run.from ≤ r → r < run.to → HasSyndromes run.rows table.now work.new r }
{
    let rows = run.rows;
    let mut from = run.from;
    while from < run.to {
        let to = run.to.min(from + BLOCK);
        find_block(Run { rows, from, to }, table, work);
        from = to;
    }
}
