//! A whole frame, column by column: 191 data columns come in, 64 parity columns go out.
ghost use Rattle.std.specs.Prelude.{◌*◌, ◌+◌, ◌<◌, ◌≤◌, ◌≡◌, ◌%◌, ℕ, length, slice_index};
ghost use Rattle.wire_spec.specs.Bytes.{AreBytes};
ghost use Rattle.fec_spec.specs.Field.{field_product, field_sum};
ghost use Rattle.rs_encode.specs.Division.{IsNext};
ghost use Rattle.rs_encode.specs.Ring.{ring_row};

use crate::generator::{GENERATOR, PARITY};
use gf256::{Gf, horner_step, mul_add};

/// The encoder of a frame: it divides all rows at once, as `encode_row` does one (EN 301 192 clause 9).
#[derive(Drop)]
pub struct Columns<'a> {
    rows: usize,
    pushed: usize,
    /// The remainders. Their first byte stands in column `pushed + 1`, round, so that no column is ever moved, and after 191
    /// columns it stands in column 0.
    parity: &'a mut [u8],
    ghost room: { length parity.now ≡ 64 * rows },
    ghost few: { pushed ≤ 191 },
}

impl<'a> Columns<'a> {
    ghost use Rattle.std.specs.Prelude.{◌*◌, ◌+◌, ◌++◌, ◌<◌, ◌≡◌, ℕ, [], List, length, replicate};
    ghost use Rattle.fec_spec.specs.Codeword.{IsCodeword};
    ghost use Rattle.fec_spec.specs.Table.{table_row};
    ghost use Rattle.rs_encode.specs.Encoding.{Stands, buffer_of, parity_of, pushed_of, rows_of};

    /// An encoder of columns of `rows` bytes, over 64 × `rows` bytes, which it sets to zero.
    pub fn over(rows: usize, parity: &'a mut [u8]) -> Columns<'a>
        requires { length parity.old ≡ 64 * rows }
        ensures stands { Stands result [] }
        ensures rows { rows_of result ≡ rows }
        ensures pushed { pushed_of result ≡ 0 }
        ensures zero { parity_of result ≡ replicate (64 * rows) 0 }
        ensures same_buffer { buffer_of result ≡ parity.entry.ghost_name }
    {
        parity.fill(0);
        Columns {
            rows,
            pushed: 0,
            parity,
        }
    }

    /// Takes the next of the 191 data columns.
    pub fn push(&mut self, column: &[u8])
        requires rows { length column.now ≡ rows_of self.old }
        requires few { pushed_of self.old < 191 }
        ensures stands { (given : List ℕ) → Stands self.old given → Stands self.new (given ++ column.now) }
        ensures rows { rows_of self.new ≡ rows_of self.old }
        ensures pushed { pushed_of self.new ≡ pushed_of self.old + 1 }
        ensures same_buffer { buffer_of self.new ≡ buffer_of self.old }
    {
        let first = (self.pushed + 1) % PARITY;
        divide_rows(&GENERATOR, column, first, self.parity);
        self.pushed += 1;
    }

    /// The 64 parity columns, one after another: after the data columns they complete each row.
    pub fn finish(self) -> &'a [u8]
        requires { pushed_of self ≡ 191 }
        ensures written { (given : List ℕ) → Stands self.entry given → (r : ℕ) → r < rows_of self.entry
            → IsCodeword (table_row 255 (rows_of self.entry) (given ++ result.now) r) }
        ensures long { length result.now ≡ 64 * rows_of self.entry }
    {
        let parity = self.parity;
        parity
    }
}

/// One step of the division in each row, by the bytes of `column`. The first bytes of the remainders stand in column `first`.
fn divide_rows(generator: &[u8; PARITY], column: &[u8], first: usize, parity: &mut [u8])
    requires room { length parity.old ≡ 64 * length column.now }
    requires first { first < 64 }
    ensures bytes { AreBytes parity.new }
    ensures rows { (r : ℕ) → r < length column.now → IsNext generator.now (ring_row first (length column.now) parity.old r)
        (slice_index column.now r) (ring_row ((first + 1) % 64) (length column.now) parity.new r) }
{
    let rows = column.len();
    let last = PARITY - 1;
    let (before, rest) = parity.split_at_mut(first * rows);
    let (factors, behind) = rest.split_at_mut(rows);
    mul_add(Gf(1), column, factors);
    add_multiples(&generator[..last - first], factors, behind);
    add_multiples(&generator[last - first..last], factors, before);
    // the factors times the constant are made in place: a step of Horner's rule adds the column too, which is taken away
    horner_step(Gf(generator[last]), column, factors);
    mul_add(Gf(1), column, factors);
}

/// Adds to each of some columns its coefficient times the factors.
fn add_multiples(coefficients: &[u8], factors: &[u8], columns: &mut [u8])
    requires { length columns.old ≡ length coefficients.now * length factors.now }
    ensures { (k r : ℕ) → k < length coefficients.now → r < length factors.now
        → slice_index columns.new (k * length factors.now + r) ≡ field_sum (slice_index columns.old (k * length factors.now + r)) (field_product (slice_index coefficients.now k) (slice_index factors.now r)) }
{
    let rows = factors.len();
    for k in 0..coefficients.len() {
        let start = k * rows;
        mul_add(
            Gf(coefficients[k]),
            factors,
            &mut columns[start..start + rows],
        );
    }
}
