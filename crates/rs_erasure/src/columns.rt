//! Buffers of columns of one length, and what is done to one of their columns, in the rows of a run.

ghost use Rattle.fec_spec.specs.Field.{field_product, field_sum};
ghost use Rattle.gf256.specs.Horner.{horner_value};
ghost use Rattle.rs_erasure.specs.Columns.{IsColumnChanged, cell};
ghost use Rattle.std.specs.Prelude.{◌+◌, ◌-◌, ◌*◌, ◌<◌, ◌≡◌, ◌≤◌, length};

use gf256::{Gf, horner_columns, mul_add};

/// The rows `from` up to but not including `to` of columns of `rows` bytes.
#[derive(Clone, Copy)]
pub struct Run {
    pub rows: usize,
    pub from: usize,
    pub to: usize,
    ghost order: { from ≤ to },
    ghost within: { to ≤ rows },
}

/// So many columns of a buffer: `first`, `first + apart` and so on.
#[derive(Clone, Copy)]
pub struct Stride {
    pub first: usize,
    pub apart: usize,
    pub count: usize,
}

/// Makes a column 0.
pub fn clear_column(run: Run, buffer: &mut [u8], column: usize)
    requires room { (column + 1) * run.rows ≤ length buffer.old }
    ensures { IsColumnChanged run.rows run.from run.to column (λ r. 0) buffer.old buffer.new }
{
    let start = column * run.rows;
    buffer[start + run.from..start + run.to].fill(0);
}

/// Makes a column of `work` the values at `root` of some columns of a source, by Horner's rule, from the rows of their own run.
pub fn find_values(
    root: Gf,
    there: Run,
    source: &[u8],
    columns: Stride,
    run: Run,
    work: &mut [u8],
    into: usize,
)
    requires there_within { there.to ≤ there.rows }
    requires same { there.to ≡ there.from + (run.to - run.from) }
    requires several { 1 < columns.count }
    requires source_room { (columns.first + (columns.count - 1) * columns.apart + 1) * there.rows ≤ length source.now }
    requires room { (into + 1) * run.rows ≤ length work.old }
    ensures { IsColumnChanged run.rows run.from run.to into (λ r. horner_value root.0 (λ q. cell there.rows source.now (columns.first + q * columns.apart) (there.from + (r - run.from))) columns.count) work.old work.new }
{
    let first = columns.first * there.rows + there.from;
    let here = into * run.rows;
    horner_columns(
        root,
        source,
        first,
        columns.apart * there.rows,
        columns.count,
        &mut work[here + run.from..here + run.to],
    );
}

/// Adds `factor` times a column of one buffer to a column of another.
pub fn add_to_other(
    factor: Gf,
    run: Run,
    source: &[u8],
    column: usize,
    target: &mut [u8],
    into: usize,
)
    requires source_room { (column + 1) * run.rows ≤ length source.now }
    requires room { (into + 1) * run.rows ≤ length target.old }
    ensures { IsColumnChanged run.rows run.from run.to into (λ r. field_sum (cell run.rows target.old into r) (field_product factor.0 (cell run.rows source.now column r))) target.old target.new }
{
    let there = column * run.rows;
    let here = into * run.rows;
    mul_add(
        factor,
        &source[there + run.from..there + run.to],
        &mut target[here + run.from..here + run.to],
    );
}

/// Adds `factor` times a column to a later one.
pub fn add_to_later(factor: Gf, run: Run, work: &mut [u8], column: usize, into: usize)
    requires later { column < into }
    requires room { (into + 1) * run.rows ≤ length work.old }
    ensures { IsColumnChanged run.rows run.from run.to into (λ r. field_sum (cell run.rows work.old into r) (field_product factor.0 (cell run.rows work.old column r))) work.old work.new }
{
    let (before, after) = work.split_at_mut(into * run.rows);
    let there = column * run.rows;
    mul_add(
        factor,
        &before[there + run.from..there + run.to],
        &mut after[run.from..run.to],
    );
}

/// Adds `factor` times a column to an earlier one.
pub fn add_to_earlier(factor: Gf, run: Run, work: &mut [u8], column: usize, into: usize)
    requires earlier { into < column }
    requires room { (column + 1) * run.rows ≤ length work.old }
    ensures { IsColumnChanged run.rows run.from run.to into (λ r. field_sum (cell run.rows work.old into r) (field_product factor.0 (cell run.rows work.old column r))) work.old work.new }
{
    let (before, after) = work.split_at_mut(column * run.rows);
    let here = into * run.rows;
    mul_add(
        factor,
        &after[run.from..run.to],
        &mut before[here + run.from..here + run.to],
    );
}
