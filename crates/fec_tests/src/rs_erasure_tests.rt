//! Rows with lost places, one at a time and in a run; the codeword's parity is an independent program's.

ghost use Rattle.std.specs.List.{All};
ghost use Rattle.std.specs.List.Sorted.{IsStrictlyIncreasing};
ghost use Rattle.std.specs.Prelude.{◌-◌, ◌<◌, ◌≤◌, length};

use crate::outside_parity::PARITY;
use arrayvec::ArrayVec;
use rs_erasure::{RowAnswer, decode_row, decode_run};
use std::alloc::Global;
use std::fmt::Write;
use std::test::Fail;
use test_lines::{expect_lines, numbers_of};

/// The codeword whose data byte j is j.
fn codeword() -> [u8; 255] {
    let mut row = [0; 255];
    for place in 0..191u8 {
        row[usize::from(place)] = place;
    }
    row[191..].copy_from_slice(&PARITY);
    row
}

/// The places from the first up to but not including the end.
fn places(first: u8, end: u8) -> ArrayVec<u8, 255>
    requires order { first ≤ end }
    ensures low { All (λ p. p < 255) result.items }
    ensures rising { IsStrictlyIncreasing result.items }
    ensures few { length result.items ≤ end - first }
{
    let mut places = ArrayVec::new();
    for place in first..end {
        places.push(place);
    }
    places
}

/// What a row is after a call.
fn state_of(before: &[u8; 255], after: &[u8; 255]) -> &'static str {
    if after.as_slice() == codeword().as_slice() {
        "the codeword"
    } else if after.as_slice() == before.as_slice() {
        "as before"
    } else {
        "another row"
    }
}

/// The name of an answer.
fn name_of(answer: RowAnswer) -> &'static str {
    match answer {
        RowAnswer::Done => "Done",
        RowAnswer::TooMany => "TooMany",
        RowAnswer::Inconsistent => "Inconsistent",
    }
}

/// How many places of the codeword are lost from the first on, and what is added to its last byte; after `|` what becomes of the row
/// (EN 301 192 clause 9): 64 parity bytes fill 64 places and not 65, and tell a changed bit.
const ROWS_ALONE: &str = "64 0|Done, the codeword
65 0|TooMany, as before
0 1|Inconsistent, as before";

/// What becomes of a row.
fn decoded(alloc: Global, words: &str) -> Result<String, Fail> {
    let [lost, added] = numbers_of::<2>(words)?;
    let lost = u8::try_from(lost)?;
    let mut row = codeword();
    for place in 0..lost {
        row[usize::from(place)] = 0;
    }
    row[254] ^= u8::try_from(added)?;
    let before = row;
    let answer = decode_row(&mut row, &places(0, lost));
    Ok(format!(in alloc; "{}, {}", name_of(answer), state_of(&before, &row))?)
}

#[test]
fn sixty_four_places_are_filled_and_sixty_five_refused(rt: HostRuntime) -> Result<(), Fail> {
    expect_lines(rt.alloc(), decoded, ROWS_ALONE)
}

/// How many rows a table has.
const ROWS: usize = 5;

/// One row of a table.
fn row_of(table: &[u8; 255 * ROWS], row: usize) -> [u8; 255]
    requires { row < 5 }
{
    let mut bytes = [0; 255];
    for column in 0..255usize {
        bytes[column] = table[column * ROWS + row];
    }
    bytes
}

/// The table whose rows are all the codeword, but that in the columns from the first up to the end each has its own number.
fn table_of(first: usize, end: usize) -> [u8; 255 * ROWS] {
    let row = codeword();
    let mut table = [0u8; 255 * ROWS];
    for at in 0..ROWS {
        for column in 0..255usize {
            table[column * ROWS + at] = if first <= column && column < end {
                at as u8
            } else {
                row[column]
            };
        }
    }
    table
}

/// The first row of a run, the end of the run, the first lost column, the end of the lost columns, and the row of which a bit of column 7 is
/// changed; after `|` of each row its byte of `bad`, which was 7, what `decode_row` answers where the run has the row, and what became of it.
const RUNS: &str =
    "1 4 190 201 2|7 as before; 0 Done, the codeword; 1 Inconsistent, as before; 0 Done, the codeword; 7 as before
0 5 100 164 5|0 Done, the codeword; 0 Done, the codeword; 0 Done, the codeword; 0 Done, the codeword; 0 Done, the codeword";

/// What `decode_row` answers for a row, where it leaves the row as the run has.
fn answer_of(
    before: &[u8; 255],
    after: &[u8; 255],
    unknown: &ArrayVec<u8, 255>,
) -> Result<&'static str, Fail>
    requires low { All (λ p. p < 255) unknown.now.items }
    requires rising { IsStrictlyIncreasing unknown.now.items }
{
    let mut alone = *before;
    let answer = name_of(decode_row(&mut alone, unknown));
    if alone.as_slice() != after.as_slice() {
        return Err(Fail::new("a run that does not what decode_row does"));
    }
    Ok(answer)
}

/// What becomes of the rows of a table in a run.
fn rows_of(
    alloc: Global,
    before: &[u8; 255 * ROWS],
    after: &[u8; 255 * ROWS],
    bad: &[u8; ROWS],
    from: usize,
    to: usize,
    unknown: &ArrayVec<u8, 255>,
) -> Result<String, Fail>
    requires low { All (λ p. p < 255) unknown.now.items }
    requires rising { IsStrictlyIncreasing unknown.now.items }
{
    let mut text = String::new(alloc);
    for row in 0..ROWS {
        let was = row_of(before, row);
        let is = row_of(after, row);
        let separator = if row == 0 { "" } else { "; " };
        write!(&mut text, "{separator}{} ", bad[row])?;
        if from <= row && row < to {
            write!(&mut text, "{}, ", answer_of(&was, &is, unknown)?)?;
        }
        text.push_str(state_of(&was, &is))?;
    }
    Ok(text)
}

/// What becomes of a table.
fn after_run(alloc: Global, words: &str) -> Result<String, Fail> {
    let [from, to, first, end, changed] = numbers_of::<5>(words)?;
    let from = usize::try_from(from)?;
    let to = usize::try_from(to)?;
    let first = u8::try_from(first)?;
    let end = u8::try_from(end)?;
    if from > to || to > ROWS || first > end || end - first > 64 {
        return Err(Fail::new("no such run"));
    }
    let unknown = places(first, end);
    let mut table = table_of(usize::from(first), usize::from(end));
    if changed < 5 {
        table[7 * ROWS + changed as usize] ^= 0x10;
    }
    let before = table;
    let mut work = [0xEE; 64 * ROWS];
    let mut bad = [7; ROWS];
    decode_run(&mut table, ROWS, from, to, &unknown, &mut work, &mut bad);
    rows_of(alloc, &before, &table, &bad, from, to, &unknown)
}

#[test]
fn a_run_does_what_single_rows_do(rt: HostRuntime) -> Result<(), Fail> {
    expect_lines(rt.alloc(), after_run, RUNS)
}
