//! Frames of 256 rows: what becomes of their sections, and how many of their rows are corrected.
ghost use Rattle.std.specs.Prelude.{◌≡◌};

use crate::outside_parity::PARITY;
use crate::tables::empty_table;
use fec_frame::{Table, TableAnswer, padding_of};
use std::alloc::{AllocError as OutOfMemory, Global};
use std::test::Fail;
use test_lines::{expect, expect_lines, numbers_of};

/// The bytes of an application data table whose bytes in column j are j.
fn data_of(alloc: Global) -> Result<Vec<u8>, OutOfMemory> {
    let mut data = Vec::new(alloc);
    for column in 0..191u8 {
        data.extend_from_slice(&[column; 256])?;
    }
    Ok(data)
}

/// Places one section with the data from this byte on, and the first columns of parity. Answers whether all were placed.
fn place_frame(table: &mut Table<Global>, data: &[u8], from: u32, columns: u8) -> bool
    requires rows { table.old.rows ≡ 256 }
    ensures rows { table.new.rows ≡ 256 }
{
    let data = data.get(from as usize..).unwrap_or(&[]);
    let columns = columns.min(64);
    let mut placed = table.data(from, true, false, data) == TableAnswer::Placed;
    for number in 0..columns {
        let column = [PARITY[usize::from(number)]; 256];
        let answer = table.parity(number, 0, columns - 1, number + 1 == columns, &column);
        placed = placed && answer == TableAnswer::Placed;
    }
    placed
}

/// Columns of application data that are lost from the first on, bytes of the next one that are lost too, and columns of parity that came;
/// after `|` the rows that were corrected, those that were not, and the data afterwards (EN 301 192 clause 9): 64 parity bytes fill 64 places
/// of a row and not 65, punctured columns counted. The rows that lack nothing of the application data count as neither.
const LOST: &str = "0 0 0|0 corrected, 0 left, whole
0 20 64|20 corrected, 0 left, whole
64 0 64|256 corrected, 0 left, whole
65 0 64|0 corrected, 256 left, unknown
64 156 64|100 corrected, 156 left, unknown
16 0 16|256 corrected, 0 left, whole
17 0 16|0 corrected, 256 left, unknown";

/// Whether byte 0 of a table is unknown, and otherwise whether the table has this application data.
fn state_of(table: &Table<Global>, data: &[u8]) -> &'static str
    requires rows { table.now.rows ≡ 256 }
{
    if !table.known(0) {
        "unknown"
    } else if table.bytes().starts_with(data) {
        "whole"
    } else {
        "other"
    }
}

/// What becomes of a frame.
fn solved(alloc: Global, table: &mut Table<Global>, data: &[u8]) -> Result<String, OutOfMemory>
    requires rows { table.old.rows ≡ 256 }
{
    let counts = table.solve();
    let state = state_of(table, data);
    format!(in alloc;
        "{} corrected, {} left, {state}",
        counts.mended, counts.left
    )
}

/// What becomes of the frame of words.
fn frame_of(alloc: Global, words: &str) -> Result<String, Fail> {
    let [lost, bytes, columns] = numbers_of::<3>(words)?;
    if lost > 190 || bytes > 255 || columns > 64 {
        return Err(Fail::new("no such frame"));
    }
    let data = data_of(alloc)?;
    let mut table = empty_table(alloc)?;
    let from = (lost * 256 + bytes) as u32;
    if !place_frame(&mut table, &data, from, columns as u8) {
        return Err(Fail::new("not placed"));
    }
    Ok(solved(alloc, &mut table, &data)?)
}

#[test]
fn rows_are_corrected_up_to_sixty_four_unknown_bytes(rt: HostRuntime) -> Result<(), Fail> {
    expect_lines(rt.alloc(), frame_of, LOST)
}

/// Calls with a number each, and after `|` what they answer (EN 301 192 clause 9). Sections have two bytes, and this address; the last one has
/// table_boundary. Where a datagram ends the table, the rest of it is zeros, and what comes next is of another frame. So is a datagram
/// before the end of the last one.
const CALLS: &str = "empty 0|true
data 300000|OutOfTable
data 48895|OutOfTable
data 0|Placed
data 1|NewFrame
last 2|Placed
data 4|NewFrame
empty 0|false
known 48895|true
known 48896|false
clear 0|
empty 0|true
known 0|false";

/// The name of a Boolean value.
fn word_of(value: bool) -> &'static str {
    if value { "true" } else { "false" }
}

/// The name of an answer.
fn name_of(answer: TableAnswer) -> &'static str {
    match answer {
        TableAnswer::Placed => "Placed",
        TableAnswer::NewFrame => "NewFrame",
        TableAnswer::OutOfTable => "OutOfTable",
    }
}

/// What a call answers.
fn answer_of(table: &mut Table<Global>, words: &str) -> Option<&'static str> {
    let (call, number) = words.split_once(' ')?;
    let number = number.parse::<u32>().ok()?;
    let place = number as usize;
    match call {
        "data" => Some(name_of(table.data(number, false, false, &[7, 8]))),
        "last" => Some(name_of(table.data(number, true, false, &[7, 8]))),
        "empty" => Some(word_of(table.is_empty())),
        "known" => Some(word_of(place < table.bytes().len() && table.known(place))),
        "clear" => {
            table.clear();
            Some("")
        }
        _ => None,
    }
}

/// Makes the call of a line.
fn call(table: &mut Table<Global>, line: &str) -> Result<(), Fail> {
    let Some((words, due)) = line.split_once('|') else {
        return Err(Fail::new("no bar"));
    };
    expect(line, answer_of(table, words).unwrap_or("no call"), due)
}

#[test]
fn sections_are_placed_until_the_next_frame(rt: HostRuntime) -> Result<(), Fail> {
    let mut table = empty_table(rt.alloc())?;
    for line in CALLS.lines() {
        call(&mut table, line)?;
    }
    Ok(())
}

/// 256 rows.
#[test]
fn a_column_that_is_begun_is_no_padding_column(rt: HostRuntime) {
    assert!(rt; padding_of(256, 1) == 190 && padding_of(256, 256) == 190);
    assert!(rt; padding_of(256, 257) == 189);
}
