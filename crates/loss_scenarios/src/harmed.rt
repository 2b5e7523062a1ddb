//! What happens to a stream on its way, as text, and what comes of it.
//!
//! A line has columns with `|` between: the name of a case; what happens to the stream, as `2 9-24`, in the words of
//! `test_recordings::left_of`; and the columns of `received`. A line that begins with `#` explains the one after it.
use crate::received::{Reception, comes};
use std::alloc::Global;
use std::test::Fail;
use test_recordings::left_of;

/// Of a stream comes what a line says.
fn line_comes<'a>(
    alloc: Global,
    reception: &Reception<'a>,
    stream: &[u8],
    size: usize,
    line: &'a str,
) -> Result<(), Fail> {
    if line.starts_with("#") {
        return Ok(());
    }
    let (case, rest) = line.split_once('|').ok_or("no bar")?;
    let (words, columns) = rest.split_once('|').unwrap_or((rest, ""));
    let recording = left_of(alloc, stream, size, words)?;
    comes(alloc, case, reception, &recording, columns)
}

/// Of a stream of records of this size comes what each line of a table says.
pub fn all_come<'a>(
    alloc: Global,
    reception: &Reception<'a>,
    stream: &[u8],
    size: usize,
    table: &'a str,
) -> Result<(), Fail> {
    for line in table.lines() {
        line_comes(alloc, reception, stream, size, line)?;
    }
    Ok(())
}
