//! Tables of cases, a line each.
use crate::texts::{bytes_of, expect};
use std::alloc::{AllocError as OutOfMemory, Global};
use std::test::Fail;

/// Fails where `answer` of the bytes of a line is another text than the one due.
fn expect_line(
    alloc: Global,
    answer: fn(Global, &[u8]) -> Result<String, OutOfMemory>,
    line: &str,
) -> Result<(), Fail>
    requires { (alloc : _) (bytes : _) → pre answer alloc bytes }
{
    let Some((given, rest)) = line.split_once('|') else {
        return Err(Fail::new("no bar"));
    };
    let (due, _) = rest.split_once('|').unwrap_or((rest, ""));
    let bytes = bytes_of(alloc, given)?;
    expect(alloc, line, &answer(alloc, &bytes)?, due)
}

/// Fails at the first line of a table that gives another text than the one due: bytes, what comes of them, and perhaps what the case shows.
pub(crate) fn expect_read(
    alloc: Global,
    answer: fn(Global, &[u8]) -> Result<String, OutOfMemory>,
    table: &str,
) -> Result<(), Fail>
    requires { (alloc : _) (bytes : _) → pre answer alloc bytes }
{
    for line in table.lines() {
        expect_line(alloc, answer, line)?;
    }
    Ok(())
}

/// Fails where bytes have other digits.
pub(crate) fn expect_digits(alloc: Global, bytes: &[u8], want: &str) -> Result<(), Fail> {
    test_lines::expect("writing", &hex::encode(alloc, bytes)?, want)
}
