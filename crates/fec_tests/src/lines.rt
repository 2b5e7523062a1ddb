//! What a line of a table says of bytes, as hex text.
use std::alloc::{AllocError as OutOfMemory, Global};
use std::fmt::Write;
use std::test::Fail;
use test_lines::{expect, numbers_of};

/// Appends bytes as hex text.
pub(crate) fn put_hex(text: &mut String, bytes: &[u8]) -> Result<(), OutOfMemory> {
    for (place, byte) in bytes.iter().enumerate() {
        let separator = if place == 0 { "" } else { " " };
        write!(text, "{separator}{byte:02X}")?;
    }
    Ok(())
}

/// So many bytes of a piece from a byte on, or fewer where the bytes end before. Piece `number` begins where the one before ends.
pub(crate) fn bytes_at<'b>(
    bytes: &'b [u8],
    ends: &[usize],
    number: usize,
    from: usize,
    count: usize,
) -> Option<&'b [u8]> {
    let start = match number.checked_sub(1) {
        Some(before) => *ends.get(before)?,
        None => 0,
    };
    let rest = bytes.get(start..)?.get(from..)?;
    Some(&rest[..count.min(rest.len())])
}

/// A place, and the bytes due there.
fn case_of(line: &str) -> Option<(&str, &str)> {
    let (place, said) = line.split_once('|')?;
    let (due, _) = said.split_once('|')?;
    Some((place, due))
}

/// Fails where a line of a table differs from the bytes.
fn expect_line(alloc: Global, bytes: &[u8], ends: &[usize], line: &str) -> Result<(), Fail> {
    let Some((place, due)) = case_of(line) else {
        return Err(Fail::new(format_args!("{line}: no case")));
    };
    let [number, from] = numbers_of::<2>(place)?;
    let count = due.split(' ').count();
    let Some(there) = bytes_at(bytes, ends, number as usize, from as usize, count) else {
        return Err(Fail::new(format_args!("{line}: no such byte")));
    };
    let mut text = String::new(alloc);
    put_hex(&mut text, there)?;
    expect(place, &text, due)
}

/// Fails where a table differs from the bytes.
///
/// A line has the number of a piece and the number of a byte in it; after `|` the bytes there; after another `|` what they are.
pub(crate) fn expect_bytes(
    alloc: Global,
    bytes: &[u8],
    ends: &[usize],
    table: &str,
) -> Result<(), Fail> {
    for line in table.lines() {
        expect_line(alloc, bytes, ends, line)?;
    }
    Ok(())
}
