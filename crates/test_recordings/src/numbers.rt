//! Words -> numbers: `0-16 22` is 0 to 16, and 22; `256*64 20` is 64 times 256, and 20.
use std::alloc::Global;
use std::test::Fail;

/// The first and the last of the numbers of a word: `3-13`, or `3` alone.
pub fn range_of(word: &str) -> Result<(usize, usize), Fail> {
    let (first, last) = word.split_once('-').unwrap_or((word, word));
    let first = first.parse::<usize>()?;
    let last = last.parse::<usize>()?;
    if first > last {
        return Err("no such range".into());
    }
    Ok((first, last))
}

/// Appends the numbers of a word, as often as it says.
fn put_numbers(into: &mut Vec<u16>, word: &str) -> Result<(), Fail> {
    let (range, times) = word.split_once('*').unwrap_or((word, "1"));
    let (first, last) = range_of(range)?;
    for _ in 0..times.parse::<u16>()? {
        for number in first..last.saturating_add(1) {
            into.push(u16::try_from(number)?)?;
        }
    }
    Ok(())
}

/// The numbers of words.
pub fn numbers_in(alloc: Global, words: &str) -> Result<Vec<u16>, Fail> {
    let mut numbers = Vec::new(alloc);
    for word in words.split_whitespace() {
        put_numbers(&mut numbers, word)?;
    }
    Ok(numbers)
}
