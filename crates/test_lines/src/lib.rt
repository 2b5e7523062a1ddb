//! Tables of cases as text, a case a line: what is given, `|`, what must come of it, and perhaps `|` and what the case shows.
//!
//! For the tests of other crates alone: what they answer is compared here, and the numbers of a line are read.
//! Begin with `expect_lines` where a function answers each line, and with `expect` for a text alone.
#![tactic(auto)]

use std::alloc::Global;
use std::test::Fail;

/// Fails where another text comes of a case than the one due.
pub fn expect(case: &str, is: &str, due: &str) -> Result<(), Fail> {
    if is != due {
        let message = format_args!("{case} gives\n{is}\nand not\n{due}");
        return Err(Fail::new(message));
    }
    Ok(())
}

/// Fails where `answer` of what a line gives is another text than the one due.
fn expect_line(
    alloc: Global,
    answer: fn(Global, &str) -> Result<String, Fail>,
    line: &str,
) -> Result<(), Fail>
    requires { (alloc : _) (given : _) → pre answer alloc given }
{
    let (given, rest) = line.split_once('|').ok_or("no bar")?;
    let (due, _) = rest.split_once('|').unwrap_or((rest, ""));
    expect(line, &answer(alloc, given)?, due)
}

/// Fails at the first line of a table that gives another text than the one due.
pub fn expect_lines(
    alloc: Global,
    answer: fn(Global, &str) -> Result<String, Fail>,
    table: &str,
) -> Result<(), Fail>
    requires { (alloc : _) (given : _) → pre answer alloc given }
{
    for line in table.lines() {
        expect_line(alloc, answer, line)?;
    }
    Ok(())
}

/// The numbers of a text, separated by spaces: as many as the caller takes.
pub fn numbers_of<const N: usize>(text: &str) -> Result<[u64; N], Fail> {
    let mut numbers = [0; N];
    let mut words = text.split(' ');
    for at in 0..N {
        numbers[at] = words.next().ok_or("too few numbers")?.parse::<u64>()?;
    }
    match words.next() {
        Some(_) => Err(Fail::new("too many numbers")),
        None => Ok(numbers),
    }
}
