//! Samples whose summaries were computed by two models in another language, apart from this code.
use ipe_io::MemSink;
use sample_command::sample;
use std::alloc::Global;
use std::fmt::Write;
use std::test::Fail;
use test_lines::{expect_lines, numbers_of};

/// The lines that an output holds from a line on, how its sample ended, and how many of its bytes are flushed.
fn summary(alloc: Global, number: u32, output: &mut MemSink, from: usize) -> Result<String, Fail> {
    let end = sample(alloc, number, output);
    let mut text = String::new(alloc);
    for line in std::str::from_utf8(output.bytes())?.lines().skip(from) {
        write!(&mut text, "{line}, ")?;
    }
    write!(
        &mut text,
        "{end:?} {} of {}",
        output.flushed(),
        output.bytes().len()
    )?;
    Ok(text)
}

/// The summary of a line: a sample's number, the room of its output, the call of the output that fails, and the line of the summary from which
/// on it is shown; after `|` these lines, the end, and how many bytes of the summary are flushed.
fn summary_of(alloc: Global, asked: &str) -> Result<String, Fail> {
    let [number, room, fail, from] = numbers_of::<4>(asked)?;
    let mut output = MemSink::new(alloc, room as usize, &[u32::try_from(fail)?])?;
    summary(alloc, u32::try_from(number)?, &mut output, from as usize)
}

/// The output has room.
const SUMMARIES: &str =
    "1 100 9 0|offered 4000, packets 29068, dropped 898, lecture 2037 2037, files 1963 1694, Ok(()) 73 of 73
2 100 9 3|lecture 1996 1996, files 2004 1709, Ok(()) 73 of 73
4294967295 100 9 3|lecture 1968 1918, files 2032 1765, Ok(()) 73 of 73";

/// The whole summary of sample 1, and the lines of the services of two other numbers, the last number among them.
#[test]
fn samples_have_their_summaries(rt: HostRuntime) -> Result<(), Fail> {
    expect_lines(rt.alloc(), summary_of, SUMMARIES)
}

/// The summary of sample 1 has 73 bytes. The first call writes, and the second flushes where there is room for all of them.
const PREFIXES: &str = "1 100 0 0|Err(Sink) 0 of 0
1 100 1 0|offered 4000, packets 29068, dropped 898, lecture 2037 2037, files 1963 1694, Err(Sink) 0 of 73
1 30 9 0|offered 4000, packets 29068, dro, Err(Sink) 0 of 30";

/// An output that fails has a prefix of the summary.
#[test]
fn an_output_that_fails_has_a_prefix(rt: HostRuntime) -> Result<(), Fail> {
    expect_lines(rt.alloc(), summary_of, PREFIXES)
}
