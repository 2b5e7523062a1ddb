//! The one call of `run`, whose contract is long: it is proved once, and the tests are tables over `expect`.
use ipencap_engine::{Status, run};
use std::alloc::Global;
use std::test::Fail;
use test_recordings::{Given, Left, Outside, faultless, words_of};

/// How a run has ended, and what it has left.
#[derive(Drop)]
pub struct Ended {
    pub status: Status,
    pub outside: Outside,
}

/// Runs the program over objects in memory.
pub fn ran(alloc: Global, given: &Given<'_>) -> Result<Ended, Fail> {
    let words = words_of(alloc, given.words)?;
    let mut outside = Outside::new(alloc, given)?;
    let status = run(
        alloc,
        &words,
        &mut outside.shelf,
        &mut outside.input,
        &mut outside.output,
        &mut outside.rack,
        &mut outside.complaints,
    );
    Ok(Ended { status, outside })
}

/// What `send` writes of a capture: `room` bytes at most.
pub fn sent(alloc: Global, settings: &str, capture: &[u8], room: usize) -> Result<Vec<u8>, Fail> {
    let given = Given {
        room,
        ..faultless(&["send", "a.toml"], settings.as_bytes(), capture)
    };
    let ended = ran(alloc, &given)?;
    output_of(alloc, &ended)
}

/// The output of a run that is done.
fn output_of(alloc: Global, ended: &Ended) -> Result<Vec<u8>, Fail> {
    if ended.status != Status::Done {
        return Err("not sent".into());
    }
    Ok(Vec::from_slice(alloc, ended.outside.output.bytes())?)
}

/// The status of a run that reports this line.
fn status_of(line: &str) -> Result<Status, Fail> {
    match line {
        "" => Ok(Status::Done),
        "fault of the settings file" => Ok(Status::ShelfFault),
        "fault of the input" => Ok(Status::SourceFault),
        "fault of the output" => Ok(Status::SinkFault),
        "fault of a written file" => Ok(Status::RackFault),
        _ if line.starts_with("offered ") => Ok(Status::Done),
        _ if line.starts_with("capture ") => Ok(Status::Capture),
        _ if line.starts_with("settings ") => Ok(Status::Settings),
        _ if line.starts_with("usage: ") => Ok(Status::Usage),
        _ => Err("no such line".into()),
    }
}

impl Ended {
    /// Whether the run has reported this line, and has ended with its status.
    pub fn reports(&self, line: &str) -> Result<bool, Fail> {
        Ok(self.status == status_of(line)? && self.outside.line() == Some(line))
    }
}

/// What differs where the program runs; nothing at all: an empty text.
fn difference(alloc: Global, given: &Given<'_>, left: &Left<'_>) -> Result<&'static str, Fail> {
    let status = status_of(left.line)?;
    let ended = ran(alloc, given)?;
    Ok(if ended.status == status {
        ended.outside.difference(left)
    } else {
        "the status"
    })
}

/// Runs the program, and compares all that it leaves; the line determines the status. A difference fails as a text: the case, and what
/// differs.
pub fn expect(alloc: Global, case: &str, given: &Given<'_>, left: &Left<'_>) -> Result<(), Fail> {
    let difference = difference(alloc, given, left)?;
    if difference.is_empty() {
        return Ok(());
    }
    let mut text = String::from_str(alloc, case)?;
    text.push_str(": ")?;
    text.push_str(difference)?;
    Err(Fail::new(text))
}
