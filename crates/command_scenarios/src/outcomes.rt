//! Settings, words and an input -> what a run that is done has left.
//!
//! It is copied out of the objects of the run, which one function owns: each way out of a function drops all that it owns, and that is dear
//! to check.
use crate::settings::settings_of;
use scenario_runs::{Ended, Status, ran};
use std::alloc::Global;
use std::test::Fail;
use test_recordings::{Given, faultless};

/// What a run that is done has left: the output, the line that it reports, how many files, and the bytes of one.
#[derive(Drop)]
pub struct Outcome {
    pub output: Vec<u8>,
    pub line: String,
    pub files: u32,
    pub file: Vec<u8>,
}

/// Copies what a run has left, which must be done, and have flushed all.
fn read_done(alloc: Global, ended: &Ended) -> Result<Outcome, Fail> {
    if ended.status != Status::Done {
        return Err("not done".into());
    }
    let outside = &ended.outside;
    let bytes = outside.output.bytes();
    let files = outside.rack.files();
    let file = if files == 1 {
        outside.rack.file(0)
    } else {
        &[]
    };
    if outside.output.flushed() != bytes.len() {
        return Err("not flushed".into());
    }
    let line = outside.line().ok_or("no line")?.to_string(alloc)?;
    let output = Vec::from_slice(alloc, bytes)?;
    let file = Vec::from_slice(alloc, file)?;
    Ok(Outcome {
        output,
        line,
        files,
        file,
    })
}

/// Runs a command under settings, which must be done.
pub fn done_under(
    alloc: Global,
    words: &[&str],
    settings: &str,
    input: &[u8],
) -> Result<Outcome, Fail> {
    let given = Given {
        room: 300_000,
        ..faultless(words, settings.as_bytes(), input)
    };
    let ended = ran(alloc, &given)?;
    read_done(alloc, &ended)
}

/// Runs a command under the settings of these names, which must be done.
pub fn done(alloc: Global, words: &[&str], names: &str, input: &[u8]) -> Result<Outcome, Fail> {
    let settings = settings_of(alloc, names)?;
    done_under(alloc, words, &settings, input)
}
