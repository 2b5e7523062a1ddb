//! Each call of each object fails in turn while a recording is received.
use crate::pair::{SETTINGS, stream_of_pair};
use crate::settings_words::settings_of;
use scenario_runs::{Ended, ran};
use std::alloc::Global;
use std::test::Fail;
use test_recordings::{Failing, Given, faultless};

/// An object with how many calls it has, and whether the report may stand where one fails. The shelf has its load; the input two reads of
/// each of 29 records and one at the end; the output a write and a flush; the rack an add, a head and a flush of each of two files, and for
/// each of 17 datagrams its head and its bytes.
const CASES: [(Failing, bool); 4] = [
    (Failing::Shelf(1), false),
    (Failing::Input(59), false),
    (Failing::Output(2), true),
    (Failing::Rack(40), false),
];

/// The settings of the pair, and its stream.
#[derive(Drop)]
struct Pair {
    settings: String,
    stream: Vec<u8>,
}

fn sent_pair(alloc: Global) -> Result<Pair, Fail> {
    let settings = settings_of(alloc, SETTINGS)?;
    let stream = stream_of_pair(alloc, SETTINGS)?;
    Ok(Pair { settings, stream })
}

/// What a run leaves in which some calls fail.
fn received(alloc: Global, pair: &Pair, fails: &[Failing]) -> Result<Ended, Fail> {
    let given = faultless(
        &["receive", "a.toml"],
        pair.settings.as_bytes(),
        &pair.stream,
    );
    ran(alloc, &Given { fails, ..given })
}

/// What is wrong with the run in which a call fails; an empty text where nothing is.
fn difference(
    ended: &Ended,
    line: &str,
    has_report: bool,
    whole: &Ended,
) -> Result<&'static str, Fail> {
    if !ended.reports(line)? {
        return Ok("the line or the status");
    }
    if !has_report && !ended.outside.output.bytes().is_empty() {
        return Ok("a report");
    }
    if !ended.outside.is_front_of(&whole.outside) {
        return Ok("no front of what a run leaves");
    }
    Ok("")
}

/// The same of the run in which this call fails.
fn difference_at(
    alloc: Global,
    pair: &Pair,
    failing: Failing,
    has_report: bool,
    whole: &Ended,
) -> Result<&'static str, Fail> {
    let ended = received(alloc, pair, &[failing])?;
    difference(&ended, failing.fault(), has_report, whole)
}

/// Whether a run ends as a whole one, and leaves no less.
fn is_whole(ended: &Ended, whole: &Ended) -> Result<bool, Fail> {
    Ok(ended.reports("")? && whole.outside.is_front_of(&ended.outside))
}

/// Whether the run is whole in which this call would fail.
fn ends_whole(alloc: Global, pair: &Pair, failing: Failing, whole: &Ended) -> Result<bool, Fail> {
    let ended = received(alloc, pair, &[failing])?;
    is_whole(&ended, whole)
}

/// Each call of an object fails in turn, and the one after the last one does not come.
fn calls_fail(
    alloc: Global,
    pair: &Pair,
    calls: Failing,
    has_report: bool,
    whole: &Ended,
) -> Result<(), Fail> {
    for call in 0..calls.call() {
        let found = difference_at(alloc, pair, calls.at(call), has_report, whole)?;
        if !found.is_empty() {
            let line = calls.fault();
            return Err(Fail::new(format_args!("{line}, call {call}: {found}")));
        }
    }
    if !ends_whole(alloc, pair, calls, whole)? {
        return Err(calls.fault().into());
    }
    Ok(())
}

/// The same of each object.
fn all_fail(alloc: Global, pair: &Pair, whole: &Ended) -> Result<(), Fail> {
    if !whole.reports("")? {
        return Err("no whole run".into());
    }
    for (calls, has_report) in CASES {
        calls_fail(alloc, pair, calls, has_report, whole)?;
    }
    Ok(())
}

/// The run ends with the fault of that object, and what it leaves are fronts; without the report but for a fault of the output.
#[test]
fn each_call_that_fails_ends_the_reception(rt: HostRuntime) -> Result<(), Fail> {
    let pair = sent_pair(rt.alloc())?;
    let whole = received(rt.alloc(), &pair, &[])?;
    all_fail(rt.alloc(), &pair, &whole)
}
