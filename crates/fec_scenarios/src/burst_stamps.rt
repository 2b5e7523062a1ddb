//! Stamps that are not those of the sender. Sections of a service with time slicing need only come at times that separate its frames as
//! they announce; of all other services stamps say nothing.
//!
//! | Record | What |
//! |---|---|
//! | 0, 200 | the INT |
//! | 1 to 3 | files: four SNDUs of 114 bytes, 183 bytes in the first packet and 184 in another (RFC 4326 section 4) |
//! | 10 to 37, 210 to 237 | two bursts of two datagrams; the section of the second begins in packet 10 of its burst |
//! | the others | null packets |
//!
//! A record each 100 microseconds, or each 2,700 ticks at 27 MHz.
use crate::burst_losses::OTHERS_AND_BOTH;
use crate::burst_sent::{SHORT, SLICED, SMALL, TWO_BURSTS, form_of};
use crate::cast::{all_come, capture_of, stream_of};
use scenario_runs::{Ended, ran, sent};
use std::alloc::Global;
use std::test::Fail;
use test_recordings::settings::{FILES, INT, settings_of};
use test_recordings::{CAPTURE_HEAD, Given, bytes_of, faultless, joined, numbered_capture};

/// By how many microseconds all packets of burst 0 come later, and those of burst 1.
///
/// One second late; and by a clock that is a second ahead those of burst 0 40 milliseconds early, those of burst 1 40 late. Packets of
/// other PIDs keep their stamps. The other way burst 1 would come before the announced moment, which is rounded down by less than ten
/// milliseconds.
const LATER: [(u64, u64); 2] = [(1_000_000, 1_000_000), (960_000, 1_040_000)];

/// By how much a record comes later.
fn delay_of(record: usize, first: u64, second: u64) -> u64 {
    if 100 <= record && record <= 1534 {
        return first;
    }
    if 20_100 <= record && record <= 20_868 {
        return second;
    }
    0
}

/// Appends a stamped record, whose time is so much later.
fn put_delayed(into: &mut Vec<u8>, record: &[u8], by: u64) -> Result<(), Fail> {
    let [a, b, c, d, e, f, g, h, packet @ ..] = record else {
        return Err("no stamp".into());
    };
    let time = u64::from_be_bytes([*a, *b, *c, *d, *e, *f, *g, *h]);
    into.extend_from_slice(&time.saturating_add(by).to_be_bytes())?;
    into.extend_from_slice(packet)?;
    Ok(())
}

/// The stamped recording of two bursts that come later.
fn delayed(alloc: Global, stream: &[u8], first: u64, second: u64) -> Result<Vec<u8>, Fail> {
    let mut recording = Vec::new(alloc);
    for (number, record) in stream.chunks(196).enumerate() {
        put_delayed(&mut recording, record, delay_of(number, first, second))?;
    }
    Ok(recording)
}

/// The loss law where stamps of the service don't survive: what is received of two bursts is what is received by the sender's stamps,
/// also where nothing but the announced moment separates them.
#[test]
fn bursts_at_other_times_are_received(rt: HostRuntime) -> Result<(), Fail> {
    let stream = stream_of(rt.alloc(), &TWO_BURSTS)?;
    for (first, second) in LATER {
        let recording = delayed(rt.alloc(), &stream, first, second)?;
        all_come(rt.alloc(), &TWO_BURSTS, &recording, OTHERS_AND_BOTH)?;
    }
    Ok(())
}

/// A form of recording, a record, and another time of it: the bytes before its packet.
const CASES: &str = "a file packet at 1 microsecond in place of 200|stamped|2|0000000000000001
a null packet at 2^32 microseconds|stamped|5|0000000100000000
the second section of a burst at 2^32 microseconds|stamped|20|0000000100000000
a null packet at 50 ticks, between records of 10,800 and 16,200|m2ts|5|00000032";

/// The stream of the files of a capture and of the lecture.
fn stream_of_both(alloc: Global, settings: &str, files: &[u8]) -> Result<Vec<u8>, Fail> {
    let lecture = capture_of(alloc, "2000*4", "0-3")?;
    let rest = lecture.get(CAPTURE_HEAD.len()..).ok_or("no head")?;
    let both = joined(alloc, &[files, rest])?;
    sent(alloc, settings, &both, 100_000)
}

/// The recording in which one of 238 records has another time.
fn restamped(alloc: Global, stream: &[u8], record: usize, time: &[u8]) -> Result<Vec<u8>, Fail> {
    let size = time.len().saturating_add(188);
    if stream.len() != size.saturating_mul(238) {
        return Err("another stream".into());
    }
    let at = size.saturating_mul(record);
    let behind = at.saturating_add(time.len());
    let front = stream.get(..at).ok_or("no such record")?;
    let rest = stream.get(behind..).ok_or("no such stamp")?;
    Ok(joined(alloc, &[front, time, rest])?)
}

/// Sends both services, and gives one record another time.
fn recording_of(alloc: Global, settings: &str, files: &[u8], stamp: &str) -> Result<Vec<u8>, Fail> {
    let (record, time) = stamp.split_once('|').ok_or("no time")?;
    let record = record.parse::<usize>()?;
    let time = bytes_of(alloc, time)?;
    let stream = stream_of_both(alloc, settings, files)?;
    restamped(alloc, &stream, record, &time)
}

/// Whether a run has left whole files.
fn has_whole(ended: &Ended, files: &[u8]) -> Result<bool, Fail> {
    let rack = &ended.outside.rack;
    let whole = rack.files() == 2 && rack.name(1) == "files.pcap" && rack.file(1) == files;
    Ok(ended.reports("")? && whole)
}

/// Whether the files are whole that a reception of the recording leaves.
fn are_whole(alloc: Global, settings: &str, recording: &[u8], files: &[u8]) -> Result<bool, Fail> {
    let given = Given {
        room: 100_000,
        ..faultless(&["receive", "a.toml"], settings.as_bytes(), recording)
    };
    let ended = ran(alloc, &given)?;
    has_whole(&ended, files)
}

/// Sends, gives the record of a line another time, and receives: the files are whole.
fn files_come(alloc: Global, files: &[u8], line: &str) -> Result<(), Fail> {
    let (name, columns) = line.split_once('|').ok_or("no form")?;
    let (form, stamp) = columns.split_once('|').ok_or("no record")?;
    let form = form_of(form)?;
    let settings = settings_of(alloc, &[form, SHORT, INT, SLICED, SMALL, FILES])?;
    let recording = recording_of(alloc, &settings, files, stamp)?;
    if !are_whole(alloc, &settings, &recording, files)? {
        return Err(Fail::new(format_args!("{name}: the files")));
    }
    Ok(())
}

/// The loss law of a service by itself: whatever becomes of stamps, those of the sliced service, of the INT, of null packets and its own,
/// files in SNDUs arrive whole.
#[test]
fn files_arrive_whole_at_any_times(rt: HostRuntime) -> Result<(), Fail> {
    let files = numbered_capture(rt.alloc(), 2, &[100; 4], &[0, 1, 2, 3])?;
    for line in CASES.lines() {
        files_come(rt.alloc(), &files, line)?;
    }
    Ok(())
}
