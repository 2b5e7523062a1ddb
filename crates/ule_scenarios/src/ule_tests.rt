//! What no clause says of `ule PID`, and of words that form no command: that a run over objects in memory ends so, with ample
//! memory, and what small recordings give.
use crate::run_lines::pair_of;
use crate::sndu_lines::writes;
use scenario_runs::expect;
use std::alloc::Global;
use std::test::Fail;
use test_recordings::{Left, SmallPacket, faultless, small_capture, small_recording};

const USAGE: &str =
    "usage: send SETTINGS, receive SETTINGS, ule PID, check SETTINGS, sample NUMBER, tables SETTINGS, find PID, bridge CARRIER, unbridge CARRIER, relay IN OUT";

const REFUSED: [&[&str]; 15] = [
    &[],
    &["send"],
    &["send", "a", "b"],
    &["ule"],
    &["ule", ""],
    &["ule", "8191"],
    &["ule", "00256"],
    &["ule", "0x100"],
    &["ule", "+256"],
    &["ule", "-1"],
    &["sample", "4294967296"],
    &["check"],
    &["check", ""],
    &["check", "-a"],
    &["--help"],
];

#[test]
fn words_that_form_no_command_add_no_file(rt: HostRuntime) -> Result<(), Fail> {
    let input = recording_of(rt.alloc(), "256/0", 0)?;
    let left = Left::line(USAGE);
    for words in REFUSED {
        let given = faultless(words, &[], &input);
        expect(rt.alloc(), "refused", &given, &left)?;
    }
    Ok(())
}

/// A case a line, with `|` between: what it shows; packets of an SNDU each, by their PID and continuity_counter; how many bytes stand after
/// them, and how many bytes the file has, all of them flushed.
///
/// One packet gives one datagram: the file's head of 24 bytes, the record's head of 16, the 20 bytes of the datagram. A duplicate gives none,
/// at once or after another PID's packet: 15 packets may be lost between, and nothing tells.
const CASES: &str = "no packet||0 24
187 bytes||187 24
a packet|256/0|0 60
100 bytes after a packet|256/0|100 60
another PID|257/0|0 24
a duplicate|256/0 256/0|0 60
two duplicates|256/0 256/0 256/0|0 60
a duplicate after another PID's packet|256/0 257/0 256/0|0 60
three packets|256/0 256/1 256/2|0 132";

/// The packet of `256/0`.
fn packet_of(word: &str) -> Result<SmallPacket, Fail> {
    let (pid, counter) = word.split_once('/').ok_or("no counter")?;
    Ok(SmallPacket {
        pid: pid.parse()?,
        counter: counter.parse()?,
    })
}

/// The packets of words, and so many bytes after them.
fn recording_of(alloc: Global, words: &str, tail: usize) -> Result<Vec<u8>, Fail> {
    let mut packets = Vec::new(alloc);
    for word in words.split_whitespace() {
        packets.push(packet_of(word)?)?;
    }
    Ok(small_recording(alloc, &packets, tail)?)
}

/// Receives the recording of a line, and compares the file with the front of a capture.
fn line_comes(alloc: Global, capture: &[u8], line: &str) -> Result<(), Fail> {
    let (name, rest) = line.split_once('|').ok_or("no packets")?;
    let (packets, numbers) = rest.split_once('|').ok_or("no numbers")?;
    let (tail, size) = pair_of(numbers)?;
    let front = capture.get(..size).ok_or("no such front")?;
    let recording = recording_of(alloc, packets, tail)?;
    writes(alloc, name, &recording, front)
}

#[test]
fn recordings_give_their_datagrams(rt: HostRuntime) -> Result<(), Fail> {
    let capture = small_capture(rt.alloc(), 3)?;
    for line in CASES.lines() {
        line_comes(rt.alloc(), &capture, line)?;
    }
    Ok(())
}
