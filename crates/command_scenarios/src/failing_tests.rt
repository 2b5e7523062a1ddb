//! Each call of a run fails in turn, up to the one that does not come.
//!
//! A table is of one run. A line has three columns with `|` between:
//!
//! 1. The calls, each of which fails in a run of its own: `input=0-3` is each of the calls 0 to 3 of the input.
//! 2. How many bytes are left of the output or the file, where `-` says that there is no file, and `all` all bytes of a whole run.
//! 3. The line that is reported, as in `runs`.
use crate::runs::{Run, ends, leaving, three};
use crate::settings::settings_of;
use crate::words::bytes_in;
use scenario_runs::sent;
use std::alloc::Global;
use std::test::Fail;
use test_recordings::{SmallPacket, range_of, small_capture, small_recording};

/// The capture has a head of 24 bytes, and for each frame a head of 16 and 60 bytes: 176 in all, of which the input has reads of 24 bytes, 100
/// and 52, and one that finds the end. Nothing is written before that. The output's calls are a write and a flush.
const BRIDGE: &str = "input=0-3|0|fault of the input
output=0|0|fault of the output
output=1|all|fault of the output
input=4 output=2 rack=0 shelf=0|all|offered 2, too short 0, too long 0";

/// Of the packet the input has reads of 100 bytes and 88, of the baseband frame 20 reads, and one that finds the end. After a fault of the
/// input the file is the capture of what was read so far.
const PACKET: &str = "input=0-1|24|fault of the input
input=2|all|fault of the input
input=4|all|";

const BASEBAND: &str = "input=0-19|24|fault of the input
input=20|all|fault of the input
input=21|all|";

/// The rack's calls are: add, the head, for each frame its head and its bytes, flush.
const RACK: &str = "rack=0|-|fault of a written file
rack=1|0|fault of a written file
rack=2|24|fault of a written file
rack=3|40|fault of a written file
rack=4|100|fault of a written file
rack=5|116|fault of a written file
rack=6|176|fault of a written file
rack=7 output=0 shelf=0|all|";

/// The input's calls are two reads for each of the three packets, of 100 bytes and of 88, and one that finds the end. Nothing is written
/// before that.
const FIND: &str = "input=0-6|0|fault of the input
output=0|0|fault of the output
output=1|all|fault of the output
input=7 output=2 shelf=0 rack=0|all|";

/// The shelf's call is the load.
const TABLES: &str = "shelf=0|0|fault of the settings file
output=0|0|fault of the output
output=1|all|fault of the output
shelf=1 output=2 input=0 rack=0|all|";

/// The shelf's calls are two loads. The datagrams of three packets go out in one packet, and not before the input has ended.
const RELAY: &str = "shelf=0-1|0|fault of the settings file
input=0-6|0|fault of the input
output=0|0|fault of the output
output=1|all|fault of the output
shelf=2 input=7 output=2 rack=0|all|offered 3, not IP 0, unrouted 0, too long 0";

/// The rack's call does not come.
const FULL: &str = "rack=0|187|fault of the output";

/// So many bytes of what a whole run leaves.
fn part_of<'a>(whole: &'a [u8], size: &str) -> Result<Option<&'a [u8]>, Fail> {
    match size {
        "-" => Ok(None),
        "all" => Ok(Some(whole)),
        _ => Ok(Some(whole.get(..size.parse()?).ok_or("a longer part")?)),
    }
}

/// Each call of a word fails in turn of a run that ends so.
fn word_fails(alloc: Global, run: &Run<'_>, word: &str) -> Result<(), Fail> {
    let (object, calls) = word.split_once('=').ok_or("no calls")?;
    let (first, last) = range_of(calls)?;
    for number in first..last.saturating_add(1) {
        let call = format!(in alloc; "{};{object}={number}", run.call)?;
        ends(
            alloc,
            &call,
            &Run {
                call: &call,
                ..*run
            },
        )?;
    }
    Ok(())
}

/// Each call of a line fails in turn.
fn line_fails(alloc: Global, whole: &Run<'_>, text: &str) -> Result<(), Fail> {
    let (words, size, line) = three(text)?;
    let left = part_of(whole.left.ok_or("nothing is left")?, size)?;
    let run = Run {
        left,
        line,
        ..*whole
    };
    for word in words.split_whitespace() {
        word_fails(alloc, &run, word)?;
    }
    Ok(())
}

/// Each call of a table fails in turn.
fn all_fail(alloc: Global, whole: &Run<'_>, table: &str) -> Result<(), Fail> {
    for text in table.lines() {
        line_fails(alloc, whole, text)?;
    }
    Ok(())
}

/// Each call of a table fails in turn, of a run that is given the bytes of words, and leaves those of others.
fn words_fail(alloc: Global, call: &str, words: [&str; 2], table: &str) -> Result<(), Fail> {
    let input = bytes_in(alloc, words[0])?;
    let left = bytes_in(alloc, words[1])?;
    all_fail(alloc, &leaving(call, &input, &left, ""), table)
}

/// Two frames, in a capture, in a packet and in a baseband frame.
const CAPTURE: &str = "ETHERNET RECORD RECORD";

const IN_PACKET: &str = "47410010 00 80400001 FRAME BC0730EC 80400001 FRAME BC0730EC FILL";

const IN_BASEBAND: &str = "500700000400000000A3 E03E0001 FRAME E03E0001 FRAME ZEROS";

#[test]
fn each_call_of_a_bridge_fails(rt: HostRuntime) -> Result<(), Fail> {
    words_fail(rt.alloc(), "bridge,ule:256", [CAPTURE, IN_PACKET], BRIDGE)?;
    words_fail(rt.alloc(), "bridge,gse:7", [CAPTURE, IN_BASEBAND], BRIDGE)
}

#[test]
fn each_call_of_a_reception_of_frames_fails(rt: HostRuntime) -> Result<(), Fail> {
    for table in [PACKET, RACK] {
        words_fail(rt.alloc(), "unbridge,ule:256", [IN_PACKET, CAPTURE], table)?;
    }
    for table in [BASEBAND, RACK] {
        words_fail(rt.alloc(), "unbridge,gse:7", [IN_BASEBAND, CAPTURE], table)?;
    }
    Ok(())
}

#[test]
fn each_call_of_a_search_fails(rt: HostRuntime) -> Result<(), Fail> {
    let words = ["PAT@0 PMT@8190 INT@600", "both"];
    words_fail(rt.alloc(), "find,600", words, FIND)
}

#[test]
fn each_call_of_written_tables_fails(rt: HostRuntime) -> Result<(), Fail> {
    let words = ["", "PAT@0 PMT_FIRST@8190 INT_FIRST@600"];
    words_fail(
        rt.alloc(),
        "tables,a.toml;a=INT+LECTURE+TAG_1",
        words,
        TABLES,
    )
}

/// A packet with an SNDU.
fn packet(counter: u8) -> SmallPacket {
    SmallPacket { pid: 256, counter }
}

/// Beside the calls, the output has no room for the packet.
fn relay_fails(alloc: Global, recording: &[u8], stream: &[u8]) -> Result<(), Fail> {
    let call = "relay,a.toml,b.toml;a=SNDUS;b=SECTIONS";
    all_fail(alloc, &leaving(call, recording, stream, ""), RELAY)?;
    let call = "relay,a.toml,b.toml;a=SNDUS;b=SECTIONS;room=187";
    all_fail(alloc, &leaving(call, recording, stream, ""), FULL)
}

/// The packet of their datagrams.
fn stream_of(alloc: Global) -> Result<Vec<u8>, Fail> {
    let capture = small_capture(alloc, 3)?;
    let settings = settings_of(alloc, "SECTIONS")?;
    sent(alloc, &settings, &capture, 1000)
}

#[test]
fn each_call_of_a_relay_fails(rt: HostRuntime) -> Result<(), Fail> {
    let packets = [packet(0), packet(1), packet(2)];
    let recording = small_recording(rt.alloc(), &packets, 0)?;
    let stream = stream_of(rt.alloc())?;
    relay_fails(rt.alloc(), &recording, &stream)
}
