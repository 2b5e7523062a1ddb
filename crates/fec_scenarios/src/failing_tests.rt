//! `receive` of an MPE-FEC frame of 256 rows (EN 301 192 clause 9), and `ule` over a recording of one packet: each call fails in turn.
use crate::cast::{Cast, capture_of, stream_of};
use crate::failing_calls::{Whole, all_fail, ends_done};
use std::alloc::Global;
use std::test::Fail;
use test_recordings::settings::{FRAMES, settings_of};
use test_recordings::{SmallPacket, report_of, small_capture, small_recording};

/// Three datagrams, a column each, and 16 columns of parity.
const FRAME: Cast = Cast {
    settings: &[FRAMES, "parity = 16\n"],
    sizes: "256*3",
    size: 188,
};

/// The capture has a head of 24 bytes, and for each datagram a head of 16 and 256 bytes: 840 in all.
///
/// The 19 sections of 272 bytes go in 29 packets, of which the input has a read of 100 bytes and one of 88 each, and then a read that
/// finds the end. The frame's last section ends in the last packet: up to then sections may still come, and no datagram is given. The
/// rack's calls are: add, the head, for each datagram its head and its bytes, flush. The output's are the report and a flush, after
/// the file was flushed. The shelf's is the load.
const OF_FRAME: &str = "input 24*58 840
rack - 0 24 40 296 312 568 584 840
output 840/840 840/840/unflushed
shelf -";

/// The report: no byte of a row is unknown.
const REPORT: &str = "stream records=29|lecture heard=29 units=19 frames=1 datagrams=3";

/// After a fault of the input the file is the capture of what was read so far, after one of the rack a front of the whole file, after
/// one of the output the whole file, and after one of the shelf there is none.
#[test]
fn each_call_of_a_reception_of_a_frame_fails(rt: HostRuntime) -> Result<(), Fail> {
    let settings = settings_of(rt.alloc(), FRAME.settings)?;
    let recording = stream_of(rt.alloc(), &FRAME)?;
    let capture = capture_of(rt.alloc(), FRAME.sizes, "0-2")?;
    let report = report_of(rt.alloc(), REPORT)?;
    let whole = Whole {
        words: &["receive", "a.toml"],
        settings: settings.as_bytes(),
        recording: &recording,
        name: "lecture.pcap",
        file: &capture,
        output: report.as_bytes(),
    };
    all_fail(rt.alloc(), &whole, OF_FRAME)
}

/// The packet with an SNDU of one datagram.
const PACKET: SmallPacket = SmallPacket {
    pid: 256,
    counter: 0,
};

static WORDS: [&str; 2] = ["ule", "256"];

/// The input's calls are a read of 100 bytes, one of 88, and one that finds the end: the datagram is written before the third. The
/// rack's are: add, the file's head of 24 bytes, the record's head of 16, the datagram of 20, flush. There is no other call.
const OF_SNDU: &str = "input 24*2 60
rack - 0 24 40 60
output
shelf";

/// A recording, and the capture that it leaves.
fn whole_of<'a>(recording: &'a [u8], file: &'a [u8]) -> Whole<'a> {
    Whole {
        words: &WORDS,
        settings: &[],
        recording,
        name: "ule.pcap",
        file,
        output: &[],
    }
}

/// After a fault of the input the file is the capture of what was read so far, after one of the rack a front of the whole file.
#[test]
fn each_call_of_a_reception_of_one_packet_fails(rt: HostRuntime) -> Result<(), Fail> {
    let recording = small_recording(rt.alloc(), &[PACKET], 0)?;
    let capture = small_capture(rt.alloc(), 1)?;
    all_fail(rt.alloc(), &whole_of(&recording, &capture), OF_SNDU)
}

/// A recording of so many bytes, fewer than the packet has, leaves the head of the capture alone; the packet leaves the datagram too.
fn cut_leaves(alloc: Global, recording: &[u8], capture: &[u8], length: usize) -> Result<(), Fail> {
    let size = if length == 188 { 60 } else { 24 };
    let recording = recording.get(..length).ok_or("a shorter packet")?;
    let file = capture.get(..size).ok_or("a shorter capture")?;
    let case = format!(in alloc; "a length of {length}")?;
    ends_done(alloc, &case, &whole_of(recording, file), &[])
}

/// A cut packet gives nothing: of 188 lengths each leaves the head of the capture alone, and 188 bytes leave the datagram too.
#[test]
fn a_packet_that_is_cut_gives_nothing(rt: HostRuntime) -> Result<(), Fail> {
    let recording = small_recording(rt.alloc(), &[PACKET], 0)?;
    let capture = small_capture(rt.alloc(), 1)?;
    for length in 0..189usize {
        cut_leaves(rt.alloc(), &recording, &capture, length)?;
    }
    Ok(())
}
