//! What no clause says of `send SETTINGS`: that a run over objects in memory ends so, with ample memory.
//! Packets by hand from RFC 4326 and ISO/IEC 13818-1, a frame by hand from EN 302 307-1 and TS 102 606-1.
//!
//! The tables have the columns of `run_lines`. Given are settings by their name, how many datagrams for the files a capture has beside two
//! others, how many of its bytes come, and how many bytes the output takes. Left is how many bytes of the stream are written, and how many
//! of them are flushed.
use crate::run_lines::{Run, RunLine, ends, pair_of, read_line, settings_of};
use std::alloc::Global;
use std::test::Fail;
use test_recordings::{bytes_of, capture_of_files, packet_of_files};

/// Two datagrams, one packet: both SNDUs begin in it (RFC 4326 section 7.2). Up to a fault of the capture, the packet of what stands before
/// it is written, and flushed.
///
/// The third record begins at byte 112, and has a head of 16 bytes and 10 others; the whole capture has 182 bytes. The input's
/// calls are a head, two parts of the records, and the end; the output's are all packets and a flush.
const IN_PACKETS: &str =
    "one datagram|FILES 1 138 1000|a.toml|188 188|offered 1, not IP 1, unrouted 1, too long 0
two datagrams|FILES 2 182 1000|a.toml|188 188|offered 2, not IP 1, unrouted 1, too long 0
no byte|FILES 2 0 1000|a.toml|0 0|capture 1 at record 0
the head of a capture|FILES 2 24 1000|a.toml|0 0|offered 0, not IP 0, unrouted 0, too long 0
a cut capture|FILES 2 137 1000|a.toml|188 188|capture 6 at record 3
a cut capture|FILES 2 127 1000|a.toml|188 188|capture 5 at record 3
the input fails|FILES 2 182 1000|a.toml input=3|0 0|fault of the input
the output fails|FILES 2 182 1000|a.toml output=0|0 0|fault of the output
the output fails|FILES 2 182 100|a.toml|100 0|fault of the output
the output fails|FILES 2 182 1000|a.toml output=1|188 0|fault of the output
no settings|FILES 2 182 1000|b.toml|0 0|fault of the settings file
an unknown key|SPEED 2 182 1000|a.toml|0 0|settings 13";

/// The two datagrams in a baseband frame.
const IN_FRAMES: &str =
    "two datagrams in a frame|BASEBAND 2 182 1000|a.toml|300 300|offered 2, not IP 1, unrouted 1, too long 0
a cut capture in a frame|BASEBAND 2 137 1000|a.toml|300 300|capture 6 at record 3
the output has no room for a frame|BASEBAND 2 182 299|a.toml|299 0|fault of the output";

/// That frame: its header with ISI 1, DFL 560 and the CRC-8, a complete packet with its label, and one that re-uses the label. Zeros fill
/// it up.
const FRAME: &str = "5001 0000 0230 00 0000 C5
C024 0800 01005E020009 4500001C 00000000 40110000 0A000001 EF020009 090A0B0C0D0E0F10
F01E 0800 4500001C 00000000 40110000 0A000001 EF020009 090A0B0C0D0E0F10
00*220";

/// What is given.
#[derive(Clone, Copy)]
struct Sending {
    settings: &'static str,
    datagrams: usize,
    bytes: usize,
    room: usize,
}

/// Reads what is given.
fn sending_of(given: &str) -> Result<Sending, Fail> {
    let (name, rest) = given.split_once(' ').ok_or("no datagrams")?;
    let (datagrams, rest) = rest.split_once(' ').ok_or("no bytes")?;
    let datagrams = datagrams.parse::<usize>()?;
    let (bytes, room) = pair_of(rest)?;
    Ok(Sending {
        settings: settings_of(name)?,
        datagrams,
        bytes,
        room,
    })
}

/// Sends these bytes of a capture, and compares all that is left with the front of a stream.
fn leaves(
    alloc: Global,
    case: &RunLine<'_>,
    sending: &Sending,
    input: &[u8],
    stream: &[u8],
) -> Result<(), Fail> {
    let (written, flushed) = pair_of(case.left)?;
    let run = Run {
        words: &["send", "a.toml"],
        settings: sending.settings,
        input,
        room: sending.room,
        output: stream.get(..written).ok_or("no such front")?,
        flushed,
        files: &[],
    };
    ends(alloc, case, &run)
}

/// Sends the front of a capture.
fn goes_out(
    alloc: Global,
    case: &RunLine<'_>,
    sending: &Sending,
    stream: &[u8],
) -> Result<(), Fail> {
    let capture = capture_of_files(alloc, sending.datagrams)?;
    let input = capture.get(..sending.bytes).ok_or("no such front")?;
    leaves(alloc, case, sending, input, stream)
}

/// Sends the capture of a line in a packet.
fn packet_goes_out(alloc: Global, line: &str) -> Result<(), Fail> {
    let case = read_line(line)?;
    let sending = sending_of(case.given)?;
    let packet = packet_of_files(alloc, sending.datagrams)?;
    goes_out(alloc, &case, &sending, &packet)
}

#[test]
fn a_capture_is_sent_up_to_a_fault(rt: HostRuntime) -> Result<(), Fail> {
    for line in IN_PACKETS.lines() {
        packet_goes_out(rt.alloc(), line)?;
    }
    Ok(())
}

/// Sends the capture of a line in this frame.
fn frame_goes_out(alloc: Global, frame: &[u8], line: &str) -> Result<(), Fail> {
    let case = read_line(line)?;
    goes_out(alloc, &case, &sending_of(case.given)?, frame)
}

#[test]
fn a_capture_is_sent_in_frames_up_to_a_fault(rt: HostRuntime) -> Result<(), Fail> {
    let frame = bytes_of(rt.alloc(), FRAME)?;
    for line in IN_FRAMES.lines() {
        frame_goes_out(rt.alloc(), &frame, line)?;
    }
    Ok(())
}
