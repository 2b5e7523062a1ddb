//! Relays of small recordings: from SNDUs to datagram_sections, from MPE-FEC frames, of two services into one.
use crate::words::{SECTIONS, named, plan_of};
use capture_intake::CaptureEnd;
use ipe_io::{MemSink, MemSource};
use relay_command::{RelayEnd, relay};
use send_command::send;
use std::alloc::{AllocError as OutOfMemory, Global};
use std::test::Fail;
use test_lines::expect_lines;
use test_recordings::settings::{FRAMES, ONE_AND_TWO};
use test_recordings::units::{SECTION, SNDU};
use test_recordings::{filled, joined, on_pid, small_capture, start};

/// A service of SNDUs on PID 256.
const SNDUS: &str = "[[service]]
name = \"sndus\"
kind = \"ule\"
pid = 256
rules = [\"239.0.0.0/8\"]
";

/// How a relay of a recording ends, and what it wrote. A read gives 100 bytes at most.
fn relayed(
    alloc: Global,
    inner: &str,
    outer: &str,
    recording: &[u8],
    input_fails: &[u32],
    output_fails: &[u32],
) -> Result<(RelayEnd, MemSink), Fail> {
    let inner = plan_of(alloc, inner)?;
    let outer = plan_of(alloc, outer)?;
    let mut input = MemSource::new(alloc, recording, 100, input_fails)?;
    let mut output = MemSink::new(alloc, 10_000, output_fails)?;
    let end = relay(alloc, &inner, &outer, &mut input, &mut output);
    Ok((end, output))
}

/// The stream that is sent of so many datagrams, from their capture.
fn stream_of(alloc: Global, outer: &str, count: usize) -> Result<MemSink, Fail> {
    let plan = plan_of(alloc, outer)?;
    let capture = small_capture(alloc, count)?;
    let mut input = MemSource::new(alloc, &capture, 100, &[])?;
    let mut output = MemSink::new(alloc, 10_000, &[])?;
    match send(alloc, &plan, &mut input, &mut output) {
        CaptureEnd::Done(_) => Ok(output),
        _ => Err(Fail::new("a capture")),
    }
}

/// Packets of PID 256 with one SNDU each, by their continuity_counters; after `;` how many bytes stand after them, and the call of the input
/// or of the output that fails; after `|` how the relay ends, and how many bytes of the packet with the section are written and flushed.
///
/// A read gives 100 bytes at most: two for a packet, and one at the end.
const CASES: &str = "\
0|Done(Tally { offered: 1, not_ip: 0, unrouted: 0, too_long: 0 }), 188 written, 188 flushed|one datagram
0 0|Done(Tally { offered: 1, not_ip: 0, unrouted: 0, too_long: 0 }), 188 written, 188 flushed|a duplicate packet
0; tail=187|Done(Tally { offered: 1, not_ip: 0, unrouted: 0, too_long: 0 }), 188 written, 188 flushed|187 bytes after the last packet
|Done(Tally { offered: 0, not_ip: 0, unrouted: 0, too_long: 0 }), 0 written, 0 flushed|an empty recording
0; input=0|SourceFault, 0 written, 0 flushed|the input fails
0; input=2|SourceFault, 0 written, 0 flushed|the input fails at the end
0; output=0|SinkFault, 0 written, 0 flushed|the output fails
0; output=1|SinkFault, 188 written, 0 flushed|the output is not flushed
; output=0|SinkFault, 0 written, 0 flushed|an empty stream is not flushed";

/// A recording of packets, and as many bytes after them.
fn recording_of(alloc: Global, counters: &str, tail: u32) -> Result<Vec<u8>, Fail> {
    let mut recording = Vec::new(alloc);
    for counter in counters.split_whitespace() {
        recording.extend_from_slice(&start(counter.parse::<u8>()?, 0, &SNDU))?;
    }
    recording.extend_from_slice(&filled(alloc, 0x47, tail as usize)?)?;
    Ok(recording)
}

/// How a relay ends, and how many bytes of the packet with the section its output has written and flushed: pointer_field 0 and bytes FF after
/// the section.
fn told(alloc: Global, end: RelayEnd, output: &MemSink) -> Result<String, Fail> {
    if !on_pid(start(0, 0, &SECTION), 300).starts_with(output.bytes()) {
        return Err(Fail::new("another packet"));
    }
    let written = output.bytes().len();
    let flushed = output.flushed();
    Ok(format!(in alloc; "{end:?}, {written} written, {flushed} flushed")?)
}

/// How the relay of a line ends.
fn end_of(alloc: Global, given: &str) -> Result<String, Fail> {
    let (counters, words) = given.split_once(';').unwrap_or((given, ""));
    let [tail, input, output] = named(words, "tail input output", [0, u32::MAX, u32::MAX])?;
    let recording = recording_of(alloc, counters, tail)?;
    let (end, output) = relayed(alloc, SNDUS, SECTIONS, &recording, &[input], &[output])?;
    told(alloc, end, &output)
}

#[test]
fn a_datagram_comes_again_in_a_section(rt: HostRuntime) -> Result<(), Fail> {
    expect_lines(rt.alloc(), end_of, CASES)
}

/// Whether a recording is relayed to its end, and these bytes are written.
fn is_relayed_to(alloc: Global, inner: &str, recording: &[u8], want: &[u8]) -> Result<bool, Fail> {
    let (end, output) = relayed(alloc, inner, SECTIONS, recording, &[], &[])?;
    Ok(matches!(end, RelayEnd::Done(_)) && output.bytes() == want)
}

/// Two services in, one out: what is relayed of three packets is what is sent of a capture of three datagrams.
#[test]
fn two_services_are_merged(rt: HostRuntime) -> Result<(), Fail> {
    let first = start(0, 0, &SNDU);
    let second = on_pid(start(0, 0, &SNDU), 257);
    let third = start(1, 0, &SNDU);
    let recording = joined(rt.alloc(), &[&first, &second, &third])?;
    let want = stream_of(rt.alloc(), SECTIONS, 3)?;
    assert!(rt; is_relayed_to(rt.alloc(), ONE_AND_TWO, &recording, want.bytes())?);
    Ok(())
}

/// A datagram_section of an MPE-FEC frame (EN 301 192 clause 9.3): address 0, without table_boundary and frame_boundary.
const OF_FRAME: [u8; 36] = [
    0x3E, 0xB0, 0x21, 0x03, 0x02, 0xC1, 0x00, 0x00, 0x00, 0x00, 0x00, 0x00, 0x45, 0x00, 0x00, 0x14,
    0x00, 0x00, 0x00, 0x00, 0x40, 0x11, 0x00, 0x00, 0x0A, 0x00, 0x00, 0x01, 0xEF, 0x01, 0x02, 0x03,
    0x1E, 0x4C, 0x39, 0x1A,
];

/// A frame that is under way at the end: its datagram comes with the end.
#[test]
fn a_frame_gives_its_datagram_at_the_end(rt: HostRuntime) -> Result<(), Fail> {
    let recording = on_pid(start(0, 0, &OF_FRAME), 512);
    let packet = on_pid(start(0, 0, &SECTION), 300);
    assert!(rt; is_relayed_to(rt.alloc(), FRAMES, &recording, &packet)?);
    Ok(())
}
