//! Small captures, and the streams that are sent of them; packets by hand from RFC 4326 and ISO/IEC 13818-1.
use crate::words::{named, plan_of};
use capture_intake::CaptureEnd;
use ipe_io::{Failed, MemSink, MemSource};
use pcap_file::CaptureFault;
use send_command::{Tally, send, tell_fault, tell_tally};
use std::alloc::Global;
use std::test::Fail;
use test_lines::expect_lines;
use test_recordings::settings::FILES;
use test_recordings::{capture_of_files, packet_of_files};

/// How a send of these bytes ends, and what it wrote. A read gives 7 bytes at most.
fn sent(
    alloc: Global,
    bytes: &[u8],
    source_fails: &[u32],
    sink_fails: &[u32],
) -> Result<(CaptureEnd<Tally>, MemSink), Fail> {
    let plan = plan_of(alloc, FILES)?;
    let mut input = MemSource::new(alloc, bytes, 7, source_fails)?;
    let mut output = MemSink::new(alloc, 1000, sink_fails)?;
    let end = send(alloc, &plan, &mut input, &mut output);
    Ok((end, output))
}

/// How many of the files' datagrams a capture has, how many of its bytes come, and the call of the input or of the output that fails; after
/// `|` how the send ends, and how many bytes of the packet are written and flushed.
///
/// After the datagrams the capture has two other records. With one datagram the third record begins at byte 112, and has a head of 16 bytes
/// and 10 others. What stands before a fault of the capture is sent. Both SNDUs of two datagrams begin in one packet (RFC 4326 section 7.2).
const CASES: &str = "\
datagrams=1 bytes=138|Done(Tally { offered: 1, not_ip: 1, unrouted: 1, too_long: 0 }), 188 written, 188 flushed|one datagram
datagrams=2 bytes=182|Done(Tally { offered: 2, not_ip: 1, unrouted: 1, too_long: 0 }), 188 written, 188 flushed|two datagrams
datagrams=2 bytes=0|Capture { fault: Empty, place: 0 }, 0 written, 0 flushed|no byte
datagrams=2 bytes=23|Capture { fault: CutHead, place: 0 }, 0 written, 0 flushed|a cut head of the capture
datagrams=2 bytes=39|Capture { fault: CutHead, place: 1 }, 0 written, 0 flushed|a cut head of the first record
datagrams=2 bytes=127|Capture { fault: CutHead, place: 3 }, 188 written, 188 flushed|a cut head of the third record
datagrams=2 bytes=137|Capture { fault: CutRecord, place: 3 }, 188 written, 188 flushed|a cut third record
datagrams=1 bytes=138 input=0|SourceFault, 0 written, 0 flushed|the input fails
datagrams=1 bytes=138 input=9|SourceFault, 0 written, 0 flushed|the input fails
datagrams=1 bytes=138 output=0|SinkFault, 0 written, 0 flushed|the output fails
datagrams=1 bytes=138 output=1|SinkFault, 188 written, 0 flushed|the output fails";

/// How a send ends, and how many bytes of a packet its output has written and flushed.
fn told(
    alloc: Global,
    end: CaptureEnd<Tally>,
    output: &MemSink,
    packet: &[u8],
) -> Result<String, Fail> {
    if !packet.starts_with(output.bytes()) {
        return Err(Fail::new("another packet"));
    }
    let written = output.bytes().len();
    let flushed = output.flushed();
    Ok(format!(in alloc; "{end:?}, {written} written, {flushed} flushed")?)
}

/// How the send of a line ends.
fn end_of(alloc: Global, words: &str) -> Result<String, Fail> {
    let otherwise = [0, 0, u32::MAX, u32::MAX];
    let [datagrams, bytes, input, output] = named(
        words,
        "datagrams bytes input output",
        otherwise,
    )?;
    let packet = packet_of_files(alloc, datagrams as usize)?;
    let capture = capture_of_files(alloc, datagrams as usize)?;
    let bytes = capture.get(..bytes as usize).ok_or("no such front")?;
    let (end, output) = sent(alloc, bytes, &[input], &[output])?;
    told(alloc, end, &output, &packet)
}

#[test]
fn a_capture_is_sent_up_to_a_fault(rt: HostRuntime) -> Result<(), Fail> {
    expect_lines(rt.alloc(), end_of, CASES)
}

/// Reports a tally and two faults, with the least and the largest numbers.
fn report(sink: &mut MemSink) -> Result<(), Failed> {
    let tally = Tally {
        offered: 1,
        not_ip: 0,
        unrouted: 4_294_967_295,
        too_long: 20,
    };
    tell_tally(&tally, sink)?;
    tell_fault(CaptureFault::Empty, 0, sink)?;
    tell_fault(CaptureFault::TooLong, 4_194_305, sink)
}

#[test]
fn lines_are_reported(rt: HostRuntime) -> Result<(), Fail> {
    let mut sink = MemSink::new(rt.alloc(), 1000, &[])?;
    assert_eq!(rt; report(&mut sink), Ok(()));
    let want = "ipencap: offered 1, not IP 0, unrouted 4294967295, too long 20
ipencap: capture 1 at record 0
ipencap: capture 9 at record 4194305
";
    assert_eq!(rt; sink.bytes(), want.as_bytes());
    Ok(())
}
