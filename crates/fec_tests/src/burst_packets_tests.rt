//! Bursts of one datagram each, by hand from EN 301 192 clause 9 and ISO/IEC 13818-1 clause 2.4.4.
use crate::lines::expect_bytes;
use crate::sendable::{HOST, UNICAST, list_of};
use burst_packets::{BurstPackets, Shape, Timing};
use fec_units::burst_ends;
use ipe_io::Recording;
use std::alloc::Global;
use std::fmt::Write;
use std::test::Fail;
use test_lines::expect;

/// 10,000 packets in a second and a cycle of two: a packet is a tenth of a millisecond.
const TIMING: Timing = Timing {
    recording: Recording::Stamped,
    packet_rate: 10_000,
    cycle: 20_000,
    start: 100,
    length: 10,
    slots_before: 40_000,
    goes_on: false,
};

/// Frames of 256 rows, of whose RS data one column is sent.
const SHAPE: Shape = Shape {
    rows: 256,
    columns: 1,
    unicast: UNICAST,
};

/// Puts the packets of the next window after the others, and where each ends.
fn put_burst(
    bytes: &mut Vec<u8>,
    ends: &mut Vec<usize>,
    bursts: &mut BurstPackets<'_>,
) -> Result<(), Fail> {
    if bursts.in_burst() {
        return Err(Fail::new("a burst is under way"));
    }
    bursts.open();
    while bursts.in_burst() {
        let mut packet = [0; 188];
        bursts.next(&mut packet);
        bytes.extend_from_slice(&packet)?;
        ends.push(bytes.len())?;
    }
    Ok(())
}

/// Puts the packets of four windows, and before each how many packets there are and whether there are more to come.
fn put_four(
    bytes: &mut Vec<u8>,
    ends: &mut Vec<usize>,
    bursts: &mut BurstPackets<'_>,
    text: &mut String,
) -> Result<(), Fail> {
    for _ in 0..4 {
        write!(text, "; {} {}", ends.len(), bursts.has_next())?;
        put_burst(bytes, ends, bursts)?;
    }
    Ok(())
}

/// Puts the packets of the windows one after another, for two datagrams of 1,000 bytes, and where each packet ends.
///
/// Answers where the bursts end in the list of datagrams, and what is said before each window.
fn put_windows(alloc: Global, bytes: &mut Vec<u8>, ends: &mut Vec<usize>) -> Result<String, Fail> {
    let list = list_of(alloc, 2, 1000, HOST)?;
    let datagrams = burst_ends(alloc, &list, SHAPE.rows, SHAPE.columns, TIMING.length)?;
    let mut text = format!(in alloc; "{:?}", datagrams.as_slice())?;
    let mut bursts = BurstPackets::new(alloc, SHAPE, TIMING, &list, &datagrams, 300, 14)?;
    put_four(bytes, ends, &mut bursts, &mut text)?;
    Ok(text)
}

/// A packet and a byte of it, the bytes there, and what they are. A datagram of 1,000 bytes and a column are sections of 1,016 and 272 bytes:
/// eight packets, so that a window of ten slots has one burst. They begin in packets 0 and 5, which are 20,000 and 19,995 packets before the
/// next window; the last burst announces none.
const PACKETS: &str =
    "0 0|47 41 2C 1E 00 3E|PID 300 with payload_unit_start_indicator, counter 14, pointer_field 0, table_id
0 13|0C 88 00 00|delta_t 200, table_boundary, address 0, after 8 bytes of the section
5 0|47 41 2C 13 61|counter 3; 183 + 4 * 184 bytes are out, so that 97 are left
5 110|0C 7C 00 00|delta_t 199, both boundaries
8 0|47 41 2C 16 00 3E|the second burst: counter 6
8 13|00 08 00 00|delta_t 0, table_boundary
13 110|00 0C 00 00|delta_t 0, both boundaries";

#[test]
fn bursts_announce_the_next_window(rt: HostRuntime) -> Result<(), Fail> {
    let alloc = rt.alloc();
    let mut bytes = Vec::new(alloc);
    let mut ends = Vec::new(alloc);
    let windows = put_windows(alloc, &mut bytes, &mut ends)?;
    let due = "[1, 2]; 0 true; 8 true; 16 false; 16 false";
    expect("the windows", &windows, due)?;
    expect_bytes(alloc, &bytes, &ends, PACKETS)
}
