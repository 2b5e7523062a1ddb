//! Frames and bursts of 256 rows, by hand from EN 301 192 clause 9.
ghost use Rattle.std.specs.Prelude.{◌<◌, ◌≤◌, ◌^◌, length, IfOk};
ghost use Rattle.fec_units.specs.Ends.{AreFrameEnds};
ghost use Rattle.fec_sent_law.specs.Frames.{AreSendable};

use crate::lines::{bytes_at, expect_bytes, put_hex};
use crate::sendable::{HOST, UNICAST, list_of};
use burst_packets::{FramePackets, Shape};
use fec_units::{BurstBuffer, FrameUnits, burst_ends, unit_ends};
use ip_datagram::DatagramList;
use std::alloc::Global;
use std::fmt::Write;
use std::test::Fail;
use test_lines::{expect, expect_lines, numbers_of};

/// How many frames there are, and where each of their units ends.
fn ends_of(alloc: Global, units: &FrameUnits) -> Result<String, Fail> {
    Ok(format!(in alloc; "{}: {:?}", units.frames, units.ends.as_slice())?)
}

/// What the packets of frames with 256 rows carry, without pointers: the bytes of the units, and then those that fill the last packet.
fn payloads_of(
    alloc: Global,
    list: &DatagramList,
    units: &FrameUnits,
    columns: u8,
    first: u32,
) -> Result<Vec<u8>, Fail>
    requires columns { (1 ≤ columns) × (columns ≤ 64) }
    requires sendable { AreSendable list.now }
    requires few { length list.now < 2 ^ 32 }
    requires ends { AreFrameEnds 256 columns list.now units.now.ends.items }
{
    let shape = Shape {
        rows: 256,
        columns,
        unicast: UNICAST,
    };
    let ends = units.ends.as_slice();
    let mut packets = FramePackets::new(alloc, shape, list, ends, first, 300, 0)?;
    let mut bytes = Vec::new(alloc);
    while packets.has_next() {
        let mut packet = [0; 188];
        packets.next(&mut packet);
        let starts = packet[1] & 0x40 != 0;
        bytes.extend_from_slice(&packet[if starts { 5 } else { 4 }..])?;
    }
    Ok(bytes)
}

/// The bytes of the units of frames with 256 rows. Fails where the units end elsewhere than `ends`, or differ from the table.
fn units_of(
    alloc: Global,
    list: &DatagramList,
    columns: u8,
    first: u32,
    ends: &str,
    table: &str,
) -> Result<Vec<u8>, Fail>
    requires columns { (1 ≤ columns) × (columns ≤ 64) }
    requires sendable { AreSendable list.now }
    requires few { length list.now < 2 ^ 32 }
{
    let units = unit_ends(alloc, list, 256, columns)?;
    let bytes = payloads_of(alloc, list, &units, columns, first)?;
    expect("the ends", &ends_of(alloc, &units)?, ends)?;
    expect_bytes(alloc, &bytes, &units.ends, table)?;
    Ok(bytes)
}

/// A unit and a byte of it, the bytes there, and what they are. The parity is an independent program's.
const SMALL: &str = "0 0|3E B0 21|section_length 33
0 3|03 02 C1 00 00|MAC_address_6 and 5 of 01:00:5E:01:02:03
0 8|00 58 00 00|delta_t 5, table_boundary, address 0
0 12|45 00 00 14|the datagram
1 0|78 B1 0D BE FF FF 00 00|section_length 269, 190 padding columns, column 0 of 0
1 8|00 5C 00 00|delta_t 5, both boundaries, address 0
1 12|E9 00 00 1E 00 00 00 00 60 97 00 00 0F 00 00 8F 16 8F 03 8C|the parity of the 20 rows of the datagram";

/// A datagram of 20 bytes in a frame of its own, of which one column of RS data is sent.
#[test]
fn a_small_datagram_is_a_frame_of_two_sections(rt: HostRuntime) -> Result<(), Fail> {
    let alloc = rt.alloc();
    let list = list_of(alloc, 1, 20, [239, 1, 2, 3])?;
    // 12 bytes before the datagram and the CRC_32; 12 before the column of 256 bytes and the CRC_32
    let bytes = units_of(alloc, &list, 1, 5, "1: [36, 308]", SMALL)?;
    // rows of zeros have parity of zeros
    assert!(rt; bytes.get(68..304) == Some(&[0; 236][..]));
    Ok(())
}

/// The same of 12 datagrams of 4,080 bytes. 191 columns of 256 bytes have room for 11 of them: the twelfth is in the next frame, whose
/// number is 0 after 4095.
const TWO_FRAMES: &str = "10 0|3E BF FD 09 00 C1 00 00|the last datagram_section of the first frame
10 8|FF F8 9F 60 45|delta_t 4095, table_boundary, address 40,800
12 0|78 B1 0D 0F FF FF 01 01|column 1 of 0 to 1; 176 columns have data, so 15 are padding
12 8|FF FC 01 00|both boundaries, address 256
13 0|3E BF FD 09 00 C1 00 00|the datagram_section of the second frame
13 8|00 08 00 00 45|delta_t 0, table_boundary, address 0";

/// Frames, and where their units end: 11 datagrams and two columns, and one datagram and two columns.
const TWO_ENDS: &str =
    "2: [4096, 8192, 12288, 16384, 20480, 24576, 28672, 32768, 36864, 40960, 45056, 45328, 45600, 49696, 49968, 50240]";

#[test]
fn a_datagram_without_room_begins_the_next_frame(rt: HostRuntime) -> Result<(), Fail> {
    let alloc = rt.alloc();
    let list = list_of(alloc, 12, 4080, HOST)?;
    units_of(alloc, &list, 2, 4095, TWO_ENDS, TWO_FRAMES)?;
    Ok(())
}

/// No datagram has no frame.
#[test]
fn no_datagram_has_no_unit(rt: HostRuntime) -> Result<(), Fail> {
    let alloc = rt.alloc();
    let units = unit_ends(alloc, &DatagramList::new(alloc), 1024, 64)?;
    expect("the ends", &ends_of(alloc, &units)?, "0: []")
}

/// Appends where a unit of a burst ends, and its real_time_parameters.
fn put_time(
    text: &mut String,
    buffer: &BurstBuffer,
    number: usize,
    end: usize,
) -> Result<(), Fail> {
    let Some(time) = bytes_at(buffer.bytes(), buffer.ends(), number, 8, 4) else {
        return Err(Fail::new("no real_time_parameters"));
    };
    let separator = if number == 0 { "" } else { "; " };
    write!(text, "{separator}{end}: ")?;
    put_hex(text, time)?;
    Ok(())
}

/// The same of each unit of a burst.
fn times_of(alloc: Global, buffer: &BurstBuffer) -> Result<String, Fail> {
    let mut text = String::new(alloc);
    for (number, end) in buffer.ends().iter().enumerate() {
        put_time(&mut text, buffer, number, *end)?;
    }
    Ok(text)
}

/// The units of the burst of all datagrams of a list, in frames of 256 rows of whose RS data one column is sent: where each ends, and its
/// real_time_parameters.
fn burst_of(alloc: Global, list: &DatagramList) -> Result<String, Fail>
    requires sendable { AreSendable list.now }
    requires few { length list.now < 2 ^ 32 }
{
    let ends = burst_ends(alloc, list, 256, 1, 1000)?;
    let [end] = *ends.as_slice() else {
        return Err(Fail::new("not one burst"));
    };
    let mut buffer = BurstBuffer::new(alloc, 256, 1)?;
    buffer.make(list, 0, end as usize, UNICAST, &[300, 299, 298]);
    times_of(alloc, &buffer)
}

/// Number and bytes of the datagrams of a burst; after `|` where each of its sections ends, and its real_time_parameters. delta_t is 300 in
/// packet 0, 299 in packet 1 and 298 in packet 2: 12C, 12B and 12A; 8 is table_boundary, C both boundaries; after it stands the address.
///
/// A section begins in the packet in which the one before ends, if that has room for pointer_field and one byte more. A first packet has 183
/// bytes, one in which no section begins has 184.
const BURSTS: &str = "2 100|116: 12 C0 00 00; 232: 12 C8 00 64; 504: 12 BC 00 00
1 166|182: 12 C8 00 00; 454: 12 CC 00 00
1 167|183: 12 C8 00 00; 455: 12 BC 00 00
1 349|365: 12 C8 00 00; 637: 12 BC 00 00
1 350|366: 12 C8 00 00; 638: 12 AC 00 00
1 351|367: 12 C8 00 00; 639: 12 AC 00 00
1 352|368: 12 C8 00 00; 640: 12 AC 00 00";

/// A list of so many datagrams of so many bytes.
fn list_in(alloc: Global, words: &str) -> Result<DatagramList, Fail>
    ensures sendable { IfOk result (λ list. AreSendable list) }
    ensures few { IfOk result (λ list. length list < 2 ^ 32) }
{
    let [count, size] = numbers_of::<2>(words)?;
    list_of(alloc, u8::try_from(count)?, u16::try_from(size)?, HOST)
}

/// The units of the burst of a line.
fn burst_in(alloc: Global, words: &str) -> Result<String, Fail> {
    burst_of(alloc, &list_in(alloc, words)?)
}

#[test]
fn sections_have_the_time_of_their_packet(rt: HostRuntime) -> Result<(), Fail> {
    expect_lines(rt.alloc(), burst_in, BURSTS)
}

/// Slots of a window, and after `|` where the bursts of five datagrams of 100 bytes end. A window of three slots has room for two datagrams
/// and not for three: these take four packets.
const WINDOWS: &str = "1|[1, 2, 3, 4, 5]
3|[2, 4, 5]
4|[3, 5]
100|[5]";

/// Where the bursts of the datagrams end.
fn ends_in(alloc: Global, slots: &str) -> Result<String, Fail> {
    let slots = slots.parse::<u32>()?;
    let list = list_of(alloc, 5, 100, HOST)?;
    let ends = burst_ends(alloc, &list, 256, 1, slots)?;
    Ok(format!(in alloc; "{:?}", ends.as_slice())?)
}

#[test]
fn a_burst_takes_what_its_window_has_room_for(rt: HostRuntime) -> Result<(), Fail> {
    expect_lines(rt.alloc(), ends_in, WINDOWS)
}
