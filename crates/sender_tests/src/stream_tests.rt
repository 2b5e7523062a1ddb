//! Small streams, packet by packet and frame by frame by hand.
use crate::words::{datagram_in, named, plan_in};
use ipe_io::MemSink;
use mux_core::{MuxFault, Offered, Sent, stream};
use service_plan::Plan;
use std::alloc::{AllocError as OutOfMemory, Global};
use std::test::Fail;
use test_lines::expect;
use test_recordings::{Datagram, bytes_of, datagram_of, is_piece};

/// Sends two datagrams.
fn send(
    alloc: Global,
    plan: &Plan,
    datagrams: [Datagram; 2],
    sink: &mut MemSink,
) -> Result<Result<Sent, MuxFault>, Fail> {
    let [first, second] = datagrams;
    let mut offered = Offered::new(alloc, plan)?;
    offered.offer(plan, Some(&datagram_of(alloc, &first)?))?;
    offered.offer(plan, Some(&datagram_of(alloc, &second)?))?;
    Ok(stream(alloc, plan, &offered, sink))
}

/// What is sent of two datagrams: a case a line, in columns with `|` between.
///
/// 1. The name of the case.
/// 2. Pieces of settings.
/// 3. The datagrams; after `;` how many bytes the sink takes, where it is not 65,536.
/// 4. What is answered, and how many bytes are written.
/// 5. Some of these bytes with `;` between: their place, the bytes in hexadecimal digits, and perhaps after `,` what they are.
const CASES: &str = "\
a section ends before the last byte of a packet|LECTURE|350>239.1.0.1 100>239.1.0.1|3 packets, 2 datagrams, 564 bytes|\
    0: 47420010 00 3EB16B; 188: 47020011; 375: FF 47420012 00 3EB071
a section begins at the last byte of a packet|LECTURE|349>239.1.0.1 100>239.1.0.1|3 packets, 2 datagrams, 564 bytes|\
    188: 47420011 B6; 375: 3E 47020012 B071; 495: FFFF
the longest section, and one too long|LECTURE|4080>239.1.0.1 4081>239.1.0.1|23 packets, 1 datagrams, 4324 bytes|\
    0: 47420010 00 3EBFFD; 4136: 47020016; 4189: FFFF
a frame of two datagrams, with all columns of its RS data table|FRAMES|100>239.1.0.1 100>239.1.0.1|97 packets, 2 datagrams, 18236 bytes|\
    0: 47420010 00 3EB071 0100C10000 00000000 45, delta_t 0, address 0;\
    121: 3EB071 0100C10000 00080064 45, table_boundary, address 100;\
    188: 47420011 31, the first column begins after 232 bytes;\
    242: 78B10D BE FFFF 003F 00000000, 190 padding columns, column 0 of 63, address 0
frames on two PIDs: their numbers go on|CYCLE INT FRAMES MOVED|100>239.1.0.1 100>239.1.0.1|197 packets, 2 datagrams, 37036 bytes|\
    0: 47425810 00 4C;\
    188: 47420010 00 3EB071 0100C10000 00080000 45, delta_t 0, table_boundary, address 0;\
    18800: 47425811 00 4C;\
    18988: 4742BC10 00 3EB071 0100C10000 00180000 45, delta_t 1, table_boundary, address 0
two services in rotation after the INT|STAMPED INT LECTURE FILES|350>239.1.0.1 500>239.2.0.1|6 packets, 2 datagrams, 1176 bytes|\
    0: 0000000000000000 47425810 00 4CF03B; 202: 0064 47420010 00 3E; 398: 00C8 47420110 00 01FE0800; 409: 01005E020001 45;\
    594: 012C 47020011; 790: 0190 47020111; 986: 01F4 47020112
the INT in a second cycle|CYCLE INT FILES|20000>239.2.0.1 20>239.1.0.1|111 packets, 1 datagrams, 20868 bytes|\
    0: 47425810 00 4C; 188: 47420110 00; 18800: 47425811 00 4C; 18988: 47020113
nothing that a service takes|STAMPED INT LECTURE FILES|20>10.0.0.1 4081>239.1.0.1|0 packets, 0 datagrams, 0 bytes|
two of the longest SNDUs: the second begins after the last 20 bytes of the first|CYCLE INT FILES|\
    32757>239.2.0.1 32757>239.2.0.1; room=131072|361 packets, 2 datagrams, 67868 bytes|\
    33840: 47420112 14; 33865: 7FFF 0800 01005E; 33872: 020001 4500 7FF5; 67680: 47020114; 67724: FFFF
a sink that is full|LECTURE|350>239.1.0.1 100>239.1.0.1; room=200|Sink, 200 bytes|0: 47420010 00 3EB16B; 188: 47020011
three frames of one ISI, and one of another after the first|BASEBAND|800>239.1.0.1 100>239.2.0.1|4 packets, 2 datagrams, 1200 bytes|\
    0: 5007 0000 0910 00 0000; 10: 8120 00 0328 0800 01005E010001 45; 300: 5009 0000 0370 00 0000; 310: C06C 0800 01005E020001 45;\
    600: 5007 0000 0910 00 0000; 610: 3120 00; 900: 5007 0000 0798 00 0000; 910: 70F1 00
baseband frames, and a sink that is full|BASEBAND|800>239.1.0.1 100>239.2.0.1; room=310|Sink, 310 bytes|\
    0: 5007 0000 0910 00 0000; 300: 5009 0000 0370 00 0000";

/// The datagrams of words, and how many bytes the sink takes.
fn given_of(words: &str) -> Result<([Datagram; 2], u32), Fail> {
    let (datagrams, numbers) = words.split_once(';').unwrap_or((words, ""));
    let [room] = named(numbers, "room", [65_536])?;
    let (first, second) = datagrams.split_once(' ').ok_or("no second datagram")?;
    Ok(([datagram_in(first)?, datagram_in(second)?], room))
}

/// What is answered, and how many bytes are written.
fn told(alloc: Global, sent: Result<Sent, MuxFault>, bytes: usize) -> Result<String, OutOfMemory> {
    match sent {
        Ok(Sent { packets, datagrams }) => {
            format!(in alloc; "{packets} packets, {datagrams} datagrams, {bytes} bytes")
        }
        Err(fault) => format!(in alloc; "{fault:?}, {bytes} bytes"),
    }
}

/// Fails where a piece is not at its place of the bytes.
fn expect_piece(alloc: Global, bytes: &[u8], piece: &str) -> Result<(), Fail> {
    let (place, rest) = piece.split_once(':').ok_or("no place")?;
    let (digits, _) = rest.split_once(',').unwrap_or((rest, ""));
    let there = is_piece(
        bytes,
        place.trim().parse::<usize>()?,
        &bytes_of(alloc, digits)?,
    );
    if there {
        Ok(())
    } else {
        Err(Fail::new(format_args!("not there: {piece}")))
    }
}

/// Fails where one of the pieces is not at its place.
fn expect_pieces(alloc: Global, bytes: &[u8], pieces: &str) -> Result<(), Fail> {
    if !pieces.is_empty() {
        for piece in pieces.split(';') {
            expect_piece(alloc, bytes, piece)?;
        }
    }
    Ok(())
}

/// Sends two datagrams, and compares what is answered and written with the last two columns.
fn expect_sent(
    alloc: Global,
    plan: &Plan,
    datagrams: [Datagram; 2],
    sink: &mut MemSink,
    columns: &str,
) -> Result<(), Fail> {
    let (due, pieces) = columns.split_once('|').ok_or("no pieces")?;
    let sent = send(alloc, plan, datagrams, sink)?;
    expect(columns, &told(alloc, sent, sink.bytes().len())?, due)?;
    expect_pieces(alloc, sink.bytes(), pieces)
}

/// Opens the plan and the sink of a case for it.
fn send_given(alloc: Global, settings: &str, given: &str, columns: &str) -> Result<(), Fail> {
    let (datagrams, room) = given_of(given)?;
    let plan = plan_in(alloc, settings)?;
    let mut sink = MemSink::new(alloc, room as usize, &[])?;
    expect_sent(alloc, &plan, datagrams, &mut sink, columns)
}

/// Sends the datagrams of a line.
fn send_line(alloc: Global, line: &str) -> Result<(), Fail> {
    let (_, columns) = line.split_once('|').ok_or("no settings")?;
    let (settings, columns) = columns.split_once('|').ok_or("no datagrams")?;
    let (given, columns) = columns.split_once('|').ok_or("nothing due")?;
    send_given(alloc, settings, given, columns)
}

#[test]
fn streams_are_these_packets(rt: HostRuntime) -> Result<(), Fail> {
    for line in CASES.lines() {
        send_line(rt.alloc(), line)?;
    }
    Ok(())
}
