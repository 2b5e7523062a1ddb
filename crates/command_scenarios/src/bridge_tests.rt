//! Streams of Ethernet frames byte for byte, there and back, up to a fault, and what else a recording has: by hand from RFC 4326 sections 4
//! and 5 (SNDUs and their extension headers), ISO/IEC 13818-1 clause 2.4 and TS 102 606-1 clause 4.2 (GSE packets). An independent program
//! gave each CRC-32 and CRC-8. Where no other columns are named, they are those of `runs`.
use crate::outcomes::{Outcome, done};
use crate::runs::{all_end, columns_end, ends, leaving, three};
use crate::words::{bytes_in, harmed};
use std::alloc::Global;
use std::test::Fail;
use test_recordings::{bytes_of, filled, put_record};

/// A packet has room for 183 bytes of SNDUs where one begins in it. The SNDU of a frame of 60 bytes has 68: of a third one 47 bytes have room.
const THERE_AND_BACK: &str =
    "a packet|bridge,ule:256|ETHERNET RECORD|47410010 00 80400001 FRAME BC0730EC FILL|offered 1, too short 0, too long 0
two SNDUs in a packet|bridge,ule:256|ETHERNET RECORD RECORD|47410010 00 80400001 FRAME BC0730EC 80400001 FRAME BC0730EC FILL|offered 2, too short 0, too long 0
an SNDU in two packets|bridge,ule:256|ETHERNET RECORD RECORD RECORD|47410010 00 80400001 FRAME BC0730EC 80400001 FRAME BC0730EC 80400001 FF*6 020000000001 88B5 00*29 FILL 47010011 00*17 BC0730EC FILL|offered 3, too short 0, too long 0
a frame with a datagram|bridge,ule:256|ETHERNET IP_RECORD|47410010 00 80260001 IP_FRAME 13DBA5AF FILL|offered 1, too short 0, too long 0
the first PID|bridge,ule:0|ETHERNET RECORD|47400010 00 80400001 FRAME BC0730EC FILL|offered 1, too short 0, too long 0
the last PID|bridge,ule:8190|ETHERNET RECORD|475FFE10 00 80400001 FRAME BC0730EC FILL|offered 1, too short 0, too long 0
a PID with a zero before it|bridge,ule:0256|ETHERNET RECORD|47410010 00 80400001 FRAME BC0730EC FILL|offered 1, too short 0, too long 0
no frame in a packet|bridge,ule:256|ETHERNET||offered 0, too short 0, too long 0
a baseband frame|bridge,gse:7|ETHERNET RECORD|500700000200000000BD E03E0001 FRAME ZEROS|offered 1, too short 0, too long 0
two GSE packets in a baseband frame|bridge,gse:7|ETHERNET RECORD RECORD|500700000400000000A3 E03E0001 FRAME E03E0001 FRAME ZEROS|offered 2, too short 0, too long 0
the last ISI|bridge,gse:255|ETHERNET RECORD|50FF000002000000003E E03E0001 FRAME ZEROS|offered 1, too short 0, too long 0
an ISI with zeros before it|bridge,gse:007|ETHERNET RECORD|500700000200000000BD E03E0001 FRAME ZEROS|offered 1, too short 0, too long 0
no frame in a baseband frame|bridge,gse:7|ETHERNET||offered 0, too short 0, too long 0";

/// Empty is 1, a link type that is not taken 4, a cut head 5, a cut record 6. The place is 0 for the capture's head.
const FAULTY: &str = "no byte|bridge,ule:256|||capture 1 at record 0
a cut head|bridge,gse:7|D4C3B2A1 02000400||capture 5 at record 0
link type 101|bridge,ule:256|RAW RECORD||capture 4 at record 0
link type 101 and baseband frames|bridge,gse:7|RAW RECORD||capture 4 at record 0
a cut head of the third record|bridge,ule:256|ETHERNET RECORD RECORD 00*15|47410010 00 80400001 FRAME BC0730EC 80400001 FRAME BC0730EC FILL|capture 5 at record 3
a cut third record|bridge,ule:256|ETHERNET RECORD RECORD 00*8 3C000000*2 FF*59|47410010 00 80400001 FRAME BC0730EC 80400001 FRAME BC0730EC FILL|capture 6 at record 3
a cut third record and baseband frames|bridge,gse:7|ETHERNET RECORD RECORD 00*8 3C000000*2 FF*59|500700000400000000A3 E03E0001 FRAME E03E0001 FRAME ZEROS|capture 6 at record 3
a third record of 262,145 bytes|bridge,gse:7|ETHERNET RECORD RECORD 00*8 01000400*2|500700000400000000A3 E03E0001 FRAME E03E0001 FRAME ZEROS|capture 7 at record 3
records without bytes, and then a cut one|bridge,ule:256|ETHERNET 00*32 RECORD 00|47410010 00 80400001 FRAME BC0730EC FILL|capture 5 at record 4";

/// What it is; packets; what `unbridge ule:256` has of them, and what `ule 256` has.
const PACKETS: &str = "no packet||ETHERNET|RAW
a frame|47410010 00 80400001 FRAME BC0730EC FILL|ETHERNET RECORD|RAW
a datagram|47410010 00 80180800 DATAGRAM 64AEE84A FILL|ETHERNET|RAW ROUTED
a datagram and a frame in a packet|47410010 00 80180800 DATAGRAM 64AEE84A 80400001 FRAME BC0730EC FILL|ETHERNET RECORD|RAW ROUTED
a frame, a datagram and a frame|47410010 00 80400001 FRAME BC0730EC FILL 47410011 00 80180800 DATAGRAM 64AEE84A FILL 47410012 00 80400001 FRAME BC0730EC FILL|ETHERNET RECORD RECORD|RAW ROUTED
a frame with a datagram in it|47410010 00 80260001 IP_FRAME 13DBA5AF FILL|ETHERNET IP_RECORD|RAW
a packet and its duplicate|47410010 00 80400001 FRAME BC0730EC FILL 47410010 00 80400001 FRAME BC0730EC FILL|ETHERNET RECORD|RAW
another PID|47410110 00 80400001 FRAME BC0730EC FILL 47410010 00 80260001 IP_FRAME 13DBA5AF FILL|ETHERNET IP_RECORD|RAW
an NPA address|47410010 00 00460001 0200000000AA FRAME 23319065 FILL|ETHERNET RECORD|RAW
two optional headers|47410010 00 80460100 0201 0707 0001 FRAME 32C45505 FILL|ETHERNET RECORD|RAW
an optional header of 10 bytes|47410010 00 804A0500 07*8 0001 FRAME 0F1239E0 FILL|ETHERNET RECORD|RAW
an unknown mandatory header|47410010 00 80400003 FRAME 74833B79 FILL|ETHERNET|RAW
IPv4 where Type 1 is expected|47410010 00 801A0100 0800 DATAGRAM 25BB82DD FILL|ETHERNET|RAW ROUTED";

/// What `unbridge gse:7` has of baseband frames.
const BASEBAND: &str = "no baseband frame|unbridge,gse:7||ETHERNET|
a datagram and a frame|unbridge,gse:7|5007000002C000000021 E0160800 DATAGRAM E03E0001 FRAME ZEROS|ETHERNET RECORD|
another ISI|unbridge,gse:7|500800000200000000C6 E03E0001 FRAME ZEROS|ETHERNET|
a label of 6 bytes, and one that re-uses it|unbridge,gse:7|50070000043000000084 C0440001 0200000000AA FRAME F03E0001 FRAME ZEROS|ETHERNET RECORD RECORD|
a label of 3 bytes|unbridge,gse:7|50070000021800000044 D0410001 AABBCC FRAME ZEROS|ETHERNET RECORD|
an optional header|unbridge,gse:7|50070000022000000034 E0420201 07070001 FRAME ZEROS|ETHERNET RECORD|
an unknown mandatory header|unbridge,gse:7|500700000200000000BD E03E0003 FRAME ZEROS|ETHERNET|
IPv4 where Type 1 is expected|unbridge,gse:7|5007000000D000000036 E0180100 0800 DATAGRAM ZEROS|ETHERNET|
13 bytes|unbridge,gse:7|50070000008800000008 E00F0001 FF*6 020000000001 88 ZEROS|ETHERNET|
three fragments|unbridge,gse:7|500700000098000000A6 A0110A003E0001 FF*6 020000000001 ZEROS 5007000000A0000000D6 30120A 88B5 00*15 ZEROS 50070000013000000095 70240A 00*31 E8CBF31A ZEROS|ETHERNET RECORD|
the first and the last of them|unbridge,gse:7|500700000098000000A6 A0110A003E0001 FF*6 020000000001 ZEROS 50070000013000000095 70240A 00*31 E8CBF31A ZEROS|ETHERNET|";

/// Frames of all sizes. What it is; the carrier; the bytes of the frames that are captured; the line; the bytes of a packet or baseband frame,
/// and what happens to them, in the harms of `test_recordings`; the bytes of the frames that arrive.
///
/// A frame has a header of 14 bytes (IEEE Std 802.3 clause 3.1.1). Beside it Length counts 4 bytes of the CRC-32, and 6 of an address that this
/// SNDU does not have, and is 32,767 at most (RFC 4326 section 4.2); Total Length counts 2 bytes of Protocol Type, and 6 of a label, and is 65,535.
const LENGTHS: &str =
    "the limits in SNDUs|ule:256|13 14 32757 32758 65527 65528|offered 2, too short 1, too long 3|188|14 32757
the limits in PDUs|gse:7|13 14 32757 32758 65527 65528|offered 4, too short 1, too long 1|2000|14 32757 32758 65527
each of three kinds in SNDUs|ule:256|13 60 32758|offered 1, too short 1, too long 1|188|60
no byte at all|gse:7|0|offered 0, too short 1, too long 0|2000|";

/// The SNDU of the second frame begins in packet 0 and ends in packet 27, where that of the third one begins. Its PDU begins in baseband
/// frame 0, fills number 1 and ends in number 2, where the third one stands. Nothing numbers baseband frames, so none is a duplicate: a PDU
/// begins anew.
const LOSSES: &str =
    "all packets|ule:256|60 5000 61|offered 3, too short 0, too long 0|188|60 5000 61
a packet in the middle is lost|ule:256|60 5000 61|offered 3, too short 0, too long 0|188 5|60 61
the first packet is lost|ule:256|60 5000 61|offered 3, too short 0, too long 0|188 0|61
each packet three times|ule:256|60 5000 61|offered 3, too short 0, too long 0|188 0-27*3|60 5000 61
all baseband frames|gse:7|60 5000 61|offered 3, too short 0, too long 0|2000|60 5000 61
the baseband frame in the middle is lost|gse:7|60 5000 61|offered 3, too short 0, too long 0|2000 1|60 61
the first baseband frame is lost|gse:7|60 5000 61|offered 3, too short 0, too long 0|2000 0|61
the first baseband frame twice|gse:7|60 5000 61|offered 3, too short 0, too long 0|2000 0*2|60 60 5000 61";

/// The stream of a line gives its capture.
fn comes_back(alloc: Global, text: &str) -> Result<(), Fail> {
    let (case, call, columns) = three(text)?;
    let (capture, stream, _) = three(columns)?;
    let back = format!(in alloc; "un{call}")?;
    columns_end(alloc, case, &back, (stream, capture, ""))
}

#[test]
fn frames_go_there_and_back_byte_for_byte(rt: HostRuntime) -> Result<(), Fail> {
    for text in THERE_AND_BACK.lines() {
        comes_back(rt.alloc(), text)?;
    }
    all_end(rt.alloc(), THERE_AND_BACK)
}

/// Frames before a fault are sent, and it is reported.
#[test]
fn frames_before_a_fault_are_sent(rt: HostRuntime) -> Result<(), Fail> {
    all_end(rt.alloc(), FAULTY)
}

/// What packets give is what they must give.
fn packets_give(alloc: Global, text: &str) -> Result<(), Fail> {
    let (case, packets, rest) = three(text)?;
    let (frames, datagrams) = rest.split_once('|').ok_or("no datagrams")?;
    columns_end(alloc, case, "unbridge,ule:256", (packets, frames, ""))?;
    columns_end(alloc, case, "ule,256", (packets, datagrams, ""))
}

/// No SNDU gives both a frame and a datagram.
#[test]
fn sndus_give_their_frames_and_their_datagrams(rt: HostRuntime) -> Result<(), Fail> {
    for text in PACKETS.lines() {
        packets_give(rt.alloc(), text)?;
    }
    Ok(())
}

#[test]
fn pdus_give_their_frames(rt: HostRuntime) -> Result<(), Fail> {
    all_end(rt.alloc(), BASEBAND)
}

/// A frame of so many bytes to all stations; one of fewer than 14 is none.
fn frame_of(alloc: Global, size: usize) -> Result<Vec<u8>, Fail> {
    let mut frame = bytes_of(alloc, "FF*6 020000000001 88B5")?;
    frame.extend_from_slice(&filled(alloc, 0x5A, size)?)?;
    frame.truncate(size);
    Ok(frame)
}

/// The capture of frames of these sizes, 65,535 bytes at most.
fn capture_of(alloc: Global, sizes: &str) -> Result<Vec<u8>, Fail> {
    let mut capture = bytes_in(alloc, "ETHERNET")?;
    for size in sizes.split_whitespace() {
        put_record(&mut capture, &frame_of(alloc, size.parse()?)?)?;
    }
    Ok(capture)
}

/// What is left of the stream of a run that has reported this line, and written no file.
fn left_of(alloc: Global, done: &Outcome, line: &str, harms: &str) -> Result<Vec<u8>, Fail> {
    if done.line.as_str() != line || done.files != 0 {
        return Err("bridged in another way".into());
    }
    harmed(alloc, &done.output, harms)
}

/// The recording of frames by the sizes, the line and the harms of a line.
fn recorded(alloc: Global, carrier: &str, columns: &str) -> Result<Vec<u8>, Fail> {
    let (sizes, line, harms) = three(columns)?;
    let capture = capture_of(alloc, sizes)?;
    let done = done(alloc, &["bridge", carrier], "-", &capture)?;
    left_of(alloc, &done, line, harms)
}

/// The frames arrive that must arrive.
fn arrives(alloc: Global, text: &str) -> Result<(), Fail> {
    let (columns, arrived) = text.rsplit_once('|').ok_or("no frames")?;
    let (case, carrier, columns) = three(columns)?;
    let input = recorded(alloc, carrier, columns)?;
    let capture = capture_of(alloc, arrived)?;
    let call = format!(in alloc; "unbridge,{carrier};room=300000")?;
    ends(alloc, case, &leaving(&call, &input, &capture, ""))
}

#[test]
fn frames_that_have_room_go_through(rt: HostRuntime) -> Result<(), Fail> {
    for text in LENGTHS.lines() {
        arrives(rt.alloc(), text)?;
    }
    Ok(())
}

#[test]
fn frames_whose_pieces_arrive_go_through(rt: HostRuntime) -> Result<(), Fail> {
    for text in LOSSES.lines() {
        arrives(rt.alloc(), text)?;
    }
    Ok(())
}
