//! Recordings by hand, read to their end by a bridge: a packet with an SNDU, and a baseband frame of 2,000 bytes with a GSE packet.
use crate::bridge_outlet::{outlet_of, text_of};
use crate::buffers::{empty_slots, zeros};
use crate::counting_outlet::Noted;
use bridge_frame::Bridge;
use gse_reassembly::{FRAG_IDS, PDU_BUFFER_SIZE};
use ipe_io::{Recording, StdSource};
use recording_reader::{FramePieces, PacketPieces, ReadFault, read_to_end};
use std::alloc::Global;
use std::test::Fail;
use test_lines::expect;
use test_recordings::{bytes_of, joined};

/// The SNDU of a frame of 60 bytes on PID 256: pointer 0, then the SNDU and 115 bytes FF.
const PACKET: &str = "47410010 00 80400001 FF*6 020000000001 88B5 00*46 BC0730EC FF*115";

/// The same frame in a GSE packet on ISI 7, and zeros.
const BASEBAND: &str = "500700000200000000BD E03E0001 FF*6 020000000001 88B5 00*46 00*1926";

/// What an outlet was given where a recording was read to its end, and how many bytes are left.
fn text_at_end(alloc: Global, outlet: &Noted, end: Result<u32, ReadFault>) -> Result<String, Fail> {
    let Ok(tail) = end else {
        return Err("not read to its end".into());
    };
    let mut text = text_of(alloc, outlet)?;
    write!(text, " left {tail}")?;
    Ok(text)
}

/// What is delivered of a recording of packets, and how many bytes are left.
fn of_packets(alloc: Global, bytes: &[u8]) -> Result<String, Fail> {
    let mut bridge = Bridge::over(zeros(alloc, 32_771)?, empty_slots(alloc, 0)?, true);
    bridge.select(256);
    let mut pieces = PacketPieces::new(Recording::Plain);
    let mut source = StdSource::new(alloc, bytes)?;
    let mut outlet = outlet_of(9);
    let end = read_to_end(&mut pieces, &mut source, &mut bridge, &mut outlet);
    text_at_end(alloc, &outlet, end)
}

/// What is delivered of a recording of frames, and how many bytes are left.
fn of_frames(alloc: Global, bytes: &[u8]) -> Result<String, Fail> {
    let buffer = zeros(alloc, PDU_BUFFER_SIZE)?;
    let mut bridge = Bridge::over(buffer, empty_slots(alloc, FRAG_IDS)?, false);
    bridge.select(7);
    let mut pieces = FramePieces::over(2000, zeros(alloc, 2000)?);
    let mut source = StdSource::new(alloc, bytes)?;
    let mut outlet = outlet_of(9);
    let end = read_to_end(&mut pieces, &mut source, &mut bridge, &mut outlet);
    text_at_end(alloc, &outlet, end)
}

/// The bytes of a text twice, and a tail.
fn twice(alloc: Global, text: &str, tail: &[u8]) -> Result<Vec<u8>, Fail> {
    let piece = bytes_of(alloc, text)?;
    Ok(joined(alloc, &[&piece, &piece, tail])?)
}

/// A packet, a duplicate of it and a tail; a baseband frame twice, which is no duplicate there.
#[test]
fn recordings_give_their_frames(rt: HostRuntime) -> Result<(), Fail> {
    let alloc = rt.alloc();
    let packets = twice(alloc, PACKET, &[0xEE; 5])?;
    expect("packets", &of_packets(alloc, &packets)?, "1 0 0 left 5")?;
    let frames = twice(alloc, BASEBAND, &[0xEE; 9])?;
    expect("frames", &of_frames(alloc, &frames)?, "2 0 0 left 9")
}
