//! Small recordings of `units::SNDU`, a packet each, and the capture of its datagrams.
use crate::packets::{on_pid, start};
use crate::pieces::{filled, joined};
use crate::units::{CAPTURE, SNDU};
use std::alloc::{AllocError as OutOfMemory, Global};

/// A packet with the whole SNDU.
#[derive(Clone, Copy)]
pub struct SmallPacket {
    pub pid: u16,
    pub counter: u8,
}

/// The packets, and after them so many bytes 47, with which a packet begins.
pub fn small_recording(
    alloc: Global,
    packets: &[SmallPacket],
    tail: usize,
) -> Result<Vec<u8>, OutOfMemory> {
    let mut recording = Vec::new(alloc);
    for packet in packets {
        recording.extend_from_slice(&on_pid(start(packet.counter, 0, &SNDU), packet.pid))?;
    }
    for _ in 0..tail {
        recording.push(0x47)?;
    }
    Ok(recording)
}

/// The capture of so many of its datagrams.
pub fn small_capture(alloc: Global, count: usize) -> Result<Vec<u8>, OutOfMemory> {
    let mut capture = Vec::from_slice(alloc, &CAPTURE[..24])?;
    for _ in 0..count {
        capture.extend_from_slice(&CAPTURE[24..])?;
    }
    Ok(capture)
}

/// A packet of PID 256 and its duplicate, the packet with a wrong sync_byte, and the first 187 bytes of that: 751 bytes.
pub fn mixed_recording(alloc: Global) -> Result<Vec<u8>, OutOfMemory> {
    let packet = start(0, 0, &SNDU);
    let mut unreadable = packet;
    unreadable[0] = 0x46;
    joined(alloc, &[&packet, &packet, &unreadable, &unreadable[..187]])
}

/// A recording of PIDs 256 and 257 with an SNDU each and a duplicate of the first, a packet of PID 600 with this section, one of PID
/// 265, one with a wrong sync_byte, and so many bytes EE.
pub fn recording_of_two(
    alloc: Global,
    section: &[u8],
    tail: usize,
) -> Result<Vec<u8>, OutOfMemory> {
    let first = start(0, 0, &SNDU);
    let second = on_pid(first, 257);
    let table = on_pid(start(0, 0, section), 600);
    let other = on_pid(first, 265);
    let mut unreadable = first;
    unreadable[0] = 0x46;
    let rest = filled(alloc, 0xEE, tail)?;
    joined(
        alloc,
        &[&first, &second, &first, &table, &other, &unreadable, &rest],
    )
}
