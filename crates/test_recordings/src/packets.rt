//! What a packet carries -> its 188 bytes (ISO/IEC 13818-1 clause 2.4.3).
use std::alloc::AllocError as OutOfMemory;

/// The packet of PID 256 in which a unit starts: after the pointer field come these bytes, as many as have room, and bytes FF.
pub fn start(counter: u8, pointer: u8, bytes: &[u8]) -> [u8; 188] {
    put_after(&[0x47, 0x41, 0, 0x10 + counter % 16, pointer], bytes)
}

/// The packet of PID 256 without a start: these bytes, as many as have room, and bytes FF.
pub fn go_on(counter: u8, bytes: &[u8]) -> [u8; 188] {
    put_after(&[0x47, 0x01, 0, 0x10 + counter % 16], bytes)
}

/// The packet on another PID.
pub fn on_pid(packet: [u8; 188], pid: u16) -> [u8; 188] {
    let mut moved = packet;
    let [high, low] = pid.to_be_bytes();
    moved[1] = packet[1] / 32 * 32 + high % 32;
    moved[2] = low;
    moved
}

/// These bytes of a packet after its head, as many as have room, and bytes FF.
fn put_after(head: &[u8], bytes: &[u8]) -> [u8; 188] {
    let mut packet = [0xFF; 188];
    for place in 0..188usize {
        if place < head.len() {
            packet[place] = head[place];
        } else if place - head.len() < bytes.len() {
            packet[place] = bytes[place - head.len()];
        }
    }
    packet
}

/// The counter of the packet after these, of which the first has 0.
fn next_counter(packets: &[u8]) -> u8 {
    (packets.len() / 188 % 16) as u8
}

/// Appends the packets of a unit on a PID, with this pointer field in the first.
pub fn put_unit(
    packets: &mut Vec<u8>,
    pid: u16,
    pointer: u8,
    unit: &[u8],
) -> Result<(), OutOfMemory> {
    let first = start(next_counter(packets), pointer, unit);
    packets.extend_from_slice(&on_pid(first, pid))?;
    for piece in unit.get(183..).unwrap_or(&[]).chunks(184) {
        let next = go_on(next_counter(packets), piece);
        packets.extend_from_slice(&on_pid(next, pid))?;
    }
    Ok(())
}

/// A packet, by the bytes of a stream of units that it carries: those from a place up to before another, as many as
/// there are.
#[derive(Clone, Copy)]
pub enum PacketOf {
    /// One of PID 256, in which a unit starts.
    Start {
        counter: u8,
        pointer: u8,
        from: usize,
        to: usize,
    },
    /// One of PID 256, in which none does.
    GoOn {
        counter: u8,
        from: usize,
        to: usize,
    },
}

impl PacketOf {
    /// Its 188 bytes.
    pub fn of(&self, stream: &[u8]) -> [u8; 188] {
        match *self {
            PacketOf::Start {
                counter,
                pointer,
                from,
                to,
            } => start(counter, pointer, between(stream, from, to)),
            PacketOf::GoOn { counter, from, to } => go_on(counter, between(stream, from, to)),
        }
    }
}

/// The bytes from a place up to before another, as many as there are.
fn between(stream: &[u8], from: usize, to: usize) -> &[u8] {
    stream.get(from..to.min(stream.len())).unwrap_or(&[])
}
