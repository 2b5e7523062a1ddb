//! Datagrams -> a capture.
use crate::datagrams::{Datagram, datagram_of};
use std::alloc::Global;
use std::test::Fail;

/// The head of a capture of link type 101, raw IP datagrams (draft-ietf-opsawg-pcap section 4).
pub const CAPTURE_HEAD: [u8; 24] = [
    0xD4, 0xC3, 0xB2, 0xA1, 2, 0, 4, 0, 0, 0, 0, 0, 0, 0, 0, 0, 0, 0, 4, 0, 0x65, 0, 0, 0,
];

/// Appends a record of these bytes, 65,535 at most, with time 0 (section 5).
pub fn put_record(into: &mut Vec<u8>, bytes: &[u8]) -> Result<(), Fail> {
    let size = u16::try_from(bytes.len()).map_err(|_| "a longer record")?;
    let [high, low] = size.to_be_bytes();
    into.extend_from_slice(&[0, 0, 0, 0, 0, 0, 0, 0, low, high, 0, 0, low, high, 0, 0])?;
    into.extend_from_slice(bytes)?;
    Ok(())
}

/// The capture of datagrams.
pub fn capture_of(alloc: Global, datagrams: &[Datagram]) -> Result<Vec<u8>, Fail> {
    let mut capture = Vec::from_slice(alloc, &CAPTURE_HEAD)?;
    for datagram in datagrams {
        put_record(&mut capture, &datagram_of(alloc, datagram)?)?;
    }
    Ok(capture)
}

/// The capture of the datagrams with these numbers, of those of these sizes, to 239.x.0.number.
pub fn numbered_capture(
    alloc: Global,
    x: u8,
    sizes: &[u16],
    numbers: &[u8],
) -> Result<Vec<u8>, Fail> {
    let mut capture = Vec::from_slice(alloc, &CAPTURE_HEAD)?;
    for number in numbers {
        let size = sizes.get(usize::from(*number)).ok_or("no such datagram")?;
        let datagram = Datagram {
            size: *size,
            to: [239, x, 0, *number],
        };
        put_record(&mut capture, &datagram_of(alloc, &datagram)?)?;
    }
    Ok(capture)
}
