//! SNDUs (RFC 4326 section 4), and the captures of what they carry.
use crate::captures::{CAPTURE_HEAD, put_record};
use crate::datagrams::{Datagram, datagram_of, put_datagram};
use crate::packets::{on_pid, start};
use std::alloc::Global;
use std::test::Fail;

/// An SNDU.
#[derive(Clone, Copy)]
pub struct Sndu<'a> {
    /// D and Length, Type, and what else stands before the datagram.
    pub head: &'a [u8],
    pub datagram: Datagram,
    /// The CRC-32 after it.
    pub crc: [u8; 4],
}

/// The SNDUs, one after the other.
pub fn stream_of(alloc: Global, sndus: &[Sndu<'_>]) -> Result<Vec<u8>, Fail> {
    let mut stream = Vec::new(alloc);
    for sndu in sndus {
        stream.extend_from_slice(sndu.head)?;
        put_datagram(&mut stream, &sndu.datagram)?;
        stream.extend_from_slice(&sndu.crc)?;
    }
    Ok(stream)
}

/// An SNDU of 42 bytes with a datagram for 239.2.0.9, to its NPA address (RFC 1112 section 6.4).
const ADDRESSED_FILE: Sndu<'static> = Sndu {
    head: &[0, 38, 8, 0, 1, 0, 0x5E, 2, 0, 9],
    datagram: Datagram {
        size: 28,
        to: [239, 2, 0, 9],
    },
    crc: [0xDA, 0x6C, 0xCF, 0x7D],
};

/// The packet of PID 513 with so many of that SNDU, four at most, the first of its PID.
pub fn packet_of_files(alloc: Global, count: usize) -> Result<[u8; 188], Fail> {
    let sndus = [ADDRESSED_FILE; 4];
    let stream = stream_of(alloc, &sndus[..count.min(4)])?;
    Ok(on_pid(start(0, 0, &stream), 513))
}

/// A capture of so many of its datagrams, of ten bytes that are none, and of a datagram for 10.0.0.9: records of 44, 26 and 44
/// bytes after a head of 24.
pub fn capture_of_files(alloc: Global, count: usize) -> Result<Vec<u8>, Fail> {
    let mut capture = Vec::from_slice(alloc, &CAPTURE_HEAD)?;
    let datagram = datagram_of(alloc, &ADDRESSED_FILE.datagram)?;
    for _ in 0..count {
        put_record(&mut capture, &datagram)?;
    }
    put_record(&mut capture, &[0; 10])?;
    let other = Datagram {
        size: 28,
        to: [10, 0, 0, 9],
    };
    put_record(&mut capture, &datagram_of(alloc, &other)?)?;
    Ok(capture)
}
