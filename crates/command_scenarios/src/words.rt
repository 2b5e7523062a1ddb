//! Words of a table -> bytes.
//!
//! | Word | What |
//! |---|---|
//! | `47FF*94` | hexadecimal digits, so many times |
//! | `FRAME` | a name of `pieces_of` |
//! | `239.1.0.0/16,10,1,-` | a line of text: it has a comma |
//! | `PMT@8190` | the packet on PID 8190 with the section `PMT`, from its first byte on |
//! | `PMT_LONG/1@8190:3` | the next one of this section, which goes on, with continuity_counter 3 in place of 0 |
//! | `FILL` | bytes FF up to the end of the packet |
//! | `ZEROS` | zeros up to the end of the baseband frame, of 2,000 bytes |
ghost use Rattle.std.specs.Prelude.{◌<◌};

use crate::discovery_sections::section_of;
use std::alloc::{AllocError as OutOfMemory, Global};
use std::test::Fail;
use test_recordings::{bytes_of, go_on, left_of, on_pid, start};

/// What a name stands for. A word that is no name stands for itself.
fn pieces_of(word: &str) -> &str {
    match word {
        // a frame of 60 bytes to all stations, with EtherType 0x88B5 (IEEE Std 802, for local experiments)
        "FRAME" => "FF*6 020000000001 88B5 00*46",
        // an IPv4 datagram of 20 bytes for 239.1.2.3, and a frame with it
        "DATAGRAM" => "45000014 00000000 40110000 0A000001 EF010203",
        "IP_FRAME" => "FF*6 020000000001 0800 45000014 00000000 40110000 0A000001 EF010203",
        // heads of captures of link types 1 and 101 (draft-ietf-opsawg-pcap section 4)
        "ETHERNET" => "D4C3B2A1 02000400 00*8 00000400 01000000",
        "RAW" => "D4C3B2A1 02000400 00*8 00000400 65000000",
        // records of a capture with FRAME, IP_FRAME and DATAGRAM
        "RECORD" => "00*8 3C000000*2 FF*6 020000000001 88B5 00*46",
        "IP_RECORD" => {
            "00*8 22000000*2 FF*6 020000000001 0800 45000014 00000000 40110000 0A000001 EF010203"
        }
        "ROUTED" => "00*8 14000000*2 45000014 00000000 40110000 0A000001 EF010203",
        // the text of `find`: the head line, and lines of two rules, with both PIDs or with neither
        "head" => "rule,service,tag,pid",
        "both" => "rule,service,tag,pid 239.1.0.0/16,10,1,512 239.2.0.0/16,10,2,513",
        "neither" => "rule,service,tag,pid 239.1.0.0/16,10,1,- 239.2.0.0/16,10,2,-",
        _ => word,
    }
}

/// The packet of PID 256 with a part of a section, which may fill three: 183 bytes of it stand in the packet in which it begins, and 367 in
/// two packets (ISO/IEC 13818-1 clause 2.4.3).
fn packet_of(section: &[u8], part: &str, counter: u8) -> Result<[u8; 188], Fail> {
    let rest = match part {
        "0" => return Ok(start(counter, 0, section)),
        "1" => section.get(183..),
        "2" => section.get(367..),
        _ => None,
    };
    Ok(go_on(counter, rest.ok_or("no such part")?))
}

/// Appends the packet of a part of a section.
fn put_packet(alloc: Global, into: &mut Vec<u8>, what: &str, place: &str) -> Result<(), Fail> {
    let (pid, counter) = place.split_once(':').unwrap_or((place, "0"));
    let (name, part) = what.split_once('/').unwrap_or((what, "0"));
    let counter = counter.parse::<u8>()?;
    let pid = pid.parse::<u16>()?;
    let section = section_of(alloc, name)?;
    let packet = packet_of(&section, part, counter)?;
    Ok(into.extend_from_slice(&on_pid(packet, pid))?)
}

/// Appends bytes up to the end of the last one of the records of this size.
fn fill(into: &mut Vec<u8>, size: usize, byte: u8) -> Result<(), OutOfMemory>
    requires size { 0 < size }
{
    let end = into.len().div_ceil(size).saturating_mul(size);
    for _ in into.len()..end {
        into.push(byte)?;
    }
    Ok(())
}

/// Appends a line of text.
fn put_line(into: &mut Vec<u8>, line: &str) -> Result<(), OutOfMemory> {
    into.extend_from_slice(line.as_bytes())?;
    into.push(b'\n')?;
    Ok(())
}

/// Appends what a piece says.
fn put_piece(alloc: Global, into: &mut Vec<u8>, piece: &str) -> Result<(), Fail> {
    if let Some((what, place)) = piece.split_once('@') {
        return put_packet(alloc, into, what, place);
    }
    if piece.contains(',') {
        return Ok(put_line(into, piece)?);
    }
    match piece {
        "FILL" => Ok(fill(into, 188, 0xFF)?),
        "ZEROS" => Ok(fill(into, 2000, 0)?),
        _ => Ok(into.extend_from_slice(&bytes_of(alloc, piece)?)?),
    }
}

/// Appends what a word says.
fn put_word(alloc: Global, into: &mut Vec<u8>, word: &str) -> Result<(), Fail> {
    for piece in pieces_of(word).split_whitespace() {
        put_piece(alloc, into, piece)?;
    }
    Ok(())
}

/// The bytes of these words.
pub fn bytes_in(alloc: Global, words: &str) -> Result<Vec<u8>, Fail> {
    let mut bytes = Vec::new(alloc);
    for word in words.split_whitespace() {
        put_word(alloc, &mut bytes, word)?;
    }
    Ok(bytes)
}

/// What is left of a stream, by the bytes of its records and the harms of `test_recordings`, as `188 1-2`.
pub fn harmed(alloc: Global, stream: &[u8], words: &str) -> Result<Vec<u8>, Fail> {
    let (size, harms) = words.split_once(' ').unwrap_or((words, ""));
    left_of(alloc, stream, size.parse()?, harms)
}
