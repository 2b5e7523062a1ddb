//! Words -> sections of a service of frames of 256 rows, by hand -> their packets.
//!
//! | Word | Section |
//! |---|---|
//! | `1@20` | a datagram_section (EN 301 192 clause 7) with the datagram of 20 bytes for 239.1.0.1, at address 20 |
//! | `1@20/table`, `1@20/frame` | the same with table_boundary, or with frame_boundary (clause 9.10) |
//! | `1@20/4095` | the same with index 4095 in the place of 0 |
//! | `190:5/4` | an MPE-FEC section (clause 9.9) with a column of 256 zeros: 190 padding columns, section_number 5, last_section_number 4 |
//! | `short` | one with 255 zeros, the only column of its frame |
//! | `other` | a section of another table |
//! | `right` | the last section of a frame with the datagrams for 239.1.0.8 and 239.1.0.9, its only column |
use std::alloc::Global;
use std::test::Fail;
use test_recordings::{bytes_of, put_unit};

/// The last section of a frame. An independent program gave the first 40 rows of its column, by long division.
const RIGHT: &str =
    "78B10D BE FFFF0000 000C0000 E900001E00000000609700000F00008F168F000C E900001E00000000609700000F00008F168F0083 00*216";

/// real_time_parameters (clause 9.10), by an address and what follows it.
fn real_time_of(words: &str) -> Result<u32, Fail> {
    let (address, part) = words.split_once('/').unwrap_or((words, "0"));
    let part = match part {
        "table" => 0x8_0000,
        "frame" => 0x4_0000,
        _ => part.parse::<u32>()? << 20,
    };
    Ok(part | address.parse::<u32>()?)
}

/// A datagram_section up to its CRC_32, in hexadecimal, as all below. The CRC_32 counts as 4 of its 33 bytes behind section_length.
fn data_of(alloc: Global, number: &str, words: &str) -> Result<String, Fail> {
    let number = number.parse::<u8>()?;
    let real_time = real_time_of(words)?;
    Ok(format!(in alloc;
        "3EB021 {number:02X}00C10000 {real_time:08X} 45000014 00000000 40110000 0A000001 EF0100{number:02X}"
    )?)
}

/// An MPE-FEC section.
fn parity_of(alloc: Global, padding: &str, numbers: &str) -> Result<String, Fail> {
    let (number, last) = numbers.split_once('/').ok_or("no last section")?;
    let padding = padding.parse::<u8>()?;
    let number = number.parse::<u8>()?;
    let last = last.parse::<u8>()?;
    Ok(format!(in alloc; "78B10D {padding:02X} FFFF {number:02X} {last:02X} 00000000 00*256")?)
}

/// The section of a word.
fn digits_of(alloc: Global, word: &str) -> Result<String, Fail> {
    if let Some((number, words)) = word.split_once('@') {
        return data_of(alloc, number, words);
    }
    if let Some((padding, numbers)) = word.split_once(':') {
        return parity_of(alloc, padding, numbers);
    }
    let digits = match word {
        "short" => "78B10C BE FFFF0000 00000000 00*255",
        "other" => "4DF00F0101C1000000000100F000",
        "right" => RIGHT,
        _ => return Err("no such section".into()),
    };
    Ok(digits.to_string(alloc)?)
}

/// The CRC_32, bit by bit (ISO/IEC 13818-1 annex A).
fn crc_of(bytes: &[u8]) -> u32 {
    let mut crc: u32 = 0xFFFF_FFFF;
    for byte in bytes {
        crc ^= u32::from(*byte) << 24;
        for _ in 0..8u8 {
            let high = crc >= 0x8000_0000;
            crc <<= 1;
            if high {
                crc ^= 0x04C1_1DB7;
            }
        }
    }
    crc
}

/// The bytes of a section.
fn section_of(alloc: Global, word: &str) -> Result<Vec<u8>, Fail> {
    let digits = digits_of(alloc, word)?;
    let mut section = bytes_of(alloc, &digits)?;
    let crc = crc_of(&section);
    section.extend_from_slice(&crc.to_be_bytes())?;
    Ok(section)
}

/// The packets of the sections of words on a PID, the first of which has counter 0.
pub fn packets_of(alloc: Global, words: &str, pid: u16) -> Result<Vec<u8>, Fail> {
    let mut packets = Vec::new(alloc);
    for word in words.split_whitespace() {
        put_unit(&mut packets, pid, 0, &section_of(alloc, word)?)?;
    }
    Ok(packets)
}
