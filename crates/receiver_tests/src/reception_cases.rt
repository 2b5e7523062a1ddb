//! Packets by hand, and what is counted of them: tables of text, a case a line, in columns with `|` between.
//!
//! 1. What the case shows.
//! 2. What comes before the packet of a good unit: `183:SNDU*2` is a packet with pointer_field 183 and a unit, twice. Units are hexadecimal
//!    digits, or have names: those of `test_recordings::units`, and DAMAGED, the SNDU with another CRC-32.
//! 3. The address that the filter lists: `MAC`, which ADDRESSED and the sections have, or `ANOTHER`. Without one all units are wanted.
//! 4. What is counted of all packets: the words of `test_recordings::counts_of`. As many datagrams are delivered.
use std::alloc::Global;
use std::test::Fail;
use test_recordings::units::{ADDRESSED, MAC, OTHER, SECTION, SNDU, TOO_SHORT};
use test_recordings::{bytes_of, start};

/// RFC 4326 sections 4 and 7, ISO/IEC 13818-1 clause 2.4.3.3. A filter wants the units to a listed address and those without one.
pub(crate) const SNDUS: &str = "a good SNDU|0:SNDU||heard=2 units=2 datagrams=2
a duplicate|0:SNDU*2||heard=2 repeats=1 units=2 datagrams=2
three duplicates|0:SNDU*4||heard=2 repeats=3 units=2 datagrams=2
none before it: no gap|0:SNDU*0||heard=1 units=1 datagrams=1
a pointer that ends the payload|183:SNDU||heard=2 units=1 datagrams=1
a pointer that passes it by one byte|184:SNDU||heard=2 units=1 delimited=1 datagrams=1
the largest pointer|255:SNDU||heard=2 units=1 delimited=1 datagrams=1
D and a Length of 3|0:80030800010203||heard=2 units=1 bad_length=1 datagrams=1
a wrong CRC-32|0:DAMAGED||heard=2 units=1 bad_check=1 datagrams=1
a unit of 204 bytes, with which the good unit's packet does not go on|0:80C80800||heard=2 units=1 delimited=1 datagrams=1
the listed address|0:ADDRESSED|MAC|heard=2 units=2 datagrams=2
no address|0:SNDU|MAC|heard=2 units=2 datagrams=2
another address|0:ADDRESSED|ANOTHER|heard=2 units=2 filtered=1 datagrams=1
no address, and another one is listed|0:SNDU|ANOTHER|heard=2 units=2 datagrams=2";

/// ISO/IEC 13818-1 clause 2.4.4, EN 301 192 clause 7. A unit without a datagram is unread, whoever it is for.
pub(crate) const SECTIONS: &str = "two duplicates|0:SECTION*3||heard=2 repeats=2 units=2 datagrams=2
a section_length of 4,094|0:3EBFFE||heard=2 units=1 bad_length=1 datagrams=1
a Total Length of 19|0:TOO_SHORT||heard=2 units=2 unread=1 datagrams=1
another table_id|0:OTHER||heard=2 units=2 unread=1 datagrams=1
a pointer that passes the payload|184:SECTION||heard=2 units=1 delimited=1 datagrams=1
the listed address|0:SECTION|MAC|heard=2 units=2 datagrams=2
the listed address, and no datagram|0:TOO_SHORT|MAC|heard=2 units=2 unread=1 datagrams=1
another address|0:SECTION|ANOTHER|heard=2 units=2 filtered=2
another address, and no datagram|0:TOO_SHORT|ANOTHER|heard=2 units=2 unread=1 filtered=1";

/// A packet, how often it comes, and what is counted of it and of a packet with a good unit.
#[derive(Clone, Copy)]
pub(crate) struct Case<'a> {
    pub(crate) name: &'a str,
    pointer: u8,
    unit: &'a str,
    pub(crate) times: u8,
    /// An address that the filter lists.
    pub(crate) filter: Option<[u8; 6]>,
    pub(crate) counts: &'a str,
}

/// The SNDU with another CRC-32.
const DAMAGED: [u8; 28] = [
    0x80, 0x18, 0x08, 0x00, 0x45, 0x00, 0x00, 0x14, 0x00, 0x00, 0x00, 0x00, 0x40, 0x11, 0x00, 0x00,
    0x0A, 0x00, 0x00, 0x01, 0xEF, 0x01, 0x02, 0x03, 0x64, 0xAE, 0xE8, 0x00,
];

/// The address of a word.
fn address_of(word: &str) -> Option<Option<[u8; 6]>> {
    match word {
        "" => Some(None),
        "MAC" => Some(Some(MAC)),
        "ANOTHER" => Some(Some([2; 6])),
        _ => None,
    }
}

/// Reads a line.
pub(crate) fn read_line(line: &str) -> Option<Case<'_>> {
    let (name, rest) = line.split_once('|')?;
    let (packet, rest) = rest.split_once('|')?;
    let (filter, counts) = rest.split_once('|')?;
    let (pointer, units) = packet.split_once(':')?;
    let (unit, times) = units.split_once('*').unwrap_or((units, "1"));
    Some(Case {
        name,
        pointer: pointer.parse::<u8>().ok()?,
        unit,
        times: times.parse::<u8>().ok()?,
        filter: address_of(filter)?,
        counts,
    })
}

/// The packet of a case.
pub(crate) fn packet_of(alloc: Global, case: &Case<'_>) -> Result<[u8; 188], Fail> {
    let unit: &[u8] = match case.unit {
        "SNDU" => &SNDU,
        "DAMAGED" => &DAMAGED,
        "ADDRESSED" => &ADDRESSED,
        "SECTION" => &SECTION,
        "TOO_SHORT" => &TOO_SHORT,
        "OTHER" => &OTHER,
        digits => return Ok(start(0, case.pointer, &bytes_of(alloc, digits)?)),
    };
    Ok(start(0, case.pointer, unit))
}
