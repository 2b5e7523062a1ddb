//! Units by hand, as text, and what comes of them and of a right one after them.
//!
//! A line has columns with `|` between: the name of a case; the kind of the service, `ule`, `mpe` or `fec`; the pointer field; the unit; and
//! the columns of `received`, where datagram 0 is that of the right unit. A unit is hexadecimal digits, with `*` and how often they come;
//! `100 of` before it says how often it comes itself.
use crate::received::{Reception, comes};
use std::alloc::Global;
use std::test::Fail;
use test_recordings::{bytes_of, put_unit};

/// What is received of a service on PID 256, and a right unit of it.
#[derive(Clone, Copy)]
struct Kind {
    settings: &'static str,
    right: &'static str,
}

/// SNDUs (RFC 4326 section 4).
const SNDUS: Kind = Kind {
    settings: "[[service]] name=files kind=ule pid=256 rules=239.1.0.0/16",
    right: "80180800 450000140000000040110000 0A000001EF010203 64AEE84A",
};

/// datagram_sections (EN 301 192 clause 7).
const SECTIONS: Kind = Kind {
    settings: "[[service]] name=files kind=mpe pid=256 rules=239.1.0.0/16",
    right: "3EB021 0302 C1 0000 015E0001 450000140000000040110000 0A000001EF010203 599A2733",
};

/// MPE-FEC frames (clause 9), of which the right unit is a whole one: a datagram at address 0, with table_boundary and frame_boundary.
const FRAMES: Kind = Kind {
    settings: "[[service]] name=files kind=fec pid=256 mode=indexed rows=256 rules=239.1.0.0/16",
    right: "3EB021 0302 C1 0000 000C0000 450000140000000040110000 0A000001EF010203 351DD0DA",
};

fn kind_of(word: &str) -> Result<Kind, Fail> {
    match word {
        "ule" => Ok(SNDUS),
        "mpe" => Ok(SECTIONS),
        "fec" => Ok(FRAMES),
        _ => Err("no such kind".into()),
    }
}

/// Appends the packets of a unit as often as it comes.
fn put_units(alloc: Global, packets: &mut Vec<u8>, pointer: u8, unit: &str) -> Result<(), Fail> {
    let (times, digits) = unit.split_once(" of ").unwrap_or(("1", unit));
    let unit = bytes_of(alloc, digits)?;
    for _ in 0..times.parse::<u16>()? {
        put_unit(packets, 256, pointer, &unit)?;
    }
    Ok(())
}

/// The packets of a unit, and one with the right unit after them.
fn recording_of(alloc: Global, kind: &Kind, pointer: u8, unit: &str) -> Result<Vec<u8>, Fail> {
    let mut recording = Vec::new(alloc);
    put_units(alloc, &mut recording, pointer, unit)?;
    put_units(alloc, &mut recording, 0, kind.right)?;
    Ok(recording)
}

/// Receives the packets of a line: what comes is what it says.
pub fn the_right_unit_comes(alloc: Global, line: &str) -> Result<(), Fail> {
    if line.starts_with("#") {
        return Ok(());
    }
    let (case, rest) = line.split_once('|').ok_or("no kind")?;
    let (kind, rest) = rest.split_once('|').ok_or("no pointer")?;
    let (pointer, rest) = rest.split_once('|').ok_or("no unit")?;
    let (unit, columns) = rest.split_once('|').ok_or("no columns")?;
    let kind = kind_of(kind)?;
    let recording = recording_of(alloc, &kind, pointer.parse()?, unit)?;
    let reception = Reception {
        settings: kind.settings,
        services: &[("files", "239.1.2.3:20")],
        whole: "",
    };
    comes(alloc, case, &reception, &recording, columns)
}
