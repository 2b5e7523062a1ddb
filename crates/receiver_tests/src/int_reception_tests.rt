//! Sections by hand on the INT's PID: how many are counted, which is kept, and which version is in force.
use section_codec::SectionForm;
use service_reception::IntReception;
use std::alloc::Global;
use std::test::Fail;
use test_recordings::start;
use test_recordings::units::{INT, INT_OF_TWO, NEXT_INT, OTHER};
use ts_packet::parse;
use unit_stream::UnitForm;

/// The INT with another CRC-32.
const DAMAGED_INT: [u8; 18] = [
    0x4C, 0xF0, 0x0F, 0x01, 0x01, 0xC1, 0, 0, 0, 0, 1, 0, 0xF0, 0, 0x07, 0xE9, 0x3F, 0,
];

/// INT_OF_TWO as of versions 1 and 2: version_number stands in bits 1 to 5 of byte 5.
const VERSION_1: [u8; 67] = [
    0x4C, 0xF0, 0x40, 0x01, 0x01, 0xC3, 0x00, 0x00, 0x00, 0x00, 0x01, 0x00, 0xF0, 0x00, 0xF0, 0x07,
    0x0F, 0x05, 0xEF, 0x01, 0x00, 0x00, 0x10, 0xF0, 0x10, 0x13, 0x09, 0x00, 0x02, 0x00, 0x03, 0x00,
    0x04, 0x00, 0x0A, 0x01, 0x77, 0x03, 0xBB, 0x07, 0x70, 0xF0, 0x07, 0x0F, 0x05, 0xEF, 0x02, 0x00,
    0x00, 0x10, 0xF0, 0x0B, 0x13, 0x09, 0x00, 0x02, 0x00, 0x03, 0x00, 0x04, 0x00, 0x0A, 0x02, 0x7E,
    0x8B, 0xE1, 0xC2,
];

const VERSION_2: [u8; 67] = [
    0x4C, 0xF0, 0x40, 0x01, 0x01, 0xC5, 0x00, 0x00, 0x00, 0x00, 0x01, 0x00, 0xF0, 0x00, 0xF0, 0x07,
    0x0F, 0x05, 0xEF, 0x01, 0x00, 0x00, 0x10, 0xF0, 0x10, 0x13, 0x09, 0x00, 0x02, 0x00, 0x03, 0x00,
    0x04, 0x00, 0x0A, 0x01, 0x77, 0x03, 0xBB, 0x07, 0x70, 0xF0, 0x07, 0x0F, 0x05, 0xEF, 0x02, 0x00,
    0x00, 0x10, 0xF0, 0x0B, 0x13, 0x09, 0x00, 0x02, 0x00, 0x03, 0x00, 0x04, 0x00, 0x0A, 0x02, 0xD1,
    0x3D, 0x00, 0xD5,
];

/// The section of a name.
fn section_of(name: &str) -> Option<&'static [u8]> {
    match name {
        "DAMAGED_INT" => Some(&DAMAGED_INT),
        "OTHER" => Some(&OTHER),
        "INT" => Some(&INT),
        "NEXT_INT" => Some(&NEXT_INT),
        "INT_OF_TWO" => Some(&INT_OF_TWO),
        "VERSION_1" => Some(&VERSION_1),
        "VERSION_2" => Some(&VERSION_2),
        _ => None,
    }
}

/// A section on the INT's PID; and after it how many sections are counted, the version in force, and the section that is shown.
#[derive(Clone, Copy)]
struct Case {
    section: &'static [u8],
    units: u64,
    version: u8,
    shown: Option<&'static [u8]>,
}

/// Reads a line: the names of both sections, `-` for none, and between them the numbers.
fn read_line(line: &str) -> Option<Case> {
    let (section, rest) = line.split_once(' ')?;
    let (units, rest) = rest.split_once(' ')?;
    let (version, shown) = rest.split_once(' ')?;
    Some(Case {
        section: section_of(section)?,
        units: units.parse::<u64>().ok()?,
        version: version.parse::<u8>().ok()?,
        shown: if shown == "-" {
            None
        } else {
            Some(section_of(shown)?)
        },
    })
}

/// A reception of an INT that has taken nothing.
fn table_of(alloc: Global, platform: u32, last_version: u8) -> Result<IntReception<Global>, Fail> {
    let buffer = vec![in alloc; 0u8; SectionForm::LONGEST]?;
    let kept = vec![in alloc; 0u8; SectionForm::LONGEST]?;
    Ok(IntReception::over(buffer, kept, platform, last_version))
}

/// Takes the packet with a section.
fn take_section(reception: &mut IntReception<Global>, counter: u8, section: &[u8]) {
    let bytes = start(counter, 0, section);
    if let Ok(packet) = parse(&bytes) {
        reception.take(&bytes, &packet, 0);
    }
}

/// Takes the section of a case. Fails where something else is counted, in force or shown than it says.
fn take_case(reception: &mut IntReception<Global>, counter: usize, line: &str) -> Result<(), Fail> {
    let Some(case) = read_line(line) else {
        return Err(Fail::new(format_args!("{line}: no case")));
    };
    take_section(reception, (counter % 16) as u8, case.section);
    let is_right = reception.units() == case.units
        && reception.version() == case.version
        && reception.section() == case.shown;
    if is_right {
        Ok(())
    } else {
        Err(Fail::new(line))
    }
}

/// The same of each line, one after another.
fn take_all(reception: &mut IntReception<Global>, lines: &str) -> Result<(), Fail> {
    for (counter, line) in lines.lines().enumerate() {
        take_case(reception, counter, line)?;
    }
    Ok(())
}

/// EN 301 192 clause 8.4: each section counts, and the first with table_id 0x4C is kept.
const FIRST: &str = "DAMAGED_INT 0 0 -
OTHER 1 0 -
INT 2 0 INT
NEXT_INT 3 0 INT
OTHER 4 0 INT";

#[test]
fn the_first_section_of_an_int_is_kept(rt: HostRuntime) -> Result<(), Fail> {
    let mut reception = table_of(rt.alloc(), 1, 0)?;
    take_all(&mut reception, FIRST)
}

/// EN 301 192 clause 8.4: of the platform's sections the greatest version of the plan, which has versions 0 and 1, is in force.
const VERSIONS: &str = "INT_OF_TWO 1 0 INT_OF_TWO
VERSION_2 2 0 INT_OF_TWO
VERSION_1 3 1 VERSION_1
INT_OF_TWO 4 1 VERSION_1";

#[test]
fn a_later_version_is_put_in_force(rt: HostRuntime) -> Result<(), Fail> {
    let mut reception = table_of(rt.alloc(), 1, 1)?;
    take_all(&mut reception, VERSIONS)
}

/// The sections of another platform put none in force, and the first of them is shown.
const OF_ANOTHER: &str = "INT_OF_TWO 1 0 INT_OF_TWO
VERSION_2 2 0 INT_OF_TWO
VERSION_1 3 0 INT_OF_TWO
INT_OF_TWO 4 0 INT_OF_TWO";

#[test]
fn sections_of_another_platform_put_none_in_force(rt: HostRuntime) -> Result<(), Fail> {
    let mut reception = table_of(rt.alloc(), 2, 1)?;
    take_all(&mut reception, OF_ANOTHER)
}
