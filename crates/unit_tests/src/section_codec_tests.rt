//! A section from outside: a program association section, whose CRC_32 an independent program gave.
use crate::cases::{expect_digits, expect_read};
use hex::FromHex;
use section_codec::{SectionForm, parse, write, write_around};
use std::alloc::{AllocError as OutOfMemory, Global};
use std::test::Fail;
use unit_stream::UnitForm;

/// table_id and body of a section, or the fault.
fn fields_of(alloc: Global, bytes: &[u8]) -> Result<String, OutOfMemory> {
    match parse(bytes) {
        Ok(it) => format!(in alloc; "{} [{}]", it.table_id, hex::encode(alloc, it.body)?),
        Err(fault) => format!(in alloc; "{fault:?}"),
    }
}

/// ISO/IEC 13818-1 clause 2.4.4.3: program 1 on PID 0x1000. Then one of its bytes is missing, added or changed.
/// section_length 8 has no room for a head and the CRC_32, whatever the indicator.
const SECTIONS: &str = "\
00b00d 0001c10000 0001f000 2ab104b2|0 [0001c100000001f000]
|Short
00b0|Short
00b00d 0001c10000 0001f000 2ab104|Length
00b00d 0001c10000 0001f000 2ab104b2 00|Length
707008 00*8|Length
3ebffe|Length
00300d 0001c10000 0001f000 2ab104b2|Syntax
00b00d 0001c10000 0002f000 2ab104b2|Crc";

#[test]
fn fields_are_read_and_each_fault_is_named(rt: HostRuntime) -> Result<(), Fail> {
    expect_read(rt.alloc(), fields_of, SECTIONS)
}

/// The same section is written of its fields, and no byte after it; and what it has around a piece of its body.
#[test]
fn the_same_bytes_are_written(rt: HostRuntime) -> Result<(), Fail> {
    let body = <[u8; 9]>::from_hex("0001c100000001f000")?;
    let mut into = [0xEE; 20];
    assert!(rt; write(0, 0xB0, &body, &mut into) == 16);
    expect_digits(
        rt.alloc(),
        &into,
        "00b00d0001c100000001f0002ab104b2eeeeeeee",
    )?;
    let mut around = [0; 12];
    assert!(rt; write_around(0, 0xB0, &body[..5], &body[5..], &mut around) == 8);
    expect_digits(rt.alloc(), &around, "00b00d0001c100002ab104b2")
}

/// What bytes tell of the section that begins with them.
fn span_of(alloc: Global, bytes: &[u8]) -> Result<String, OutOfMemory> {
    format!(in alloc; "{:?}", SectionForm::span(bytes))
}

/// ISO/IEC 13818-1 clause 2.4.4: three bytes tell a length, 4,093 at most, and FF is no table_id.
const SPANS: &str = "\
00b00d 0001c10000 0001f000 2ab104b2|Whole(16)
3ebffd|Whole(4096)
3ebffe|Bad
3eb008|Bad
707005|Whole(8)
3ebf|More
|More
ff|Stuffing";

/// Whether a section has section_syntax_indicator 1 and the right CRC_32.
fn check_of(alloc: Global, bytes: &[u8]) -> Result<String, OutOfMemory> {
    format!(in alloc; "{}", SectionForm::check(bytes))
}

const CHECKS: &str = "\
00b00d 0001c10000 0001f000 2ab104b2|true
00b00d 0001c10000 0001f000 2ab104|false";

#[test]
fn three_bytes_tell_a_section_and_its_end_is_checked(rt: HostRuntime) -> Result<(), Fail> {
    expect_read(rt.alloc(), span_of, SPANS)?;
    expect_read(rt.alloc(), check_of, CHECKS)
}
