//! SNDUs from outside: the example of RFC 4326 appendix B, and one whose CRC-32 an independent program gave.
use crate::cases::{expect_digits, expect_read};
use hex::FromHex;
use std::alloc::{AllocError as OutOfMemory, Global};
use std::test::Fail;
use ule_unit::{Sndu, UleForm, read, read_checked, write, write_around};
use unit_stream::UnitForm;

/// NPA address, Type and bytes of an SNDU.
fn text_of(alloc: Global, sndu: &Sndu<'_>) -> Result<String, OutOfMemory> {
    let bytes = hex::encode(alloc, sndu.bytes)?;
    format!(in alloc; "{:?} {:04x} {bytes}", sndu.npa, sndu.first_type)
}

/// What an SNDU is read as.
fn fields_of(alloc: Global, bytes: &[u8]) -> Result<String, OutOfMemory> {
    match read(bytes) {
        Ok(sndu) => text_of(alloc, &sndu),
        Err(fault) => format!(in alloc; "{fault:?}"),
    }
}

/// RFC 4326 appendix B: an IPv6 datagram with an NPA address. Then an IPv4 datagram of its header alone, with D set, and each
/// fault. Length 3 has no room for a CRC-32, 9 none for an address beside it (sections 4.1 to 4.6).
const SNDUS: &str = "\
003f86dd 000102030405 60000000000d3a40 20010db8300819650000000000000001 20010db8250919620000000000000002 80009d8c0638000400000000007c171763|Some([0, 1, 2, 3, 4, 5]) 86dd 60000000000d3a4020010db830081965000000000000000120010db825091962000000000000000280009d8c063800040000000000
80180800 450000140000000040110000 0a000001 ef010203 64aee84a|None 0800 4500001400000000401100000a000001ef010203
|Length
ffff|Length
80180800 450000140000000040110000 0a000001 ef010203 64aee8|Length
80180800 450000140000000040110000 0a000001 ef010203 64aee84a 00|Length
80030800 010203|Length
00090800 010203040506070809|Length
80180800 450000140000000040110000 0a000001 ef010204 64aee84a|Crc";

/// What an SNDU is read as whose CRC-32 was compared before.
fn checked_of(alloc: Global, bytes: &[u8]) -> Result<String, OutOfMemory> {
    match read_checked(bytes) {
        Some(sndu) => text_of(alloc, &sndu),
        None => "none".to_string(alloc),
    }
}

/// An SNDU with an address, whose CRC-32 is not compared again, one without an address, and one with a byte after it.
const CHECKED: &str = "\
000c0800 010203040506 0708 00000000|Some([1, 2, 3, 4, 5, 6]) 0800 0708
80180800 450000140000000040110000 0a000001 ef010203 64aee84a|None 0800 4500001400000000401100000a000001ef010203
80180800 450000140000000040110000 0a000001 ef010203 64aee84a 00|none";

#[test]
fn fields_are_read_and_each_fault_is_named(rt: HostRuntime) -> Result<(), Fail> {
    expect_read(rt.alloc(), fields_of, SNDUS)?;
    expect_read(rt.alloc(), checked_of, CHECKED)
}

/// The example of RFC 4326 appendix B is written, and no byte after it; and what it has around its datagram.
#[test]
fn an_sndu_with_an_address_is_written(rt: HostRuntime) -> Result<(), Fail> {
    let alloc = rt.alloc();
    let datagram = <[u8; 53]>::from_hex(
        "60000000000d3a4020010db830081965000000000000000120010db825091962000000000000000280009d8c063800040000000000",
    )?;
    let mut into = [0xEE; 68];
    assert!(rt; write(Some([0, 1, 2, 3, 4, 5]), 0x86DD, &datagram, &mut into) == 67);
    let want =
        "003f86dd00010203040560000000000d3a4020010db830081965000000000000000120010db825091962000000000000000280009d8c0638000400000000007c171763ee";
    expect_digits(alloc, &into, want)?;
    let mut around = [0; 14];
    assert!(rt; write_around(Some([0, 1, 2, 3, 4, 5]), 0x86DD, &datagram, &mut around) == 10);
    expect_digits(alloc, &around, "003f86dd0001020304057c171763")
}

#[test]
fn an_sndu_without_an_address_is_written(rt: HostRuntime) -> Result<(), Fail> {
    let datagram = <[u8; 20]>::from_hex("4500001400000000401100000a000001ef010203")?;
    let mut into = [0xEE; 34];
    assert!(rt; write(None, 0x0800, &datagram, &mut into) == 28);
    let want = "801808004500001400000000401100000a000001ef01020364aee84aeeeeeeeeeeee";
    expect_digits(rt.alloc(), &into, want)
}

/// What bytes tell of the SNDU that begins with them.
fn span_of(alloc: Global, bytes: &[u8]) -> Result<String, OutOfMemory> {
    format!(in alloc; "{:?}", UleForm::span(bytes))
}

/// RFC 4326 sections 4.2 and 4.3: a length is told by two bytes, and End Indicators are no SNDU.
const SPANS: &str = "\
003f86dd 000102030405|Whole(67)
80050800|Whole(9)
80030800 01020304|Bad
ffffffff|Stuffing
80|More";

/// Whether an SNDU has the right CRC-32.
fn check_of(alloc: Global, bytes: &[u8]) -> Result<String, OutOfMemory> {
    format!(in alloc; "{}", UleForm::check(bytes))
}

const CHECKS: &str = "\
80180800 450000140000000040110000 0a000001 ef010203 64aee84a|true
80180800 450000140000000040110000 0a000001 ef010204 64aee84a|false";

#[test]
fn two_bytes_tell_an_sndu_and_its_end_is_checked(rt: HostRuntime) -> Result<(), Fail> {
    expect_read(rt.alloc(), span_of, SPANS)?;
    expect_read(rt.alloc(), check_of, CHECKS)
}
