//! Check values from outside: catalogues of check sums, RFC 4326, a section, and long division by hand; and pieces of all lengths beside
//! their bytes one by one.
use crate::cases::expect_read;
use crc_unit::{crc8, crc32, crc32_step};
use std::alloc::{AllocError as OutOfMemory, Global};
use std::test::Fail;

/// CRC-32 as text.
fn crc32_of(alloc: Global, bytes: &[u8]) -> Result<String, OutOfMemory> {
    format!(in alloc; "{:08x}", crc32(bytes))
}

/// The catalogue's check value over `123456789` (CRC-32/MPEG-2); the start value is left over no byte.
/// Then a program association table as multiplexers write it: program 1 on PID 4096.
const LONG: &str = "\
313233343536373839|0376e6e7
|ffffffff
00b00d00 01c10000 0001f000|2ab104b2";

/// CRC-8 as text.
fn crc8_of(alloc: Global, bytes: &[u8]) -> Result<String, OutOfMemory> {
    format!(in alloc; "{:02x}", crc8(bytes))
}

/// The catalogue's check value over `123456789` (CRC-8/DVB-S2); the start value is left over no byte.
/// x^8 modulo the polynomial is 0xD5, and x^9 is 0x1AA with the polynomial added.
const SHORT: &str = "\
313233343536373839|bc
|00
01|d5
00*8 02|7f";

#[test]
fn check_sums_are_those_known_elsewhere(rt: HostRuntime) -> Result<(), Fail> {
    expect_read(rt.alloc(), crc32_of, LONG)?;
    expect_read(rt.alloc(), crc8_of, SHORT)
}

/// Appendix B of RFC 4326: an SNDU with an IPv6 datagram, and its CRC-32, 7C171763.
const SNDU: [u8; 67] = [
    0x00, 0x3F, 0x86, 0xDD, 0x00, 0x01, 0x02, 0x03, 0x04, 0x05, 0x60, 0x00, 0x00, 0x00, 0x00, 0x0D,
    0x3A, 0x40, 0x20, 0x01, 0x0D, 0xB8, 0x30, 0x08, 0x19, 0x65, 0x00, 0x00, 0x00, 0x00, 0x00, 0x00,
    0x00, 0x01, 0x20, 0x01, 0x0D, 0xB8, 0x25, 0x09, 0x19, 0x62, 0x00, 0x00, 0x00, 0x00, 0x00, 0x00,
    0x00, 0x02, 0x80, 0x00, 0x9D, 0x8C, 0x06, 0x38, 0x00, 0x04, 0x00, 0x00, 0x00, 0x00, 0x00, 0x7C,
    0x17, 0x17, 0x63,
];

/// ISO/IEC 13818-1 annex A: over a whole unit, its CRC-32 included, the register ends at 0.
#[test]
fn a_unit_in_pieces_ends_at_zero(rt: HostRuntime) {
    assert!(rt; crc32(&SNDU[..63]) == 0x7C17_1763);
    for cut in 0..=SNDU.len() {
        let register = crc32(&SNDU[..cut]);
        assert!(rt; crc32_step(register, &SNDU[cut..]) == 0, "at {cut}");
    }
}

/// Whether the register after bytes is that after the bytes one by one, each of which goes through the plain body alone.
fn is_right(register: u32, bytes: &[u8]) -> bool {
    let mut running = register;
    for byte in bytes {
        running = crc32_step(running, &[*byte]);
    }
    crc32_step(register, bytes) == running
}

/// A call steps by sixteen bytes, then by eight, then by one: it gives at each length and from each kind of register what one
/// byte a call gives.
#[test]
fn sixteen_bytes_a_step_give_what_one_byte_a_step_gives(rt: HostRuntime) {
    for register in [0, 1, 0x8000_0000, 0x1234_5678, 0xFFFF_FFFF] {
        for length in 0..=SNDU.len() {
            assert!(rt; is_right(register, &SNDU[..length]), "at {length}");
        }
    }
}

/// Bytes of which no two pieces are the same.
fn message() -> [u8; 5000] {
    let mut bytes = [0; 5000];
    for (place, byte) in bytes.iter_mut().enumerate() {
        *byte = (place % 251) as u8 ^ (place / 251) as u8;
    }
    bytes
}

/// From 512 bytes on pieces of 1,536 are divided by five terms, and of a last one of 304 at least too: one byte a call
/// gives the same below, at and above each of these borders.
#[test]
fn division_by_five_terms_gives_what_one_byte_a_step_gives(rt: HostRuntime) {
    let bytes = message();
    for length in [
        303usize, 304, 511, 512, 640, 1535, 1536, 1537, 1839, 1840, 5000,
    ] {
        assert!(rt; is_right(0x1234_5678, &bytes[..length]), "at {length}");
    }
}
