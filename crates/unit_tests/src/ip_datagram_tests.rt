//! Headers from the standards' syntax, written by hand.
use crate::cases::expect_read;
use ip_datagram::{destination, front, length_hint};
use std::alloc::{AllocError as OutOfMemory, Global};
use std::test::Fail;

/// The length and the destination of the datagram that bytes begin with, or the fault.
fn front_of(alloc: Global, bytes: &[u8]) -> Result<String, OutOfMemory> {
    match front(bytes) {
        Ok(length) => format!(in alloc; "{length} to {:?}", destination(bytes)),
        Err(fault) => format!(in alloc; "{fault:?}"),
    }
}

/// IPv4 with IHL 5 (RFC 791 section 3.1), and IPv6 with Payload Length 2 and Next Header 59 (RFC 8200 section 3).
const FRONTS: &str = "\
45000014 00000000 40110000 0a000001 ef010203 ff|20 to V4([239, 1, 2, 3])
45000014 00000000 40110000 0a000001 ef010203|20 to V4([239, 1, 2, 3])
60000000 00023b40 20010db8 00*11 01 ff0e 00*13 05 0707|42 to V6([255, 14, 0, 0, 0, 0, 0, 0, 0, 0, 0, 0, 0, 0, 0, 5])
|Short
45000014 00000000 40110000 0a000001 ef0102|Short
60000000 00023b40 20010db8 00*11 01 ff0e 00*13|Short
55000014 00000000 40110000 0a000001 ef010203 ff|Version
44000014 00000000 40110000 0a000001 ef010203 ff|HeaderLength
46000014 00000000 40110000 0a000001 ef010203 ff|Length
45000114 00000000 40110000 0a000001 ef010203 ff|Length
60000000 00023b40 20010db8 00*11 01 ff0e 00*13 05 07|Length
60000000 00000040 20010db8 00*11 01 ff0e 00*13 05 0707|Jumbo";

/// The header says the length, and the destination; each fault has its name.
#[test]
fn fronts_are_measured_and_each_fault_is_named(rt: HostRuntime) -> Result<(), Fail> {
    expect_read(rt.alloc(), front_of, FRONTS)
}

/// What bytes tell of the length of a datagram that begins with them.
fn hint_of(alloc: Global, bytes: &[u8]) -> Result<String, OutOfMemory> {
    format!(in alloc; "{:?}", length_hint(bytes))
}

/// The fields that tell a length stand in the first 4 bytes of IPv4 and the first 7 of IPv6.
const HINTS: &str = "\
|More
0045|Padding
450000|More
45000014|Length(20)
46000014|Bad
60000000 0002|More
60000000 00023b|Length(42)
60000000 000000|Bad
70|Bad";

#[test]
fn prefixes_tell_what_they_can(rt: HostRuntime) -> Result<(), Fail> {
    expect_read(rt.alloc(), hint_of, HINTS)
}
