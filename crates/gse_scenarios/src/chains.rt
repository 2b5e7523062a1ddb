//! What a PDU carries: extension headers (TS 102 606-1 clause 4.2; RFC 4326 section 5), and a datagram or none.
//!
//! Name, frames and numbers, as `made` reads them.
use crate::made::{IN_300, IN_4200, all_come};
use std::test::Fail;

const CHAINS: &str = "an optional header|00D0/2A E018 0100 0800 DATAGRAM|heard=1 units=1 given=1
five optional headers of two to ten bytes|01B0/D2 E034 0100 02070000 030000000000 0400000000000000 05010000000000000000 0800 DATAGRAM|heard=1 units=1 given=1
mandatory headers: a test, a bridged frame, an unknown one|0380/4C E016 0000 DATAGRAM E03E 0001 00*60 E016 0042 DATAGRAM|heard=1 units=3 unread=3
an optional header that is cut|0068/01 E00B 0500 00*9|heard=1 units=1 unread=1
other EtherTypes|0180/F5 E016 0806 DATAGRAM E016 86DD DATAGRAM|heard=1 units=2 unread=2
a datagram that is cut, and no byte|00D8/7D E015 0800 FIRST8 401100000A000001EF0102 E002 0800|heard=1 units=2 unread=2
bytes after the datagram|00E8/5A E01B 0800 DATAGRAM 00*5|heard=1 units=1 given=1";

/// In frames of 4,200 bytes.
const LONG_CHAINS: &str =
    "2,000 headers, and the datagram|7DC0/D8 EFB6 0101 01*3998 0800 DATAGRAM|heard=1 units=1 given=1
2,000 headers, and no EtherType|7D20/CD EFA2 0101 01*4000|heard=1 units=1 unread=1";

/// Optional headers are passed over; a PDU without a datagram is counted as unread.
#[test]
fn extension_headers_are_passed_over(rt: HostRuntime) -> Result<(), Fail> {
    all_come(rt.alloc(), &IN_300, CHAINS)?;
    all_come(rt.alloc(), &IN_4200, LONG_CHAINS)
}
