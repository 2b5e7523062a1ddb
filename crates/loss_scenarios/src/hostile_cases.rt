//! What no sender writes: pointers past the packet, wrong lengths, units without a datagram.
//!
//! An independent program gave each CRC-32. `hostile_received` says what the columns are.
use crate::hostile_received::the_right_unit_comes;
use std::test::Fail;

const CASES: &str =
    "# the pointer takes one of 184 bytes of payload: 183 can be before a unit's first byte (ISO/IEC 13818-1 clause 2.4.4)
a pointer past the payload|ule|184|80180800 450000140000000040110000 0A000001EF010203 64AEE84A|stream records=2|files heard=2 units=1 delimited=1 gives 0
the largest pointer|ule|255|80180800 450000140000000040110000 0A000001EF010203 64AEE84A|stream records=2|files heard=2 units=1 delimited=1 gives 0
# the CRC-32 alone has 4 bytes
D, and a Length of 3|ule|0|80030800 010203|stream records=2|files heard=2 units=1 bad_length=1 gives 0
# section_length is at most 4,093
a section_length of 4,094|mpe|0|3EBFFE 00*180|stream records=2|files heard=2 units=1 bad_length=1 gives 0
# each optional header of two bytes gives the next Type, 0x0100 again (RFC 4326 section 5); for the last Type no byte is left. Its 4,008
# bytes go in 22 packets
2,000 extension headers, and no EtherType|ule|0|8FA4 0100*2001 0A239301|stream records=23|files heard=23 units=2 unread=1 gives 0
# an IPv4 header alone has 20 bytes (RFC 791 section 3.1)
a Total Length of 19 in an SNDU|ule|0|80180800 450000130000000040110000 0A000001EF010203 03977ED9|stream records=2|files heard=2 units=2 unread=1 gives 0
a Total Length of 19 in a section|mpe|0|3EB021 0302 C1 0000 015E0001 450000130000000040110000 0A000001EF010203 3EA3B1A0|stream records=2|files heard=2 units=2 unread=1 gives 0
# a column of 256 zeros; its 272 bytes go in two packets
section_number 5 of last_section_number 4|fec|0|78B10D BE FFFF 0504 00000000 00*256 E8E11C5A|stream records=3|files heard=3 units=2 unread=1 frames=1 gives 0
# 191 columns of 256 rows have 48,896 bytes
an address of 262,143|fec|0|3EB021 0302 C1 0000 0003FFFF 450000140000000040110000 0A000001EF010203 55CB1F1E|stream records=2|files heard=2 units=2 unread=1 frames=1 gives 0";

/// Nothing of such a unit is delivered, one number of the report says why, and the right unit after it is received.
#[test]
fn a_right_unit_is_received_after_a_wrong_one(rt: HostRuntime) -> Result<(), Fail> {
    for line in CASES.lines() {
        the_right_unit_comes(rt.alloc(), line)?;
    }
    Ok(())
}

/// 100 frames of which one column of RS data came and nothing else: section_number 0 of last_section_number 0, with the column of the right
/// unit's datagram and zeros. Its 272 bytes go in two packets. MPE-FEC sections are no datagrams; the right unit is one frame more, of which
/// no row is corrected.
///
/// With 190 padding columns the column is 143 times that of the application data table (EN 301 192 clause 9), byte by byte: an
/// independent program gave it and its CRC-32.
const COLUMN: &str =
    "one column of RS data|fec|0|100 of 78B10D BE FFFF 0000 00000000 E900001E0000000060970000 0F00008F168F038C 00*236 EC425AB7|stream records=201|files heard=201 units=101 frames=101 rows_mended=25600 gives 0*101";

/// A column and the 190 that are known as zeros tell all rows: the datagram comes out of each frame, and out of the right unit.
#[test]
fn one_column_tells_a_frame(rt: HostRuntime) -> Result<(), Fail> {
    the_right_unit_comes(rt.alloc(), COLUMN)
}
