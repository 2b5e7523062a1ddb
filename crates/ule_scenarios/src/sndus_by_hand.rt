//! SNDUs and packets by hand, and which datagrams `ule 256` has of them: tables of text, a case a line, as `sndu_lines` reads them.
//!
//! The first bytes of another packet: 0x40 of byte 1 is payload_unit_start_indicator, 0x80 transport_error_indicator; then the PID
//! (256 is 0x100); byte 3 has transport_scrambling_control, adaptation_field_control and, in its low half, continuity_counter.
use crate::sndu_lines::all_come;
use std::test::Fail;

/// Sixteen packets are lost, so the counter goes on as if none were. A unit is delivered if its start is indicated.
const SIXTEEN_LOST: &str =
    "the recording begins with the unit|LONG NEXT|1/0:0-183 2:183-367 3/33:367-444|LONG NEXT
its start is not indicated|LONG NEXT|1:0-184 2:184-368 3/32:368-444|NEXT
the unit before it is cut|OTHER LONG NEXT|0/0:0-183 1/0:400-583 2:583-767 3/33:767-844|LONG NEXT
its bytes are taken for those of the unit before it|OTHER LONG NEXT|0/0:0-183 1:400-584 2:584-768 3/32:768-844|NEXT";

/// RFC 4326 section 6: Length is not split, so that no SNDU starts at the last byte. A pointer past the end is bad.
const POINTERS: &str =
    "two bytes are left, and a unit starts there|LEAVES_TWO SHORT NEXT|0/0:0-183 1/181:183-366 2/42:366-452|LEAVES_TWO SHORT NEXT
one byte is left, and it is stuffing|LEAVES_ONE SHORT|0/0:0-183 1/182:183-365 2/0:365-409|LEAVES_ONE SHORT
one byte is left, and it is the first of a unit|LEAVES_ONE SHORT NEXT|0/0:0-183 1/182:183-366 2:366-409 3/0:409-453|LEAVES_ONE NEXT
no byte is left|LEAVES_NONE SHORT|0/0:0-183 1/183:183-366 2/0:366-410|LEAVES_NONE SHORT
the pointer is past the end|LEAVES_NONE SHORT NEXT|0/0:0-183 1/184:183-366 2:366-410 3/0:410-454|NEXT";

/// Only what can be read of PID 256 counts, and a discontinuity indicator cuts a unit.
const OTHERS_BETWEEN: &str =
    "PID 257 with the same counters|LONG NEXT OTHER SHORT|14/0:0-183 0x4741011E_00:444-627 15:183-367 0x4701011F:627-811 0x47410110_21:811-888 0/33:367-444|LONG NEXT
a null packet, one with an error, one without a payload, a scrambled one; an adaptation field|LONG NEXT|0/0:0-183 0x471FFF10 0x47C10011_00:0-183 0x47010020_B700 0x47010091:183-367 0x47010031_0A00_FF*9:183-356 2/44:356-444|LONG NEXT
a discontinuity indicator|LONG NEXT|0/0:0-183 0x47010031_0A80_FF*9:183-356 2/44:356-444|NEXT";

/// A unit of three packets, with one unit before it and two after, and each way to hurt it. The last two hurt SHORT: another CRC-32, and a
/// Length that is 1 too much.
const HURT: &str =
    "intact|SHORT LONG NEXT LAST|15/0:0-183 0:183-367 1/77:367-532|SHORT LONG NEXT LAST
the first packet is lost|SHORT LONG NEXT LAST|0:183-367 1/77:367-532|NEXT LAST
the second is lost|SHORT LONG NEXT LAST|15/0:0-183 1/77:367-532|SHORT NEXT LAST
the third is lost|SHORT LONG NEXT LAST|15/0:0-183 0:183-367 2/0:488-532|SHORT LAST
the second is repeated|SHORT LONG NEXT LAST|15/0:0-183 0:183-367 0:183-367 1/77:367-532|SHORT LONG NEXT LAST
the first and the third are repeated, that twice|SHORT LONG NEXT LAST|15/0:0-183 15/0:0-183 0:183-367 1/77:367-532 1/77:367-532 1/77:367-532|SHORT LONG NEXT LAST
the first byte of the second payload is damaged: 0x77 for 0x76|SHORT LONG NEXT LAST|15/0:0-183 0x47010010_77:184-367 1/77:367-532|SHORT NEXT LAST
the pointer is damaged: 76 for 77|SHORT LONG NEXT LAST|15/0:0-183 0:183-367 1/76:367-488 2/0:488-532|SHORT LAST
a damaged unit lies before one in its packet|SHORT 8028_0800/36.0/08D78114 NEXT LAST|0/0:0-132 1/0:132-176|SHORT NEXT LAST
where its Length is damaged, the rest of the packet is lost|SHORT 8029_0800/36.0/08D78115 NEXT LAST|0/0:0-132 1/0:132-176|SHORT LAST";

/// What stands before the datagram of SHORT, in a packet with LAST after it.
const HEADED: &str = "an NPA address|002E_0800_000102030405/36.0/4C33B5F1 LAST|0/0:0-183|SHORT LAST
padding of one word|802A_0100_0800/36.0/D39F19F2 LAST|0/0:0-183|SHORT LAST
padding of three words|802E_0300_00000000_0800/36.0/E42B8252 LAST|0/0:0-183|SHORT LAST
padding twice|802C_0100_0100_0800/36.0/9AA1B724 LAST|0/0:0-183|SHORT LAST
an unknown optional header of five words, and an NPA address|0038_05FF_000102030405_0000000000000000_0800/36.0/1530B7E2 LAST|0/0:0-183|SHORT LAST
IPv6 announced, and IPv4 there|8028_86DD/36.0/033A2E38 LAST|0/0:0-183|LAST
a Test SNDU|8028_0000/36.0/BE18CCB8 LAST|0/0:0-183|LAST
an unknown mandatory header|8028_0042/36.0/ED224429 LAST|0/0:0-183|LAST
padding, then an unknown mandatory header|802A_0100_0042/36.0/366ADCCE LAST|0/0:0-183|LAST
a bridged frame|8036_0001_020000000001_020000000002_0800/36.0/05AA2399 LAST|0/0:0-183|LAST
padding, then a bridged frame|8038_0100_0001_020000000001_020000000002_0800/36.0/4079AF16 LAST|0/0:0-183|LAST
another EtherType|8028_0806/36.0/FB649EFC LAST|0/0:0-183|LAST";

#[test]
fn packets_by_hand_give_their_datagrams(rt: HostRuntime) -> Result<(), Fail> {
    for table in [SIXTEEN_LOST, POINTERS, OTHERS_BETWEEN, HURT] {
        all_come(rt.alloc(), table)?;
    }
    Ok(())
}

/// RFC 4326 sections 4.4, 4.7 and 5: a datagram is delivered if its EtherType stands after optional headers alone.
///
/// Profile: a bridged frame gives no datagram, and an NPA address is not compared.
#[test]
fn extension_headers_lead_to_a_datagram(rt: HostRuntime) -> Result<(), Fail> {
    all_come(rt.alloc(), HEADED)
}
