//! Fragments (TS 102 606-1 clause 4.2): the last one is joined with those after the latest first one of its Frag ID.
//!
//! Name, frames and numbers, as `made` reads them.
use crate::made::{IN_300, all_come};
use std::test::Fail;

const FRAGMENTS: &str =
    "a datagram in three fragments of one frame|0158/90 START MIDDLE END|heard=1 units=1 given=1
a datagram in three frames|00A8/9D START; 0068/01 MIDDLE; 0048/88 END|heard=3 units=1 given=1
a middle fragment without bytes|00A8/9D START; 0018/E1 300101; 0068/01 MIDDLE; 0048/88 END|heard=4 units=1 given=1
other label types after the first fragment|0170/4E START 100601 4011 0000 0A 200601 000001 EF01 400701 0203 4C365E23|heard=1 units=1 given=1
packets and other input streams between|0168/B7 START FOR_ALL; 5007 0000 00A8 00 0000 81 START; 0158/90 MIDDLE WHOLE; 0048/88 END|other=1 heard=3 units=3 given=3
two datagrams of two Frag IDs, interleaved|0150/C7 START 801302 001C 0800 01005E010203 FIRST8; 0100/AE MIDDLE 701102 LAST12 4C365E23; 0048/88 END|heard=3 units=2 given=2
a middle and a last fragment without a first|0068/01 MIDDLE; 0048/88 END|heard=2 delimited=2
a last fragment twice|01D8/CB START REST REST|heard=1 units=1 delimited=1 given=1
a middle fragment lost|00A8/9D START; 0048/88 END|heard=2 bad_length=1
two first fragments of one Frag ID|00A8/9D START; 0140/69 START REST|heard=2 units=1 given=1
a middle fragment of the older of two, and the rest of the later|0110/00 START MIDDLE; 0140/69 START REST|heard=2 units=1 given=1
a middle fragment of the older of two, and the end of the later|0110/00 START MIDDLE; 00F0/A3 START END|heard=2 bad_length=1
a middle fragment that passes Total Length, and the end|0170/4E START 300E01 00*13 END|heard=1 delimited=1 bad_length=1
a first fragment that passes its Total Length, and the end|00F0/A3 801301 000F 0800 01005E010203 FIRST8 END|heard=1 delimited=1 bad_length=1
Total Length 30, a label of 6, 18 bytes, and an end of 5|0158/90 801D01 001E 0800 01005E010203 4500001700000000 401100000A000001EF01 700A01 0203 030405 E4E367E5|heard=1 bad_length=1
a wrong CRC-32|0140/69 START 701101 LAST12 4C365E22|heard=1 bad_check=1
a CRC-32 over the PDU alone|0140/69 START 701101 LAST12 E17358EB|heard=1 bad_check=1
the end 256 received frames after the first|00A8/9D START; 255 of 0000/18; 0098/BA REST|heard=257 units=1 given=1
the end 257 received frames after the first, and a first anew|00A8/9D START; 256 of 0000/18; 0098/BA REST; 0140/69 START REST|heard=259 units=1 delimited=1 given=1
the end after 400 frames of others and refused ones|00A8/9D START; 300 of 5007 0000 0000 00 0000 04; 100 of 0000/19; 0098/BA REST|unreadable=100 other=300 heard=2 units=1 given=1";

/// A datagram in fragments is given once, where all of it is there; what is lost or damaged is counted.
#[test]
fn fragments_are_those_after_the_latest_first(rt: HostRuntime) -> Result<(), Fail> {
    all_come(rt.alloc(), &IN_300, FRAGMENTS)
}
