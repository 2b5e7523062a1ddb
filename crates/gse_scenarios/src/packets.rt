//! GSE packets (TS 102 606-1 clause 4.2) and their labels: lengths, padding, re-use, filters.
//!
//! Name, frames and numbers, as `made` reads them.
use crate::made::{FILTERED, IN_300, all_come};
use std::test::Fail;

/// Profile: a single last byte is cut, or padding where its upper four bits are 0. Where a first fragment re-uses a label, Total Length and
/// CRC-32 leave it out.
const PACKETS: &str = "GSE Length 4095 in 100 bytes|0320/9E CFFF 00*98|heard=1 bad_length=1
a single byte of a packet|00F8/F4 WHOLE C0|heard=1 units=1 bad_length=1 given=1
a single byte of padding|00F8/F4 WHOLE 0F|heard=1 units=1 given=1
a packet after padding|0100/AE 0000 WHOLE|heard=1
a complete packet without room for its label, and one more|0138/DE C007 0800 01005E0102 WHOLE|heard=1 bad_length=1
a first fragment without room for its label|0060/56 800A01 001C 0800 01005E0102|heard=1 bad_length=1
a middle fragment without a Frag ID|0100/AE 3000 WHOLE|heard=1 bad_length=1
a last fragment without room for its CRC-32|0120/27 700401 000000 WHOLE|heard=1 bad_length=1
a label, and its re-use|01B0/D2 WHOLE AGAIN|heard=1 units=2 given=2
a label re-used first, and the next packet|01B0/D2 AGAIN WHOLE|heard=1 units=1 bad_length=1 given=1
a label re-used first in a packet that is short too|0108/F9 F001 08 WHOLE|heard=1 units=1 bad_length=1 given=1
a label of the frame before|00F0/A3 WHOLE; 00C0/84 AGAIN|heard=2 units=1 bad_length=1 given=1
broadcast, and its re-use|0180/F5 FOR_ALL AGAIN|heard=1 units=2 given=2
a label of three bytes, and its re-use|0198/0C FOR_THREE AGAIN|heard=1 units=2 given=2
a label of a first fragment, re-used|0168/B7 START AGAIN|heard=1 units=1 given=1
a label that a first fragment re-uses|0200/A1 WHOLE B00D01 0016 0800 FIRST8 701101 LAST12 A7C1F6AB|heard=1 units=2 given=2";

/// With a filter. The third packet of the first case has no datagram, and the fourth re-uses its label of bytes FF.
const FILTERS: &str =
    "labels that a filter wants|02C0/3D WHOLE FOR_ALL C008 0800 FFFFFFFFFFFF AGAIN|heard=1 units=4 unread=1 given=3
labels that a filter does not want|0348/87 FOR_OTHER AGAIN FOR_THREE AGAIN|heard=1 units=4 filtered=4
a PDU without a datagram, for others|0070/F8 C00C 0806 020000000001 00000000|heard=1 units=1 unread=1";

/// Each packet that is refused is counted, each label is that of its packet, and the next good packet is read.
#[test]
fn packets_are_read_or_refused(rt: HostRuntime) -> Result<(), Fail> {
    all_come(rt.alloc(), &IN_300, PACKETS)?;
    all_come(rt.alloc(), &FILTERED, FILTERS)
}
