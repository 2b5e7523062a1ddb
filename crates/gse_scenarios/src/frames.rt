//! Headers of baseband frames (EN 302 307-1 clause 5.1.6): which frames are refused, which are of another input stream, and which are read.
//!
//! Name, frames and numbers, as `made` reads them.
use crate::made::{IN_300, all_come};
use std::test::Fail;

/// The CRC-8 of zeros is right, and the kind of the frame another. Profile: a single input stream counts as ISI 0.
const FRAMES: &str = "a frame of zeros|00*10|unreadable=1
a frame of bytes FF|FF*300|unreadable=1
a wrong CRC-8|00F0/A2 WHOLE|unreadable=1
a transport stream|D000 0000 00F0 00 0000 F2 WHOLE|unreadable=1
a generic packetized stream|1000 0000 00F0 00 0000 61 WHOLE|unreadable=1
DFL 2321 and 2328, of 2320 bits|0911/DE; 0918/CC|unreadable=2
DFL 2320, and zeros|0910/9B|heard=1
no data|0000/18|heard=1
another input stream|5007 0000 00F0 00 0000 BF WHOLE|other=1
a single input stream, whose second byte is free|7007 0000 00F0 00 0000 DE WHOLE|heard=1 units=1 given=1
other values of UPL, SYNC and SYNCD|5000 05E0 00F0 47 0010 9A WHOLE|heard=1 units=1 given=1";

/// Each frame that is refused, or of another ISI, is counted, and the next one is read.
#[test]
fn headers_are_read_or_refused(rt: HostRuntime) -> Result<(), Fail> {
    all_come(rt.alloc(), &IN_300, FRAMES)
}
