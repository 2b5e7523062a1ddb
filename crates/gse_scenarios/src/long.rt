//! A datagram of 800 bytes in three frames of 300, and one of 400 in two: what goes out, and what comes of it.
//!
//! Each is sent by itself, so that both have Frag ID 0.
use crate::harmed::{Sent, all_come};
use crate::made::put_frame;
use crate::report::{Form, goes_out};
use std::alloc::Global;
use std::test::Fail;
use test_recordings::{Datagram, bytes_of, datagram_of};

const IN_300: Form = Form {
    settings: &[
        "carrier = \"bb\"
frame_bytes = 300
[[service]]
name = \"files\"
kind = \"gse\"
isi = 1
rules = [\"239.2.0.0/16\"]
",
    ],
    size: 300,
};

const LONG: Datagram = Datagram {
    size: 800,
    to: [239, 2, 0, 1],
};

const SHORT: Datagram = Datagram {
    size: 400,
    to: [239, 2, 0, 2],
};

/// A frame a line, in three columns with `|` between: its header with DFL and what stands before the datagram's bytes, how many these are,
/// and what stands after them. DFL 2320, 2320 and 1944 bits. The first has S, Frag ID, Total Length 808, Protocol Type and the label, the
/// last E and the CRC-32.
const OF_LONG: &str = "5001 0000 0910 00 0000 D8 812000 0328 0800 01005E020001|277|
5001 0000 0910 00 0000 D8 312000|287|
5001 0000 0798 00 0000 51 70F100|236|E2F0E623";

/// DFL 2320 and 1040 bits, and Total Length 408.
const OF_SHORT: &str = "5001 0000 0910 00 0000 D8 812000 0198 0800 01005E020002|277|
5001 0000 0410 00 0000 52 708000|123|2EA0CD7A";

/// Appends the frame of a line, which takes the next bytes of a datagram, and returns the rest of these.
fn put_line<'a>(
    alloc: Global,
    into: &mut Vec<u8>,
    line: &str,
    rest: &'a [u8],
) -> Result<&'a [u8], Fail> {
    let (before, columns) = line.split_once('|').ok_or("no size")?;
    let (size, after) = columns.split_once('|').ok_or("no end")?;
    let (bytes, rest) = rest.split_at_checked(size.parse()?).ok_or("no such bytes")?;
    let before = bytes_of(alloc, before)?;
    let after = bytes_of(alloc, after)?;
    put_frame(into, &[&before, bytes, &after], IN_300.size)?;
    Ok(rest)
}

/// The frames of a datagram.
fn frames_of(alloc: Global, datagram: &Datagram, lines: &str) -> Result<Vec<u8>, Fail> {
    let datagram = datagram_of(alloc, datagram)?;
    let mut frames = Vec::new(alloc);
    let mut rest: &[u8] = &datagram;
    for line in lines.lines() {
        rest = put_line(alloc, &mut frames, line, rest)?;
    }
    Ok(frames)
}

/// What happens to the five frames, in the columns of `harmed`: the datagram of 800 bytes is 0, that of 400 is 1.
const LOSSES: &str = "nothing||records=5|heard=5 units=2|0-1
the middle of the first|1|records=4|heard=4 units=1 bad_length=1|1
the header of that frame|1@4^8|records=5 unreadable=1|heard=4 units=1 bad_length=1|1
the first|0|records=4|heard=4 units=1 delimited=2|1
the end of the first|2|records=4|heard=4 units=1|1
the end of the first, and the beginning of the second|2-3|records=3|heard=3 bad_length=1|";

const SENT: [Sent; 1] = [Sent {
    name: "files",
    file: "files.pcap",
    datagrams: &[LONG, SHORT],
}];

/// The frames of both datagrams.
fn stream(alloc: Global) -> Result<Vec<u8>, Fail> {
    let mut frames = frames_of(alloc, &LONG, OF_LONG)?;
    frames.extend_from_slice(&frames_of(alloc, &SHORT, OF_SHORT)?)?;
    Ok(frames)
}

/// Compares what goes out of a datagram with its frames.
fn goes_out_in(alloc: Global, case: &str, datagram: &Datagram, lines: &str) -> Result<(), Fail> {
    let frames = frames_of(alloc, datagram, lines)?;
    goes_out(alloc, case, &IN_300, &[*datagram], 0, &frames)
}

/// The frames are those of the packing rules, byte for byte.
#[test]
fn long_datagrams_go_over_several_frames(rt: HostRuntime) -> Result<(), Fail> {
    goes_out_in(rt.alloc(), "800 bytes", &LONG, OF_LONG)?;
    goes_out_in(rt.alloc(), "400 bytes", &SHORT, OF_SHORT)
}

/// A datagram is given where all its frames came, also after another one of its Frag ID.
#[test]
fn long_datagrams_are_received_over_losses(rt: HostRuntime) -> Result<(), Fail> {
    let stream = stream(rt.alloc())?;
    all_come(rt.alloc(), &IN_300, &stream, &SENT, LOSSES)
}
