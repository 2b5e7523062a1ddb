//! 800 bytes, and then 40 that are urgent, in frames of 300: what goes out, and what comes of it.
//!
//! The urgent datagram is received first. An independent program worked out each CRC-8 and the CRC-32.
use crate::harmed::{Sent, all_come};
use crate::made::put_frame;
use crate::report::{Form, goes_out};
use std::alloc::Global;
use std::test::Fail;
use test_recordings::{Datagram, datagram_of};

const BOTH: &str = "carrier = \"bb\"
frame_bytes = 300
[[service]]
name = \"both\"
kind = \"gse\"
isi = 1
rules = [\"239.2.0.0/16\", \"239.3.0.0/16\"]
urgent = [\"239.3.0.0/16\", \"239.5.0.0/16\"]
";

/// A service without urgent rules.
const OTHER: &str = "[[service]]
name = \"other\"
kind = \"gse\"
isi = 2
rules = [\"239.4.0.0/16\"]
";

const FORM: Form = Form {
    settings: &[BOTH],
    size: 300,
};

const FORM_OF_TWO: Form = Form {
    settings: &[BOTH, OTHER],
    size: 300,
};

const FILE: Datagram = Datagram {
    size: 800,
    to: [239, 2, 0, 1],
};

const CALL: Datagram = Datagram {
    size: 40,
    to: [239, 3, 0, 1],
};

/// A datagram that an urgent rule matches, and no other.
const STRAY: Datagram = Datagram {
    size: 40,
    to: [239, 5, 0, 1],
};

/// A datagram of the other service, which a frame has alone.
const PAGE: Datagram = Datagram {
    size: 280,
    to: [239, 4, 0, 1],
};

const PAGE_HEAD: [u8; 10] = [0x50, 2, 0, 0, 9, 0x10, 0, 0, 0, 0x1D];

const PAGE_COMPLETE: [u8; 10] = [0xC1, 0x20, 8, 0, 1, 0, 0x5E, 4, 0, 1];

/// S, Frag ID 0, Total Length 808, Protocol Type and label.
const START: [u8; 13] = [0x81, 0x20, 0, 3, 0x28, 8, 0, 1, 0, 0x5E, 2, 0, 1];

/// S and E, Protocol Type and label.
const COMPLETE: [u8; 10] = [0xC0, 0x30, 8, 0, 1, 0, 0x5E, 3, 0, 1];

/// Middle fragments with 237 and 285 bytes, and a last one with one.
const MIDDLE: [u8; 3] = [0x30, 0xEE, 0];

const NEXT: [u8; 3] = [0x31, 0x1E, 0];

const LAST: [u8; 3] = [0x70, 0x06, 0];

/// The CRC-32 of the long datagram.
const SUM: [u8; 4] = [0xE2, 0xF0, 0xE6, 0x23];

/// Headers with DFL 2320, 2304 and 64 bits.
const FULL: [u8; 10] = [0x50, 1, 0, 0, 9, 0x10, 0, 0, 0, 0xD8];

const SHORTER: [u8; 10] = [0x50, 1, 0, 0, 9, 0, 0, 0, 0, 0x76];

const SHORTEST: [u8; 10] = [0x50, 1, 0, 0, 0, 0x40, 0, 0, 0, 0x9C];

/// Appends the four frames with the bytes of both datagrams.
fn put_frames(frames: &mut Vec<u8>, file: &[u8], call: &[u8]) -> Result<(), Fail> {
    let first = file.get(..277).ok_or("no such bytes")?;
    let second = file.get(277..514).ok_or("no such bytes")?;
    let third = file.get(514..799).ok_or("no such bytes")?;
    let last = file.get(799..).ok_or("no such bytes")?;
    put_frame(frames, &[&FULL, &START, first], FORM.size)?;
    put_frame(
        frames,
        &[&FULL, &COMPLETE, call, &MIDDLE, second],
        FORM.size,
    )?;
    put_frame(frames, &[&SHORTER, &NEXT, third], FORM.size)?;
    put_frame(frames, &[&SHORTEST, &LAST, last, &SUM], FORM.size)?;
    Ok(())
}

/// The four frames.
fn stream(alloc: Global) -> Result<Vec<u8>, Fail> {
    let file = datagram_of(alloc, &FILE)?;
    let call = datagram_of(alloc, &CALL)?;
    let mut frames = Vec::new(alloc);
    put_frames(&mut frames, &file, &call)?;
    Ok(frames)
}

/// What happens to the frames, in the columns of `harmed`: the datagram of 800 bytes is 0, the urgent one is 1.
const LOSSES: &str = "nothing||records=4|heard=4 units=2|1 0
the frame with the urgent datagram|1|records=3|heard=3 bad_length=1|
the first frame|0|records=3|heard=3 units=1 delimited=3|1";

const SENT: [Sent; 1] = [Sent {
    name: "both",
    file: "both.pcap",
    datagrams: &[FILE, CALL],
}];

/// The urgent datagram is whole in the second frame, before the rest of the other.
#[test]
fn an_urgent_datagram_does_not_wait_for_the_rest(rt: HostRuntime) -> Result<(), Fail> {
    let alloc = rt.alloc();
    let stream = stream(alloc)?;
    goes_out(alloc, "800 and 40 bytes", &FORM, &[FILE, CALL], 0, &stream)
}

/// The frames of two services in rotation: the second has one frame.
fn stream_of_two(alloc: Global) -> Result<Vec<u8>, Fail> {
    let both = stream(alloc)?;
    let page = datagram_of(alloc, &PAGE)?;
    let first = both.get(..FORM.size).ok_or("no frame")?;
    let others = both.get(FORM.size..).ok_or("no frame")?;
    let mut frames = Vec::from_slice(alloc, first)?;
    put_frame(&mut frames, &[&PAGE_HEAD, &PAGE_COMPLETE, &page], FORM.size)?;
    frames.extend_from_slice(others)?;
    Ok(frames)
}

/// The frames of a service with two classes and of one without go out in rotation. An urgent rule brings no datagram.
#[test]
fn a_service_with_classes_goes_out_beside_another(rt: HostRuntime) -> Result<(), Fail> {
    let alloc = rt.alloc();
    let stream = stream_of_two(alloc)?;
    let datagrams = [FILE, STRAY, CALL, PAGE];
    goes_out(alloc, "two services", &FORM_OF_TWO, &datagrams, 1, &stream)
}

/// Each of the two is given where all its frames came, the urgent one first.
#[test]
fn both_classes_are_received_over_losses(rt: HostRuntime) -> Result<(), Fail> {
    let stream = stream(rt.alloc())?;
    all_come(rt.alloc(), &FORM, &stream, &SENT, LOSSES)
}
