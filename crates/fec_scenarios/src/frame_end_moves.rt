//! A service of frames that moves to another PID: a frame that is under way at the change is closed there.
//!
//! Each of two frames has two datagrams of 100 bytes and four columns of parity: sections of 116 and 272 bytes (EN 301 192 clauses 7.1
//! and 9), 1,320 bytes in 8 packets. Frame 0 is on PID 512 in records 1 to 8, frame 1 on PID 700 in records 101 to 108; the INTs are
//! records 0 and 100, and records 9 to 99 are null packets.
use crate::cast::{Cast, all_come, comes, stream_of};
use crate::made_sections::packets_of;
use std::alloc::Global;
use std::test::Fail;
use test_recordings::joined;
use test_recordings::settings::{FRAMES, INT};

/// From record 3 on on PID 700.
const MOVED: &str = "parity = 4
[[change]]
at = 3
[[change.service]]
name = \"lecture\"
pid = 700
";

const SENT: Cast = Cast {
    settings: &["cycle = 100\n", INT, FRAMES, MOVED],
    sizes: "100*4",
    size: 188,
};

/// In the second case the last column is under way at the change, which drops it without an event. In the third, of both datagrams, three of
/// four columns tell column 0. In the fourth the first datagram is whole in the first packet.
const LOSSES: &str =
    "nothing||0-3|stream records=109 other=91|lecture heard=16 units=12 frames=2 datagrams=4|table units=2|table,version,1|rule,239.1.0.0/16,0
a frame's last packet|8|0-3|stream records=108 other=91|lecture heard=15 units=11 frames=2 datagrams=4|table units=2|table,version,1|rule,239.1.0.0/16,0
a frame's first and last packets|1 8|0-3|stream records=107 other=91|lecture heard=14 units=9 frames=2 rows_mended=256 datagrams=4|table units=2|table,version,1|rule,239.1.0.0/16,0
a frame's packets but the first, and null packets|2-99|0 2-3|stream records=11|lecture heard=9 units=7 frames=2 rows_left=256 datagrams=3|table units=2|table,version,1|rule,239.1.0.0/16,0
the last packet on one PID and the first on the other|8 101|0-3|stream records=107 other=91|lecture heard=14 units=9 frames=2 rows_mended=256 datagrams=4|table units=2|table,version,1|rule,239.1.0.0/16,0";

#[test]
fn a_frame_is_closed_where_its_service_moves(rt: HostRuntime) -> Result<(), Fail> {
    let stream = stream_of(rt.alloc(), &SENT)?;
    all_come(rt.alloc(), &SENT, &stream, LOSSES)
}

/// A record of the stream.
fn record(stream: &[u8], number: usize) -> Result<&[u8], Fail> {
    Ok(stream.chunks(188).nth(number).ok_or("fewer records")?)
}

/// The INTs of a stream, each with packets after it.
fn after_ints(alloc: Global, stream: &[u8], before: &[u8], after: &[u8]) -> Result<Vec<u8>, Fail> {
    let pieces = [record(stream, 0)?, before, record(stream, 100)?, after];
    Ok(joined(alloc, &pieces)?)
}

/// A datagram before the INT of the change, and one after it, of the same index and at the next address, and a right frame.
fn frames_of_one_index(alloc: Global) -> Result<Vec<u8>, Fail> {
    let stream = stream_of(alloc, &SENT)?;
    let before = packets_of(alloc, "0@0", 512)?;
    let after = packets_of(alloc, "1@20/table 8@0 right", 700)?;
    after_ints(alloc, &stream, &before, &after)
}

/// Datagrams of their header alone.
const SMALL: Cast = Cast {
    sizes: "20*10",
    ..SENT
};

/// Two frames of one index, of which the second lacks rows 0 to 19 of column 0, and the right frame: the columns from the third on.
const THREE_FRAMES: &str =
    "0-1 8-9|stream records=7|lecture heard=5 units=4 frames=3 rows_mended=236 rows_left=276 datagrams=4|table units=2|table,version,1|rule,239.1.0.0/16,0";

/// The change ends the frame: a section of the same index after the change is in another frame.
#[test]
fn no_frame_goes_on_over_a_change_of_the_pid(rt: HostRuntime) -> Result<(), Fail> {
    let recording = frames_of_one_index(rt.alloc())?;
    let name = "two frames of one index";
    comes(rt.alloc(), name, &SMALL, &recording, THREE_FRAMES)
}
