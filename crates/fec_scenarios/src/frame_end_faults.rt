//! Sections that stand in no frame, or not in one frame with those before them, and after them a right frame, which is received all
//! the same.
//!
//! Of the right frame, of two datagrams and a column of parity, the second datagram is lost: 20 of its rows lack no byte of the
//! application data table, and 236 lack one, and 63 of the RS data table (EN 301 192 clause 9).
use crate::cast::{Cast, comes};
use crate::made_sections::packets_of;
use std::alloc::Global;
use std::test::Fail;
use test_recordings::settings::FRAMES;

const RECEIVED: Cast = Cast {
    settings: &[FRAMES],
    sizes: "20*10",
    size: 188,
};

/// In the place of harms a case has the sections before the right frame, in the words of `made_sections`. 191 columns have 48,896 bytes.
/// The columns and the other table in the last case end no frame.
const OUTSIDE: &str =
    "nothing||8-9|stream records=3|lecture heard=3 units=2 frames=1 rows_mended=236 datagrams=2
datagrams that pass the table, one of them by a byte|0@48877 1@262143|8-9|stream records=5|lecture heard=5 units=4 unread=2 frames=1 rows_mended=236 datagrams=2
a datagram that ends the table, and no other byte|0@48876|0 8-9|stream records=4|lecture heard=4 units=3 frames=2 rows_mended=236 rows_left=256 datagrams=3
columns with wrong numbers and one too short, and another table, within a frame|0@0 190:5/4 190:64/64 191:0/0 short other 1@20/table|0-1 8-9|stream records=14|lecture heard=14 units=9 unread=5 frames=2 rows_mended=236 datagrams=4";

/// Where padding has a byte of a datagram, the frame of the column alone lacks column 0 and 63 others: its rows are zeros. Where it begins
/// behind the datagram, rows 236 to 255 lack no byte of the application data table. With 189 padding columns columns 0 and 1 are unknown,
/// and 63 others.
const COLUMNS: &str =
    "a column whose padding has a byte of a datagram|0@237 190:0/0|0 8-9|stream records=6|lecture heard=6 units=4 frames=3 rows_mended=492 rows_left=256 datagrams=3
a column whose padding begins behind a datagram|0@236 190:0/0|0 8-9|stream records=6|lecture heard=6 units=4 frames=2 rows_mended=472 datagrams=3
padding_columns that change|190:0/1 189:1/1|8-9|stream records=7|lecture heard=7 units=4 frames=3 rows_mended=492 rows_left=256 datagrams=2
a last_section_number that changes|190:0/1 190:1/2|8-9|stream records=7|lecture heard=7 units=4 frames=3 rows_mended=748 datagrams=2
a section_number that does not rise|190:1/1 190:1/1|8-9|stream records=7|lecture heard=7 units=4 frames=3 rows_mended=748 datagrams=2";

/// In the last two cases the second frame lacks rows 0 to 19 of column 0.
const DATAGRAMS: &str =
    "an address that goes back|0@20 1@39|0-1 8-9|stream records=5|lecture heard=5 units=4 frames=3 rows_mended=236 rows_left=512 datagrams=4
table_boundary in the middle|0@0/table 1@20|0-1 8-9|stream records=5|lecture heard=5 units=4 frames=3 rows_mended=236 rows_left=256 datagrams=4
frame_boundary in the middle|0@0/frame 1@20/table|0-1 8-9|stream records=5|lecture heard=5 units=4 frames=3 rows_mended=236 rows_left=276 datagrams=4
index 4095, and then 0|0@0/4095 1@20/table|0-1 8-9|stream records=5|lecture heard=5 units=4 frames=3 rows_mended=236 rows_left=276 datagrams=4";

/// The packets of sections, and of the right frame after them.
fn recording_of(alloc: Global, sections: &str) -> Result<Vec<u8>, Fail> {
    let sections = format!(in alloc; "{sections} 8@0 right")?;
    packets_of(alloc, &sections, 512)
}

/// Receives the sections of a line and the right frame.
fn right_frame_comes(alloc: Global, line: &str) -> Result<(), Fail> {
    let (name, columns) = line.split_once('|').ok_or("no sections")?;
    let (sections, columns) = columns.split_once('|').ok_or("no datagrams")?;
    let recording = recording_of(alloc, sections)?;
    comes(alloc, name, &RECEIVED, &recording, columns)
}

/// Where a frame ends and the next begins, and which sections stand in none.
#[test]
fn a_right_frame_is_received_after_sections_of_none(rt: HostRuntime) -> Result<(), Fail> {
    for table in [OUTSIDE, COLUMNS, DATAGRAMS] {
        for line in table.lines() {
            right_frame_comes(rt.alloc(), line)?;
        }
    }
    Ok(())
}
