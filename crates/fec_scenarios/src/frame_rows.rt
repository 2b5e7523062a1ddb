//! Sections of one frame of 256 rows are damaged: which rows are corrected, and which datagrams are given.
//!
//! Datagrams of 256 bytes have a column each (EN 301 192 clause 9). A row is corrected where at most 64 of its 255 bytes are unknown.
use crate::cast::{Cast, comes, stream_of};
use std::alloc::Global;
use std::test::Fail;
use test_recordings::settings::FRAMES;
use test_recordings::{Harm, damaged, numbers_in};

/// In the place of harms a case has how many columns of parity are sent of 64, the sizes of the datagrams, and which sections are damaged:
/// those of the datagrams come first, then those of the columns.
///
/// In the first case 64 columns are unknown, and what follows them is padding; in the second rows 0 to 19 lack the byte of a datagram of 20
/// bytes as well. In the last one table_boundary tells that zeros follow the datagram.
const CASES: &str =
    "all 64 datagrams|64|256*64|0-63|0-63|stream records=190|lecture heard=190 units=64 bad_check=64 frames=1 rows_mended=256 datagrams=64
all but the last of 66 datagrams|64|256*64 20*2|0-64|65|stream records=191|lecture heard=191 units=65 bad_check=65 frames=1 rows_mended=236 rows_left=20 datagrams=1
the first 16 of 20 datagrams|16|256*20|0-15|0-19|stream records=54|lecture heard=54 units=20 bad_check=16 frames=1 rows_mended=256 datagrams=20
the first 17 of 20 datagrams|16|256*20|0-16|17-19|stream records=54|lecture heard=54 units=19 bad_check=17 frames=1 rows_left=256 datagrams=3
the tenth datagram|64|256*10|9|0-9|stream records=110|lecture heard=110 units=73 bad_check=1 frames=1 rows_mended=256 datagrams=10
the tenth datagram, and all parity|64|256*10|9-73|0-8|stream records=110|lecture heard=110 units=9 bad_check=65 frames=1 rows_left=256 datagrams=9
all but one column of parity|64|20|0 2-64|0|stream records=96|lecture heard=96 units=1 bad_check=64 frames=1 rows_mended=256 datagrams=1
all parity|64|20|1-64|0|stream records=96|lecture heard=96 units=1 bad_check=64 frames=1 datagrams=1";

/// How many bytes a section has that begins at this place of a packet: its section_length and 3 (ISO/IEC 13818-1 clause 2.4.4). One
/// whose section_length is in the next packet goes on there.
fn size_at(packet: &[u8], place: usize) -> usize {
    match packet.get(place..) {
        Some([_, high, low, ..]) => {
            let length = u16::from_be_bytes([*high & 0x0F, *low]);
            usize::from(length).saturating_add(3)
        }
        _ => 188,
    }
}

/// Appends where sections begin in a packet of the service: the pointer leads to the first, its size to the next, up to bytes FF.
fn put_starts(into: &mut Vec<(usize, usize)>, record: usize, packet: &[u8]) -> Result<(), Fail> {
    let [_, flags, _, _, pointer, ..] = packet else {
        return Ok(());
    };
    if *flags & 0x40 == 0 {
        return Ok(());
    }
    let mut place = 5 + usize::from(*pointer);
    for _ in 0..188u8 {
        match packet.get(place) {
            None | Some(0xFF) => return Ok(()),
            Some(_) => into.push((record, place))?,
        }
        place = place.saturating_add(size_at(packet, place));
    }
    Ok(())
}

/// Flips a bit of the first byte of each section with these numbers: its CRC_32 then differs, and no other section is damaged.
fn flips_of(alloc: Global, stream: &[u8], sections: &[u16]) -> Result<Vec<Harm>, Fail> {
    let mut starts: Vec<(usize, usize)> = Vec::new(alloc);
    for (record, packet) in stream.chunks(188).enumerate() {
        put_starts(&mut starts, record, packet)?;
    }
    let mut harms = Vec::new(alloc);
    for number in sections {
        let (record, place) = *starts.get(usize::from(*number)).ok_or("no such section")?;
        harms.push(Harm::Flip {
            record,
            place,
            bits: 1,
        })?;
    }
    Ok(harms)
}

/// The stream of the frame, of which sections are damaged.
fn recording_of(alloc: Global, cast: &Cast<'_>, sections: &str) -> Result<Vec<u8>, Fail> {
    let stream = stream_of(alloc, cast)?;
    let sections = numbers_in(alloc, sections)?;
    let harms = flips_of(alloc, &stream, &sections)?;
    Ok(damaged(alloc, &stream, cast.size, &harms)?)
}

/// Sends the frame of a line, damages its sections, and receives it.
fn frame_comes(alloc: Global, line: &str) -> Result<(), Fail> {
    let (name, columns) = line.split_once('|').ok_or("no parity")?;
    let (parity, columns) = columns.split_once('|').ok_or("no sizes")?;
    let (sizes, columns) = columns.split_once('|').ok_or("no sections")?;
    let (sections, columns) = columns.split_once('|').ok_or("no datagrams")?;
    let settings = format!(in alloc; "{FRAMES}parity = {parity}\n")?;
    let cast = Cast {
        settings: &[&settings],
        sizes,
        size: 188,
    };
    let recording = recording_of(alloc, &cast, sections)?;
    comes(alloc, name, &cast, &recording, columns)
}

/// Columns of parity that were not sent are unknown; padding columns are known where a column of parity came.
#[test]
fn rows_with_sixty_four_unknown_bytes_are_corrected(rt: HostRuntime) -> Result<(), Fail> {
    for line in CASES.lines() {
        frame_comes(rt.alloc(), line)?;
    }
    Ok(())
}
