//! The datagrams of a service -> where the units of its frames end, so that they may be packetized before they are made.
ghost use Rattle.std.specs.Prelude.{◌≡◌, ◌++◌, ◌+◌, ◌-◌, ◌*◌, ◌^◌, ◌<◌, ◌≤◌, length, vec_len, vec_capacity, IfOk};
ghost use Rattle.section_spec.specs.Mpe.{IsRows};
ghost use Rattle.fec_units.specs.Ends.{AreFrameEnds, after_sizes, ends_of_sizes};
ghost use Rattle.fec_units.specs.Packets.{column_sizes, data_sizes};
ghost use Rattle.fec_units.specs.Parts.{part_of};
ghost use Rattle.stream_spec.specs.Units.{datagrams_by_frame};
ghost use Rattle.fec_sent_law.specs.Frames.{AreSendable};

use crate::frames::{frame_end, frames_in};
use ip_datagram::DatagramList;
use mpe_section::{fec_size, mpe_size};
use std::alloc::{AllocError as OutOfMemory, Global};

/// The units of a service's frames, as a packer takes them that does not write their bytes.
#[derive(Drop)]
pub struct FrameUnits {
    /// Where each of them ends among the bytes of all of them.
    pub ends: Vec<usize>,
    /// How many frames they are of.
    pub frames: u32,
}

/// Adds the ends of the sections of the datagrams from one place of the list to another, the first of which begins at a byte; answers where
/// the last ends. There is room for them.
fn put_data_ends(
    ends: &mut Vec<usize>,
    list: &DatagramList,
    from: usize,
    end: usize,
    start: usize,
) -> usize
    requires datagrams { AreSendable list.now }
    requires from { from < end }
    requires end { end ≤ length list.now }
    requires few { start + 4096 * (end - from) < 2 ^ 63 }
    requires room { vec_len ends.old + (end - from) ≤ vec_capacity ends.old }
    ensures put { ends.new.items ≡ ends.old.items ++ ends_of_sizes start (data_sizes (part_of from end list.now)) }
    ensures after { result ≡ after_sizes start (data_sizes (part_of from end list.now)) }
    ensures most { result ≤ start + 4096 * (end - from) }
    ensures size { vec_len ends.new ≡ vec_len ends.old + (end - from) }
    ensures room { vec_capacity ends.new ≡ vec_capacity ends.old }
{
    let mut at = start;
    for place in from..end {
        at += mpe_size(list.at(place).len());
        ends.push_reserved(at);
    }
    at
}

/// Adds the ends of the sections of so many columns, the first of which begins at a byte; answers where the last ends. There is room for them.
fn put_column_ends(ends: &mut Vec<usize>, rows: u16, columns: u8, start: usize) -> usize
    requires rows { IsRows rows }
    requires columns { columns ≤ 64 }
    requires few { start < 2 ^ 62 }
    requires room { vec_len ends.old + columns ≤ vec_capacity ends.old }
    ensures put { ends.new.items ≡ ends.old.items ++ ends_of_sizes start (column_sizes rows columns) }
    ensures after { result ≡ after_sizes start (column_sizes rows columns) }
    ensures most { result ≤ start + 66560 }
    ensures size { vec_len ends.new ≡ vec_len ends.old + columns }
    ensures room { vec_capacity ends.new ≡ vec_capacity ends.old }
{
    let size = fec_size(usize::from(rows));
    let mut at = start;
    for number in 0..columns {
        at += size;
        ends.push_reserved(at);
    }
    at
}

/// Where the units of the frames of a service's datagrams end, in the order in which they are sent.
///
/// A frame takes as many datagrams as its application data table of 191 columns has room for. It has 256, 512, 768 or 1,024 rows, and 1 to
/// 64 columns of its RS data table are sent. Each datagram is an IP datagram of 4,080 bytes at most. The list has room for no more ends.
pub fn unit_ends(
    alloc: Global,
    list: &DatagramList,
    rows: u16,
    columns: u8,
) -> Result<FrameUnits, OutOfMemory>
    requires rows { IsRows rows }
    requires columns { (1 ≤ columns) × (columns ≤ 64) }
    requires datagrams { AreSendable list.now }
    requires few { length list.now < 2 ^ 32 }
    ensures ends { IfOk result (λ made. AreFrameEnds rows columns list.now made.ends.items) }
    ensures frames { IfOk result (λ made. made.frames ≡ length (datagrams_by_frame rows list.now)) }
    ensures exact { IfOk result (λ made. vec_capacity made.ends ≡ vec_len made.ends) }
{
    let frames = frames_in(list, rows);
    let room = list.len() + frames as usize * usize::from(columns);
    let mut ends = Vec::with_capacity(alloc, room)?;
    let mut from = 0;
    let mut at = 0;
    while from < list.len() {
        let end = frame_end(list, rows, from);
        at = put_data_ends(&mut ends, list, from, end, at);
        at = put_column_ends(&mut ends, rows, columns, at);
        from = end;
    }
    Ok(FrameUnits { ends, frames })
}
