//! The datagrams of a service -> its frames without time slicing: which datagrams each of them has.
ghost use Rattle.std.specs.Prelude.{◌≡◌, ◌∷◌, ◌*◌, ◌^◌, ◌<◌, ◌≤◌, length, drop};
ghost use Rattle.wire_spec.specs.Lists.{joined};
ghost use Rattle.section_spec.specs.Mpe.{IsRows};
ghost use Rattle.fec_units.specs.Parts.{part_of};
ghost use Rattle.stream_spec.specs.Units.{datagrams_by_frame};
ghost use Rattle.fec_sent_law.specs.Frames.{AreSendable};

use crate::columns::DATA_COLUMNS;
use ip_datagram::DatagramList;

/// Columns of an RS data table (EN 301 192 clause 9).
pub(crate) const PARITY_COLUMNS: usize = 64;

/// Where the datagrams of a frame end that begins at a place of the list.
///
/// A frame takes as many datagrams as its application data table of 191 columns has room for.
pub fn frame_end(list: &DatagramList, rows: u16, from: usize) -> usize
    requires datagrams { AreSendable list.now }
    requires rows { IsRows rows }
    requires from { from < length list.now }
    ensures some { from < result }
    ensures within { result ≤ length list.now }
    ensures fits { length (joined (part_of from result list.now)) ≤ 191 * rows }
    ensures frame { datagrams_by_frame rows (drop from list.now) ≡ part_of from result list.now ∷ datagrams_by_frame rows (drop result list.now) }
{
    let room = DATA_COLUMNS * usize::from(rows);
    let count = list.len();
    let mut used = list.at(from).len();
    for end in from + 1..count {
        used += list.at(end).len();
        if used > room {
            return end;
        }
    }
    count
}

/// How many frames the datagrams take.
pub(crate) fn frames_in(list: &DatagramList, rows: u16) -> u32
    requires datagrams { AreSendable list.now }
    requires rows { IsRows rows }
    requires few { length list.now < 2 ^ 32 }
    ensures counted { result ≡ length (datagrams_by_frame rows list.now) }
    ensures most { result ≤ length list.now }
{
    let mut frames = 0;
    let mut from = 0;
    while from < list.len() {
        from = frame_end(list, rows, from);
        frames += 1;
    }
    frames
}

/// What all frames of a service have in common.
#[derive(Clone, Copy)]
pub(crate) struct Shape {
    /// Rows.
    pub(crate) rows: u16,
    /// Columns of the RS data table that are sent.
    pub(crate) columns: u8,
    /// The address of the service's own receivers.
    pub(crate) unicast: [u8; 6],
}

/// Bytes of the datagrams from one place of the list to another.
pub(crate) fn data_bytes(list: &DatagramList, from: usize, end: usize) -> usize
    requires datagrams { AreSendable list.now }
    requires from { from < end }
    requires end { end ≤ length list.now }
    requires few { length (joined (part_of from end list.now)) < 2 ^ 32 }
    ensures sum { result ≡ length (joined (part_of from end list.now)) }
{
    let mut size = 0;
    for place in from..end {
        size += list.at(place).len();
    }
    size
}
