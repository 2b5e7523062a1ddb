//! The datagrams of a frame -> the columns of its application data table, one at a time -> the columns of its RS data table.
ghost use Rattle.std.specs.Prelude.{◌≡◌, ◌++◌, ◌+◌, ◌-◌, ◌*◌, ◌<◌, ◌≤◌, length, take, drop};
ghost use Rattle.wire_spec.specs.Lists.{joined};
ghost use Rattle.section_spec.specs.Mpe.{IsRows};
ghost use Rattle.fec_frame_spec.specs.Frame.{data_table};
ghost use Rattle.fec_frame_spec.specs.Sender.{parity_table};
ghost use Rattle.fec_units.specs.Parts.{IsWithin, bytes_left, padded, part_of};
ghost use Rattle.fec_sent_law.specs.Frames.{AreSendable};

use ip_datagram::DatagramList;
use rs_encode::Columns;

/// Columns of an application data table (EN 301 192 clause 9).
pub(crate) const DATA_COLUMNS: usize = 191;

/// A byte of the datagrams of a list.
#[derive(Clone, Copy)]
struct Place {
    /// Which datagram it is of.
    datagram: usize,
    /// Which of its bytes it is.
    out: usize,
}

/// Copies bytes from a place on to the front of `into`: up to the end of their datagram, or as many as there is room for. Moves on, and
/// answers how many.
fn copy_piece(list: &DatagramList, end: usize, at: &mut Place, into: &mut [u8]) -> usize
    requires datagrams { AreSendable list.now }
    requires within { IsWithin list.now end at.old }
    requires some { at.old.datagram < end }
    requires room { 0 < length into.old }
    ensures within { IsWithin list.now end at.new }
    ensures some { 0 < result }
    ensures room { result ≤ length into.old }
    ensures read { bytes_left list.now end at.old ≡ take result into.new ++ bytes_left list.now end at.new }
{
    let datagram = list.at(at.datagram);
    let piece = &datagram[at.out..];
    let count = piece.len().min(into.len());
    into[..count].copy_from_slice(&piece[..count]);
    at.out += count;
    if at.out == datagram.len() {
        at.datagram += 1;
        at.out = 0;
    }
    count
}

/// Fills a column with the bytes from a place on, and with zeros where there are no more; moves on.
fn fill_column(list: &DatagramList, end: usize, at: &mut Place, into: &mut [u8])
    requires datagrams { AreSendable list.now }
    requires within { IsWithin list.now end at.old }
    ensures within { IsWithin list.now end at.new }
    ensures filled { into.new ≡ padded (length into.old) (bytes_left list.now end at.old) }
    ensures rest { bytes_left list.now end at.new ≡ drop (length into.old) (bytes_left list.now end at.old) }
{
    let mut done = 0;
    while done < into.len() && at.datagram < end {
        done += copy_piece(list, end, at, &mut into[done..]);
    }
    into[done..].fill(0);
}

/// The columns of the RS data table, one after another, of the frame with the datagrams from one place of the list to another.
///
/// `column` is for one column of the application data table at a time.
pub(crate) fn encode_frame<'p>(
    list: &DatagramList,
    from: usize,
    end: usize,
    rows: usize,
    column: &mut [u8],
    parity: &'p mut [u8],
) -> &'p [u8]
    requires datagrams { AreSendable list.now }
    requires from { from < end }
    requires end { end ≤ length list.now }
    requires fits { length (joined (part_of from end list.now)) ≤ 191 * rows }
    requires rows { IsRows rows }
    requires column { length column.old ≡ rows }
    requires parity { length parity.old ≡ 64 * rows }
    ensures written { result.now ≡ parity_table rows (data_table rows (part_of from end list.now)) }
{
    let mut columns = Columns::over(rows, parity);
    let mut at = Place {
        datagram: from,
        out: 0,
    };
    for number in 0..DATA_COLUMNS {
        fill_column(list, end, &mut at, column);
        columns.push(column);
    }
    columns.finish()
}
