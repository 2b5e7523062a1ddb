//! The datagrams of a burst -> its units, in a buffer whose memory is taken before.
ghost use Rattle.std.specs.Prelude.{◌≡◌, ℕ, ◌++◌, ◌+◌, ◌-◌, ◌*◌, ◌^◌, ◌<◌, ◌≤◌, length, slice_index, All};
ghost use Rattle.wire_spec.specs.Lists.{joined};
ghost use Rattle.section_spec.specs.Mpe.{IsRows};
ghost use Rattle.unit_stream.specs.Packers.{units_of};
ghost use Rattle.fec_units.specs.Bursts.{units_by_packet};
ghost use Rattle.fec_units.specs.Parts.{part_of};
ghost use Rattle.fec_units.specs.Timed.{AreHeld};
ghost use Rattle.fec_sent_law.specs.Frames.{AreSendable};

use crate::burst_sections::{put_burst_columns, put_burst_data};
use crate::columns::{DATA_COLUMNS, encode_frame};
use crate::frames::{PARITY_COLUMNS, Shape, data_bytes};
use crate::unit_buffer::UnitBuffer;
use byte_slices::zeros;
use fec_frame::padding_of;
use ip_datagram::DatagramList;
use mpe_section::fec_size;
use section_codec::SectionForm;
use std::alloc::{AllocError as OutOfMemory, Global};
use std::marker::Model;
use unit_stream::UnitForm;

/// Bytes of the shortest datagram: an IPv4 header (RFC 791 section 3.1).
const SHORTEST: usize = 20;

/// Bytes of a section besides its datagram (EN 301 192 clause 7).
const AROUND: usize = 16;

/// Puts the units of the burst with the datagrams from one place of the list to another after the others, each with the delta_t of the packet
/// in which it begins.
///
/// `deltas` has delta_t of each packet; `column`, `parity` and `section` are for one column, one RS data table and one section at a time.
fn put_burst(
    units: &mut UnitBuffer,
    list: &DatagramList,
    from: usize,
    end: usize,
    shape: Shape,
    deltas: &[u16],
    column: &mut [u8],
    parity: &mut [u8],
    section: &mut [u8],
)
    requires datagrams { AreSendable list.now }
    requires from { from < end }
    requires end { end ≤ length list.now }
    requires fits { length (joined (part_of from end list.now)) ≤ 191 * shape.rows }
    requires rows { IsRows shape.rows }
    requires columns { shape.columns ≤ 64 }
    requires deltas { All (λ (delta : ℕ). delta < 2 ^ 12) deltas.now }
    requires column { length column.old ≡ shape.rows }
    requires parity { length parity.old ≡ 64 * shape.rows }
    requires section { length section.old ≡ 4096 }
    requires held { AreHeld units.old.bytes units.old.ends }
    requires bytes { length units.old.bytes + (length (joined (part_of from end list.now)) + 16 * (end - from)) + shape.columns * (shape.rows + 16) ≤ units.old.bytes_most }
    requires units { length units.old.ends + (end - from) + shape.columns ≤ units.old.units_most }
    ensures written { units_of units.new.bytes units.new.ends ≡ units_of units.old.bytes units.old.ends
        ++ units_by_packet shape.rows shape.columns shape.unicast (λ n. slice_index deltas.now n) (part_of from end list.now) }
    ensures held { AreHeld units.new.bytes units.new.ends }
    ensures bytes_most { units.new.bytes_most ≡ units.old.bytes_most }
    ensures units_most { units.new.units_most ≡ units.old.units_most }
{
    let rows = usize::from(shape.rows);
    let padding = padding_of(shape.rows, data_bytes(list, from, end));
    let parity = encode_frame(list, from, end, rows, column, parity);
    let next = put_burst_data(units, list, from, end, shape.unicast, deltas, section);
    put_burst_columns(
        units,
        next,
        parity,
        rows,
        shape.columns,
        padding,
        deltas,
        section,
    );
}

/// The units of one burst, with the work space for making them.
#[derive(Drop)]
pub struct BurstBuffer {
    rows: u16,
    columns: u8,
    units: UnitBuffer,
    /// One column of an application data table.
    column: Vec<u8>,
    /// One RS data table.
    parity: Vec<u8>,
    /// One section.
    section: Vec<u8>,
}

impl Model for BurstBuffer {
    ghost use Rattle.fec_units.specs.Bursts.{HeldUnits};
    ghost use Rattle.fec_units.specs.Room.{HasRoom};

    ghost Value = { HeldUnits };

    ghost view = { λ b. record { rows = b.rows; columns = b.columns; bytes = b.units.bytes; ends = b.units.ends } };

    ghost invariant = { λ b. HasRoom b.rows b.columns b.units b.column.items b.parity.items b.section.items };
}

impl BurstBuffer {
    ghost use Rattle.std.specs.Prelude.{◌≡◌, ℕ, ◌*◌, ◌^◌, ◌<◌, ◌≤◌, [], length, All, IfOk};
    ghost use Rattle.wire_spec.specs.Lists.{joined};
    ghost use Rattle.section_spec.specs.Mpe.{IsRows};
    ghost use Rattle.stream_spec.specs.Units.{burst_size};
    ghost use Rattle.fec_units.specs.Parts.{part_of};
    ghost use Rattle.fec_units.specs.Bursts.{AreFirst, HoldsUnits, units_by_packet};
    ghost use Rattle.fec_sent_law.specs.Frames.{AreSendable};

    /// A buffer with room for any burst of frames with so many rows, 256, 512, 768 or 1,024, of whose RS data table 1 to 64 columns are
    /// sent. It holds no units. No memory is taken after this.
    pub fn new(alloc: Global, rows: u16, columns: u8) -> Result<BurstBuffer, OutOfMemory>
        requires rows { IsRows rows }
        requires columns { (1 ≤ columns) × (columns ≤ 64) }
        ensures none { IfOk result (λ made. HoldsUnits made []) }
        ensures rows { IfOk result (λ made. made.rows ≡ rows) }
        ensures columns { IfOk result (λ made. made.columns ≡ columns) }
    {
        let height = usize::from(rows);
        let width = usize::from(columns);
        let table = DATA_COLUMNS * height;
        let datagrams = table / SHORTEST;
        let bytes = table + AROUND * datagrams + width * fec_size(height);
        let units = UnitBuffer::with_room(alloc, bytes, datagrams + width)?;
        let column = zeros(alloc, height)?;
        let parity = zeros(alloc, PARITY_COLUMNS * height)?;
        let section = zeros(alloc, SectionForm::LONGEST)?;
        Ok(BurstBuffer {
            rows,
            columns,
            units,
            column,
            parity,
            section,
        })
    }

    /// Makes the units of the burst with the datagrams from one place of the list to another, in place of those that it held.
    ///
    /// `deltas` has delta_t of each packet of the burst, below 4,096; where it has fewer, that of the others is 0. A section has that of the
    /// packet with its first byte. A datagram to a group goes to the group's address, others to `unicast`.
    pub fn make(
        &mut self,
        list: &DatagramList,
        from: usize,
        end: usize,
        unicast: [u8; 6],
        deltas: &[u16],
    )
        requires datagrams { AreSendable list.now }
        requires from { from < end }
        requires end { end ≤ length list.now }
        requires fits { length (joined (part_of from end list.now)) ≤ 191 * self.old.rows }
        requires deltas { All (λ (delta : ℕ). delta < 2 ^ 12) deltas.now }
        ensures made { (delta : ℕ → ℕ) → AreFirst (burst_size self.old.rows self.old.columns (part_of from end list.now)) delta deltas.now
            → HoldsUnits self.new (units_by_packet self.old.rows self.old.columns unicast delta (part_of from end list.now)) }
        ensures rows { self.new.rows ≡ self.old.rows }
        ensures columns { self.new.columns ≡ self.old.columns }
    {
        let shape = Shape {
            rows: self.rows,
            columns: self.columns,
            unicast,
        };
        self.units.clear();
        put_burst(
            &mut self.units,
            list,
            from,
            end,
            shape,
            deltas,
            &mut self.column,
            &mut self.parity,
            &mut self.section,
        );
    }

    /// The units, one after another.
    pub fn bytes(&self) -> &[u8]
        ensures read { result.now ≡ self.now.bytes }
    {
        self.units.bytes()
    }

    /// Where each of them ends.
    pub fn ends(&self) -> &[usize]
        ensures read { result.now ≡ self.now.ends }
    {
        self.units.ends()
    }
}
