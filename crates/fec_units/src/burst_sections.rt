//! The datagrams of a burst and the columns of its RS data table -> its sections, as units: each with the delta_t of the packet in which it
//! begins.
ghost use Rattle.std.specs.Prelude.{◌≡◌, ℕ, ◌++◌, ◌+◌, ◌-◌, ◌*◌, ◌^◌, ◌<◌, ◌≤◌, length, slice_index, All};
ghost use Rattle.wire_spec.specs.Datagram.{IsDatagram};
ghost use Rattle.wire_spec.specs.Lists.{joined};
ghost use Rattle.section_spec.specs.Mpe.{IsRows};
ghost use Rattle.unit_stream.specs.Packers.{units_of};
ghost use Rattle.stream_spec.specs.Units.{mac_for};
ghost use Rattle.fec_units.specs.Packets.{after_sections, data_sizes, first_section};
ghost use Rattle.fec_units.specs.Parts.{part_of};
ghost use Rattle.fec_units.specs.Timed.{AreHeld, timed_columns, timed_data};
ghost use Rattle.fec_sent_law.specs.Frames.{AreSendable};

use crate::packets::{NextSection, first};
use crate::unit_buffer::UnitBuffer;
use addr_rules::mac_of;
use ip_datagram::{DatagramList, destination};
use mpe_section::{Fec, RealTime, write_fec, write_mpe};

/// The address of the receivers that a datagram is for, where the service's own have this one.
fn receivers_of(datagram: &[u8], unicast: [u8; 6]) -> [u8; 6]
    requires datagram { IsDatagram datagram.now }
    ensures read { result ≡ mac_for unicast datagram.now }
{
    mac_of(&destination(datagram), unicast)
}

/// delta_t of a packet: 0 past the end of the list.
fn delta_of(deltas: &[u16], packet: usize) -> u16
    requires deltas { All (λ (delta : ℕ). delta < 2 ^ 12) deltas.now }
    ensures read { result ≡ slice_index deltas.now packet }
    ensures below { result < 2 ^ 12 }
{
    if packet < deltas.len() {
        deltas[packet]
    } else {
        0
    }
}

/// Puts the sections of the datagrams from one place of the list to another after the units; they are the first of a burst. Answers where the
/// next section begins.
///
/// `deltas` has delta_t of each packet, and `work` is for one section.
pub(crate) fn put_burst_data(
    units: &mut UnitBuffer,
    list: &DatagramList,
    from: usize,
    end: usize,
    unicast: [u8; 6],
    deltas: &[u16],
    work: &mut [u8],
) -> NextSection
    requires datagrams { AreSendable list.now }
    requires from { from < end }
    requires end { end ≤ length list.now }
    requires fits { length (joined (part_of from end list.now)) < 2 ^ 18 }
    requires deltas { All (λ (delta : ℕ). delta < 2 ^ 12) deltas.now }
    requires work { length work.old ≡ 4096 }
    requires held { AreHeld units.old.bytes units.old.ends }
    requires bytes { length units.old.bytes + (length (joined (part_of from end list.now)) + 16 * (end - from)) ≤ units.old.bytes_most }
    requires units { length units.old.ends + (end - from) ≤ units.old.units_most }
    ensures next { result ≡ after_sections first_section (data_sizes (part_of from end list.now)) }
    ensures few { result.packet ≤ 25 * (end - from) }
    ensures written { units_of units.new.bytes units.new.ends
        ≡ units_of units.old.bytes units.old.ends ++ timed_data unicast (part_of from end list.now) deltas.now (end - from) }
    ensures bytes { length units.new.bytes ≡ length units.old.bytes + (length (joined (part_of from end list.now)) + 16 * (end - from)) }
    ensures units { length units.new.ends ≡ length units.old.ends + (end - from) }
    ensures held { AreHeld units.new.bytes units.new.ends }
    ensures bytes_most { units.new.bytes_most ≡ units.old.bytes_most }
    ensures units_most { units.new.units_most ≡ units.old.units_most }
{
    let count = end - from;
    let mut next = first();
    let mut address = 0;
    for n in 0..count {
        let datagram = list.at(from + n);
        let delta = delta_of(deltas, next.packet);
        let real_time = RealTime {
            delta,
            table_boundary: n + 1 == count,
            frame_boundary: false,
            address,
        };
        let mac = receivers_of(datagram, unicast);
        let size = write_mpe(mac, Some(real_time), datagram, work);
        units.push(&work[..size]);
        next = next.after(size);
        address += datagram.len() as u32;
    }
    next
}

/// Puts the sections of the first `columns` columns of an RS data table after the units; the first of them begins at `next`.
///
/// `deltas` has delta_t of each packet, and `work` is for one section.
pub(crate) fn put_burst_columns(
    units: &mut UnitBuffer,
    next: NextSection,
    parity: &[u8],
    rows: usize,
    columns: u8,
    padding: u8,
    deltas: &[u16],
    work: &mut [u8],
)
    requires rows { IsRows rows }
    requires few { next.packet < 2 ^ 40 }
    requires parity { length parity.now ≡ 64 * rows }
    requires columns { columns ≤ 64 }
    requires padding { padding ≤ 190 }
    requires deltas { All (λ (delta : ℕ). delta < 2 ^ 12) deltas.now }
    requires work { length work.old ≡ 4096 }
    requires held { AreHeld units.old.bytes units.old.ends }
    requires bytes { length units.old.bytes + columns * (rows + 16) ≤ units.old.bytes_most }
    requires units { length units.old.ends + columns ≤ units.old.units_most }
    ensures written { units_of units.new.bytes units.new.ends
        ≡ units_of units.old.bytes units.old.ends ++ timed_columns rows columns padding parity.now deltas.now next columns }
    ensures held { AreHeld units.new.bytes units.new.ends }
    ensures bytes_most { units.new.bytes_most ≡ units.old.bytes_most }
    ensures units_most { units.new.units_most ≡ units.old.units_most }
{
    let mut next = next;
    for number in 0..columns {
        let start = usize::from(number) * rows;
        let is_last = number + 1 == columns;
        let column = Fec {
            padding,
            number,
            last: columns - 1,
            real_time: RealTime {
                delta: delta_of(deltas, next.packet),
                table_boundary: is_last,
                frame_boundary: is_last,
                address: start as u32,
            },
            column: &parity[start..start + rows],
        };
        let size = write_fec(&column, work);
        units.push(&work[..size]);
        next = next.after(size);
    }
}
