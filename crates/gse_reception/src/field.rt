//! A received frame -> counted, and all packets of its data field, taken one after another.
ghost use Rattle.std.specs.Prelude.{◌≡◌, ℕ, ◌+◌, ◌^◌, ◌<◌, ◌≤◌, ◌++◌, List, flat_map, Ok};
ghost use Rattle.wire_spec.specs.Causes.{HasCause};
ghost use Rattle.gse_spec.specs.Packet.{readings_of};
ghost use Rattle.gse_spec.specs.Reassembly.{Pdu};
ghost use Rattle.gse_spec.specs.Received.{carried_by_pdu, delivered_by_pdu};
ghost use Rattle.gse_reassembly.specs.Slots.{open_on};
ghost use Rattle.gse_reception.specs.Counting.{of_isi, of_pdus, others_of, HasNoPackets, counted_frame};
ghost use Rattle.gse_reception.specs.Steps.{ReceivedSoFar, with_readings, StandsSoFar, IsGoingOn, GivesNext};
ghost use Rattle.gse_reception.specs.Outlets.{HandsOut};

use crate::counts::{Event, count_event, count_received};
use crate::packet::take_packet;
use addr_rules::MacList;
use gse_packet::{Gse, GseFault, GseReader};
use gse_reassembly::Slots;
use ipe_io::{Failed, Outlet};
use service_counts::ServiceCounts;
use std::alloc::Allocator;

/// Profile: the most frames of one recording.
const MOST_FRAMES: u64 = 1 << 32;

/// Counts a received frame. Profile: the slots count 2^32 at most, which is the most frames of one recording.
pub(crate) fn count_frame<A: Allocator>(slots: &mut Slots<A>, counts: &mut ServiceCounts)
    requires within { slots.old.frame_number ≤ counts.old.heard }
    ensures within { slots.new.frame_number ≤ counts.new.heard }
    ensures isi { of_isi counts.new ≡ counted_frame (of_isi counts.old) }
    ensures pdus { of_pdus counts.new ≡ of_pdus counts.old }
    ensures packets { HasNoPackets counts.old → HasNoPackets counts.new }
    ensures number { counts.old.heard < 2 ^ 32 → slots.new.frame_number ≡ slots.old.frame_number + 1 }
    ensures unchanged { (other : ℕ) → open_on slots.new other ≡ open_on slots.old other }
{
    if counts.heard < MOST_FRAMES {
        slots.frame();
    }
    count_received(counts);
}

/// The next packet or refusal; None where none is left.
fn next_reading<'a>(reader: &mut GseReader<'a>) -> Option<Result<Gse<'a>, GseFault>>
    ensures read { GivesNext reader.old result reader.new }
{
    match reader.next() {
        Ok(Some(packet)) => Some(Ok(packet)),
        Ok(None) => None,
        Err(fault) => Some(Err(fault)),
    }
}

/// Takes all packets of a data field; a refused one is counted.
///
/// After a datagram that the outlet refused none is offered; the packets are counted all the same.
pub(crate) fn take_field<A: Allocator, T: Outlet>(
    slots: &mut Slots<A>,
    counts: &mut ServiceCounts,
    field: &[u8],
    filter: &MacList,
    service: u32,
    outlet: &mut T,
) -> Result<(), Failed>
    requires served { service < T.services outlet.old }
    ensures frame_number { slots.new.frame_number ≡ slots.old.frame_number }
    ensures others { others_of counts.new ≡ others_of counts.old }
    ensures taken { (so_far : ReceivedSoFar) → IsGoingOn filter.now so_far (readings_of field.now) slots.old (of_isi counts.old) (of_pdus counts.old)
        → StandsSoFar filter.now (with_readings so_far (readings_of field.now)) slots.new (of_isi counts.new) (of_pdus counts.new) }
    ensures hands { (so_far : ReceivedSoFar) (more : List Pdu) → IsGoingOn filter.now so_far (readings_of field.now) slots.old (of_isi counts.old) (of_pdus counts.old)
        → (with_readings so_far (readings_of field.now)).pdus ≡ so_far.pdus ++ more
        → HandsOut T.StandsFor T.Refused T.services T.faults service (flat_map (delivered_by_pdu carried_by_pdu filter.now) more)
        (record { outlet = outlet.old; went = Ok tt }) (record { outlet = outlet.new; went = result }) }
    ensures services { T.services outlet.new ≡ T.services outlet.old }
    ensures cause { HasCause (T.faults outlet.old) (T.faults outlet.new) result }
{
    let mut reader = GseReader::over(field);
    let mut went = Ok(());
    while let Some(reading) = next_reading(&mut reader) {
        match reading {
            Ok(packet) => {
                went = take_packet(slots, counts, &packet, filter, service, outlet, went);
            }
            Err(_) => count_event(counts, Event::BadLength),
        }
    }
    went
}
