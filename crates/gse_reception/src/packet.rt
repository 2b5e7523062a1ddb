//! A packet of an input stream -> counted; the PDU that it ends is handled.
ghost use Rattle.std.specs.Prelude.{◌≡◌, ◌<◌, flat_map};
ghost use Rattle.gse_spec.specs.Reassembly.{Outcome as OutcomeTold};
ghost use Rattle.gse_spec.specs.Received.{carried_by_pdu, delivered_by_pdu};
ghost use Rattle.gse_spec.specs.Events.{event_of_outcome};
ghost use Rattle.gse_spec.specs.Numbers.{pdu_numbers};
ghost use Rattle.gse_packet.specs.Views.{packet_in};
ghost use Rattle.gse_reassembly.specs.Slots.{Takes};
ghost use Rattle.gse_reassembly.specs.Outcomes.{Tells};
ghost use Rattle.gse_reception.specs.Counting.{of_isi, of_pdus, others_of, counted_event, counted_events, counted_pdus};
ghost use Rattle.gse_reception.specs.Steps.{events_in, pdus_of_outcome, pdus_in};
ghost use Rattle.gse_reception.specs.Outlets.{HandsOut};

use crate::counts::{Event, count_event, count_part};
use crate::handling::{WholePdu, take_pdu};
use addr_rules::MacList;
use gse_packet::Gse;
use gse_reassembly::{Outcome, Slots};
use ipe_io::{Failed, Outlet};
use service_counts::ServiceCounts;
use std::alloc::Allocator;

/// Counts what became of a last fragment, and handles the PDU that it ends.
fn take_outcome<T: Outlet>(
    counts: &mut ServiceCounts,
    outcome: &Outcome<'_>,
    filter: &MacList,
    service: u32,
    outlet: &mut T,
    went: Result<(), Failed>,
) -> Result<(), Failed>
    requires served { service < T.services outlet.old }
    ensures isi { (told : OutcomeTold) → Tells outcome.now told → of_isi counts.new ≡ counted_event (of_isi counts.old) (event_of_outcome told) }
    ensures pdus { (told : OutcomeTold) → Tells outcome.now told
        → of_pdus counts.new ≡ counted_pdus (of_pdus counts.old) (pdu_numbers carried_by_pdu filter.now (pdus_of_outcome told)) }
    ensures others { others_of counts.new ≡ others_of counts.old }
    ensures hands { (told : OutcomeTold) → Tells outcome.now told
        → HandsOut T.StandsFor T.Refused T.services T.faults service (flat_map (delivered_by_pdu carried_by_pdu filter.now) (pdus_of_outcome told))
        (record { outlet = outlet.old; went = went }) (record { outlet = outlet.new; went = result }) }
{
    match outcome {
        Outcome::Pdu {
            protocol,
            label,
            bytes,
        } => {
            let pdu = WholePdu {
                protocol: *protocol,
                label: *label,
                bytes,
            };
            take_pdu(counts, &pdu, filter, service, outlet, went)
        }
        Outcome::NoStart | Outcome::Late => {
            count_event(counts, Event::Delimited);
            went
        }
        Outcome::Length => {
            count_event(counts, Event::BadLength);
            went
        }
        Outcome::Crc => {
            count_event(counts, Event::BadCheck);
            went
        }
    }
}

/// Takes one packet: its fragment is kept, or the PDU that it ends is handled.
pub(crate) fn take_packet<A: Allocator, T: Outlet>(
    slots: &mut Slots<A>,
    counts: &mut ServiceCounts,
    packet: &Gse<'_>,
    filter: &MacList,
    service: u32,
    outlet: &mut T,
    went: Result<(), Failed>,
) -> Result<(), Failed>
    requires served { service < T.services outlet.old }
    ensures takes { Takes slots.old (packet_in packet.now) slots.new }
    ensures frame_number { slots.new.frame_number ≡ slots.old.frame_number }
    ensures isi { of_isi counts.new ≡ counted_events (of_isi counts.old) (events_in slots.old (packet_in packet.now)) }
    ensures pdus { of_pdus counts.new ≡ counted_pdus (of_pdus counts.old) (pdu_numbers carried_by_pdu filter.now (pdus_in slots.old (packet_in packet.now))) }
    ensures others { others_of counts.new ≡ others_of counts.old }
    ensures hands { HandsOut T.StandsFor T.Refused T.services T.faults service (flat_map (delivered_by_pdu carried_by_pdu filter.now) (pdus_in slots.old (packet_in packet.now)))
        (record { outlet = outlet.old; went = went }) (record { outlet = outlet.new; went = result }) }
{
    match packet {
        Gse::Complete {
            protocol,
            label,
            pdu,
        } => {
            let whole = WholePdu {
                protocol: *protocol,
                label: *label,
                bytes: pdu,
            };
            take_pdu(counts, &whole, filter, service, outlet, went)
        }
        Gse::Start {
            id,
            total,
            protocol,
            label,
            written,
            pdu,
        } => {
            count_part(
                counts,
                slots.start(*id, *total, *protocol, *label, *written, pdu),
            );
            went
        }
        Gse::Middle { id, pdu } => {
            count_part(counts, slots.middle(*id, pdu));
            went
        }
        Gse::End { id, pdu, crc } => {
            let outcome = slots.end(*id, pdu, *crc);
            take_outcome(counts, &outcome, filter, service, outlet, went)
        }
    }
}
