//! What is counted of one input stream: its frames, what became of the packets in them, and what the PDUs give.
ghost use Rattle.std.specs.Prelude.{◌≡◌};
ghost use Rattle.gse_reception.specs.Counting.{of_isi, of_pdus, others_of, HasNoPackets, event_in, events_of_part, counted_frame, counted_event, counted_events, counted_pdus};
ghost use Rattle.gse_reception.specs.Handling.{handling_numbers};

use crate::handling::Handling;
use gse_reassembly::Part;
use service_counts::ServiceCounts;

/// What becomes of a packet, as it is counted.
#[derive(Clone, Copy, Debug, PartialEq, Eq)]
pub(crate) enum Event {
    /// A PDU is received.
    Pdu,
    /// The CRC-32 differs.
    BadCheck,
    /// The Frag ID is not open, or the first fragment is too many frames back.
    Delimited,
    /// The bytes are not as many as Total Length counts, or the packet is refused.
    BadLength,
}

/// Counts a received frame.
pub(crate) fn count_received(counts: &mut ServiceCounts)
    ensures isi { of_isi counts.new ≡ counted_frame (of_isi counts.old) }
    ensures pdus { of_pdus counts.new ≡ of_pdus counts.old }
    ensures packets { HasNoPackets counts.old → HasNoPackets counts.new }
{
    counts.heard = counts.heard.saturating_add(1);
}

/// Counts what became of a packet.
pub(crate) fn count_event(counts: &mut ServiceCounts, event: Event)
    ensures isi { of_isi counts.new ≡ counted_event (of_isi counts.old) (event_in event) }
    ensures pdus { of_pdus counts.new ≡ of_pdus counts.old }
    ensures others { others_of counts.new ≡ others_of counts.old }
{
    match event {
        Event::Pdu => counts.units = counts.units.saturating_add(1),
        Event::BadCheck => counts.bad_check = counts.bad_check.saturating_add(1),
        Event::Delimited => counts.delimited = counts.delimited.saturating_add(1),
        Event::BadLength => counts.bad_length = counts.bad_length.saturating_add(1),
    }
}

/// Counts what became of a fragment that is not the last: one that is kept gives nothing.
pub(crate) fn count_part(counts: &mut ServiceCounts, part: Part)
    ensures isi { of_isi counts.new ≡ counted_events (of_isi counts.old) (events_of_part part) }
    ensures pdus { of_pdus counts.new ≡ of_pdus counts.old }
    ensures others { others_of counts.new ≡ others_of counts.old }
{
    match part {
        Part::Kept => {}
        Part::NoStart => count_event(counts, Event::Delimited),
        Part::TooLong => count_event(counts, Event::BadLength),
    }
}

/// Counts what became of a PDU.
pub(crate) fn count_handling(counts: &mut ServiceCounts, handling: &Handling<'_>)
    ensures isi { of_isi counts.new ≡ of_isi counts.old }
    ensures pdus { of_pdus counts.new ≡ counted_pdus (of_pdus counts.old) (handling_numbers handling.now) }
    ensures others { others_of counts.new ≡ others_of counts.old }
{
    match handling {
        Handling::Unread => counts.unread = counts.unread.saturating_add(1),
        Handling::Filtered => counts.filtered = counts.filtered.saturating_add(1),
        Handling::Wanted(_) => counts.datagrams = counts.datagrams.saturating_add(1),
    }
}
