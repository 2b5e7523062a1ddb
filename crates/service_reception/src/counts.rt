//! What is counted on a PID: packets by how they follow, units by what became of them.
ghost use Rattle.std.specs.Prelude.{◌≡◌};
ghost use Rattle.unit_stream.specs.States.{event_in};
ghost use Rattle.service_reception.specs.Counting.{on_pid, of_units, of_frames, counted_link, counted_event, counted_units};
ghost use Rattle.service_reception.specs.Carried.{handling_numbers};

use crate::handling::Handling;
use service_counts::ServiceCounts;
use ts_packet::Link;
use unit_stream::JoinEvent;

/// Counts a packet, by how it follows the one before.
pub fn count_link(counts: &mut ServiceCounts, link: Link)
    ensures packets { on_pid counts.new ≡ counted_link (on_pid counts.old) link }
    ensures units { of_units counts.new ≡ of_units counts.old }
    ensures frames { of_frames counts.new ≡ of_frames counts.old }
{
    match link {
        Link::First | Link::Next => counts.heard = counts.heard.saturating_add(1),
        Link::Repeat => counts.repeats = counts.repeats.saturating_add(1),
        Link::Gap => {
            counts.heard = counts.heard.saturating_add(1);
            counts.gaps = counts.gaps.saturating_add(1);
        }
    }
}

/// Counts what became of a start.
pub fn count_event(counts: &mut ServiceCounts, event: &JoinEvent<'_>)
    ensures packets { on_pid counts.new ≡ counted_event (on_pid counts.old) (event_in event.now) }
    ensures units { of_units counts.new ≡ of_units counts.old }
    ensures frames { of_frames counts.new ≡ of_frames counts.old }
{
    match event {
        JoinEvent::Unit { .. } => counts.units = counts.units.saturating_add(1),
        JoinEvent::BadCheck => counts.bad_check = counts.bad_check.saturating_add(1),
        JoinEvent::Delimit => counts.delimited = counts.delimited.saturating_add(1),
        JoinEvent::BadLength => counts.bad_length = counts.bad_length.saturating_add(1),
    }
}

/// Counts what became of an accepted unit that carries a datagram by itself, or none.
pub(crate) fn count_handling(counts: &mut ServiceCounts, handling: &Handling<'_>)
    ensures packets { on_pid counts.new ≡ on_pid counts.old }
    ensures units { of_units counts.new ≡ counted_units (of_units counts.old) (handling_numbers handling.now) }
    ensures frames { counts.new.frames ≡ counts.old.frames }
    ensures mended { counts.new.rows_mended ≡ counts.old.rows_mended }
    ensures left { counts.new.rows_left ≡ counts.old.rows_left }
{
    match handling {
        Handling::Unread => counts.unread = counts.unread.saturating_add(1),
        Handling::Filtered => counts.filtered = counts.filtered.saturating_add(1),
        Handling::Wanted(_) => counts.datagrams = counts.datagrams.saturating_add(1),
    }
}
