//! The events of the packet fed last -> a listener.
ghost use Rattle.std.specs.Prelude.{◌≡◌, ◌<◌, List, length};
ghost use Rattle.ts_spec.specs.Packet.{PacketFields};
ghost use Rattle.ts_spec.specs.Received.{Arrival, packet_of};
ghost use Rattle.ts_spec.specs.Events.{Event, events_of};
ghost use Rattle.ts_packet.specs.Fields.{fields_in};
ghost use Rattle.unit_stream.specs.Joining.{Stands, IsGiving, IsLinked, packets_with, reading, steps_left};
ghost use Rattle.unit_stream.specs.States.{FitsState, event_in, place_of, state_in};
ghost use Rattle.unit_stream.specs.Telling.{HasHeard, HasTold, Tells};

use crate::form::UnitForm;
use crate::joining::{Position, State, feed_packet};
use crate::reading::{JoinEvent, after_end, end_event, read_start};
use ts_packet::{Link, Packet};

/// Where the events of packets go.
pub trait Listener {
    /// What an event makes of it.
    ghost Hears: { Self → Event → Self → Type 0 };

    /// Takes the next event. It refuses none: a listener that fails keeps the failure to itself.
    fn hear(&mut self, event: &JoinEvent<'_>)
        ensures heard { Hears self.old (event_in event.now) self.new };
}

/// Takes the next packet as `feed_packet` does, gives the listener its events, and answers what it leaves.
pub(crate) fn tell_packet<F: UnitForm, L: Listener>(
    buffer: &mut [u8],
    state: State,
    link: Link,
    packet: &Packet<'_>,
    moment: u64,
    listener: &mut L,
) -> State
    requires room { length buffer.old ≡ F.LONGEST }
    requires fits { FitsState F.form state buffer.old }
    ensures fits { FitsState F.form result buffer.new }
    ensures told { (packets : List Arrival) (next : Arrival) → Stands F.form (state_in state buffer.old) packets
        → IsLinked link packets next → packet_of next ≡ fields_in packet.now → next.moment ≡ moment
        → HasTold F.form (state_in result buffer.new) (packets_with link packets next) (events_of F.form packets) L.Hears listener.old listener.new }
    ensures heard { (events : List Event) × HasHeard L.Hears listener.old events listener.new }
{
    let state = feed_packet::<F>(buffer, state, link, packet, moment);
    tell_events::<F, L>(buffer, state, packet, listener)
}

/// Gives the listener the events of the packet fed last that are not given yet, and answers what it leaves.
fn tell_events<F: UnitForm, L: Listener>(
    buffer: &mut [u8],
    state: State,
    packet: &Packet<'_>,
    listener: &mut L,
) -> State
    requires room { length buffer.old ≡ F.LONGEST }
    requires fits { FitsState F.form state buffer.old }
    ensures fits { FitsState F.form result buffer.new }
    ensures told { (packets : List Arrival) (before : List Event) → IsGiving F.form (state_in state buffer.old) (fields_in packet.now) packets before
        → HasTold F.form (state_in result buffer.new) packets before L.Hears listener.old listener.new }
    ensures heard { (events : List Event) × HasHeard L.Hears listener.old events listener.new }
{
    let mut state = tell_end::<F, L>(buffer, state, listener);
    while let State::Reading(position) = state {
        state = tell_start::<F, L>(buffer, position, packet, listener);
    }
    state
}

/// Gives the listener the event of the unit under way, where it ended, and answers what is left then.
fn tell_end<F: UnitForm, L: Listener>(buffer: &[u8], state: State, listener: &mut L) -> State
    requires fits { FitsState F.form state buffer.now }
    ensures fits { FitsState F.form result buffer.now }
    ensures tells { (packet : PacketFields) → Tells F.form packet (state_in state buffer.now) (state_in result buffer.now) L.Hears listener.old listener.new }
{
    match state {
        State::Ended(ended, rest) => {
            listener.hear(&end_event::<F>(buffer, ended));
            after_end(rest)
        }
        _ => state,
    }
}

/// Gives the listener the event of the unit that starts at a place of the payload, where there is one, and answers what is left then.
fn tell_start<F: UnitForm, L: Listener>(
    buffer: &mut [u8],
    position: Position,
    packet: &Packet<'_>,
    listener: &mut L,
) -> State
    requires room { length buffer.old ≡ F.LONGEST }
    ensures room { length buffer.new ≡ F.LONGEST }
    ensures fits { FitsState F.form result buffer.new }
    ensures tells { Tells F.form (fields_in packet.now) (reading (place_of position)) (state_in result buffer.new) L.Hears listener.old listener.new }
    ensures falls { steps_left (length packet.now.payload.now) (state_in result buffer.new)
        < steps_left (length packet.now.payload.now) (reading (place_of position)) }
{
    let (event, state) = read_start::<F>(buffer, position, packet);
    if let Some(event) = &event {
        listener.hear(event);
    }
    state
}
