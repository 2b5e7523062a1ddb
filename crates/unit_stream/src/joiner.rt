//! Reassembly of units: packets come in one after another, and what became of each unit goes out.
ghost use Rattle.std.specs.Prelude.{◌≡◌};

use crate::form::UnitForm;
use crate::joining::{State, UnderWay, feed_packet, run_on};
use crate::listening::{Listener, tell_packet};
use crate::reading::{JoinEvent, after_end, end_event, read_start};
use std::alloc::Allocator;
use std::marker::{Model, PhantomData};
use ts_packet::{Link, Packet};

/// Reassembly of the units of one PID (ISO/IEC 13818-1 clause 2.4.4, RFC 4326 section 7).
///
/// It holds one unit under way at most.
#[derive(Drop)]
pub struct Joiner<F: UnitForm, A: Allocator> {
    /// Room for the longest unit; the unit under way, or the one that ended, stands at its front.
    buffer: Vec<u8, A>,
    state: State,
    form: PhantomData<F>,
}

impl<F: UnitForm, A: Allocator> Model for Joiner<F, A> {
    ghost use Rattle.std.specs.Prelude.{◌≡◌, vec_len};
    ghost use Rattle.unit_stream.specs.Joining.{JoinerState};
    ghost use Rattle.unit_stream.specs.States.{FitsState, state_in};

    ghost Value = { JoinerState };

    ghost view = { λ joiner. state_in joiner.state joiner.buffer.items };

    ghost invariant = { λ joiner. FitsState F.form joiner.state joiner.buffer.items × (vec_len joiner.buffer ≡ F.LONGEST) };
}

impl<F: UnitForm, A: Allocator> Joiner<F, A> {
    ghost use Rattle.std.specs.Prelude.{◌≡◌, ℕ, List, [], true, false, vec_len, option_map};
    ghost use Rattle.std.specs.Borrow.{sem};
    ghost use Rattle.std.specs.Io.BufRead.{Rests};
    ghost use Rattle.ts_spec.specs.Received.{Arrival, packet_of};
    ghost use Rattle.ts_spec.specs.Events.{Event, events_of};
    ghost use Rattle.ts_packet.specs.Fields.{fields_in};
    ghost use Rattle.unit_stream.specs.contracts.joiner.Joiner.{the_row};
    ghost use Rattle.reassembly_law.specs.UnderWay.{Open};
    ghost use Rattle.unit_stream.specs.Joining.{drained, Stands, IsGiving, IsLinked, packets_with, Answers};
    ghost use Rattle.unit_stream.specs.States.{event_in};
    ghost use Rattle.unit_stream.specs.Steps.{AreProper, IsDrained, IsFed};
    ghost use Rattle.unit_stream.specs.Telling.{HasHeard, HasTold};

    /// A joiner that was fed nothing, over a buffer of LONGEST bytes.
    pub fn over(buffer: Vec<u8, A>) -> Joiner<F, A>
        requires { vec_len buffer ≡ F.LONGEST }
        ensures stands { Stands F.form result [] }
    {
        Joiner {
            buffer,
            state: State::Drained(None),
            form: PhantomData,
        }
    }

    /// Takes the next packet of the PID, and its moment. `link` is what `Continuity::see` said of it.
    ///
    /// A duplicate changes nothing. Events of the packet before that were not asked for are dropped.
    pub fn feed(&mut self, link: Link, packet: &Packet<'_>, moment: u64)
        ensures fed { (packets : List Arrival) (next : Arrival) → Stands F.form self.old packets
            → IsLinked link packets next → packet_of next ≡ fields_in packet.now → next.moment ≡ moment
            → IsGiving F.form self.new (fields_in packet.now) (packets_with link packets next) (events_of F.form packets) }
        ensures duplicate { link ≡ Link.Repeat → self.new ≡ self.old }
    {
        self.state = feed_packet::<F>(&mut self.buffer, self.state, link, packet, moment);
    }

    /// Takes the next packet of the PID as `feed` does, and gives the listener each of its events, in order.
    pub fn take<L: Listener>(
        &mut self,
        link: Link,
        packet: &Packet<'_>,
        moment: u64,
        listener: &mut L,
    )
        ensures told { (packets : List Arrival) (next : Arrival) → Stands F.form self.old packets
            → IsLinked link packets next → packet_of next ≡ fields_in packet.now → next.moment ≡ moment
            → HasTold F.form self.new (packets_with link packets next) (events_of F.form packets) L.Hears listener.old listener.new }
        ensures heard { (events : List Event) × HasHeard L.Hears listener.old events listener.new }
    {
        if self.run_on(link, packet) {
            return;
        }
        self.state = tell_packet::<F, L>(
            &mut self.buffer,
            self.state,
            link,
            packet,
            moment,
            listener,
        );
    }

    /// Goes on with the unit under way by a continuous packet in its middle, which gives no event. False: the packet is none
    /// such, or the unit's length is not known yet; nothing changes then.
    fn run_on(&mut self, link: Link, packet: &Packet<'_>) -> bool
        ensures next { result ≡ true → link ≡ Link.Next }
        ensures runs { (under_way : List Open) (moment : ℕ) → result ≡ true → self.old ≡ drained under_way → AreProper F.form under_way
            → IsFed F.form true under_way moment (fields_in packet.now) self.new }
        ensures drained { result ≡ true → IsDrained self.new }
        ensures unchanged { result ≡ false → self.new ≡ self.old }
    {
        if link != Link::Next || packet.starts {
            return false;
        }
        match &mut self.state {
            State::Drained(Some(unit)) => run_on::<F>(&mut self.buffer, unit, packet.payload),
            _ => false,
        }
    }

    /// The next event of the packet fed last, which `packet` is, or None where all are given.
    ///
    /// A unit that lies whole in the packet is lent out of the packet, another out of the buffer.
    pub fn next<'u>(&'u mut self, packet: &'u Packet<'_>) -> Option<JoinEvent<'u>>
        ensures* rests { sem 𝓛 (Rests (the_row F.row A.row F.UnitForm A.Allocator) self.entry
            (λ joiner. Answers F.form self.old joiner (fields_in packet.now) (option_map event_in result))) }
    {
        match self.state {
            State::Drained(_) => None,
            State::Reading(position) => {
                let (event, state) = read_start::<F>(&mut self.buffer, position, packet);
                self.state = state;
                event
            }
            State::Ended(ended, rest) => {
                self.state = after_end(rest);
                Some(end_event::<F>(&self.buffer, ended))
            }
        }
    }

    /// Drops the unit under way and all events that were not asked for.
    pub fn forget(&mut self)
        ensures stands { Stands F.form self.new [] }
    {
        self.state = State::Drained(None);
    }
}
