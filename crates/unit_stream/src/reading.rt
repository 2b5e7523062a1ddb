//! The units that start in a packet, read one place after another.
ghost use Rattle.std.specs.Prelude.{◌≡◌, ◌≤◌, ◌<◌, ℕ, List, ◌∷◌, length, if◌then◌else◌, Option, option_map};
ghost use Rattle.ts_spec.specs.Form.{UnitForm as Form};
ghost use Rattle.ts_spec.specs.Packet.{PacketFields};
ghost use Rattle.ts_spec.specs.Events.{unit_event, bad_check_event};
ghost use Rattle.ts_packet.specs.Fields.{fields_in};
ghost use Rattle.unit_stream.specs.Joining.{Place, left_events, rest_events};
ghost use Rattle.unit_stream.specs.States.{TellsLook, HasRoom, FitsEnded, FitsState, ended_state, event_in, place_of, rest_of, state_in};
ghost use Rattle.unit_stream.specs.Steps.{Reads, state_after};

use crate::form::{Span, UnitForm};
use crate::joining::{Ended, Position, State, UnderWay};
use ts_packet::Packet;

/// What became of a unit.
#[derive(Clone, Copy, Debug)]
pub enum JoinEvent<'u> {
    /// A unit whose last byte came and whose check sum holds.
    Unit {
        /// The moment of the packet with its first byte.
        moment: u64,
        /// The unit.
        bytes: &'u [u8],
    },
    /// A unit whose last byte came and whose check sum does not hold.
    BadCheck,
    /// A delimiting error: a unit was lost, or a pointer passes its payload.
    Delimit,
    /// A length that no unit has.
    BadLength,
}

/// What the bytes at a place of a payload tell.
#[derive(Clone, Copy)]
pub(crate) enum Look {
    /// No unit starts there.
    Nothing,
    /// A unit of a length that no unit has.
    Bad,
    /// A unit of so many bytes, which all lie there.
    Within(usize),
    /// A unit that goes on in the next packet, and of how many bytes it is, where they tell.
    Beyond(Option<usize>),
}

/// Looks at the bytes from a place of a payload on.
fn look_at<F: UnitForm>(bytes: &[u8]) -> Look
    ensures told { TellsLook F.form result bytes.now }
    ensures room { HasRoom result (length bytes.now) F.LONGEST }
{
    if bytes.len() < F::START {
        return Look::Nothing;
    }
    match F::span(bytes) {
        Span::Stuffing => Look::Nothing,
        Span::Bad => Look::Bad,
        Span::More => Look::Beyond(None),
        Span::Whole(size) => {
            if size <= bytes.len() {
                Look::Within(size)
            } else {
                Look::Beyond(Some(size))
            }
        }
    }
}

/// The event of a unit whose last byte came.
fn checked<'u, F: UnitForm>(moment: u64, bytes: &'u [u8]) -> JoinEvent<'u>
    ensures { event_in result ≡ (if F.form.check bytes.now then unit_event moment bytes.now else bad_check_event) }
{
    if F::check(bytes) {
        JoinEvent::Unit { moment, bytes }
    } else {
        JoinEvent::BadCheck
    }
}

/// The event of a unit under way that ended.
pub(crate) fn end_event<'u, F: UnitForm>(buffer: &'u [u8], ended: Ended) -> JoinEvent<'u>
    requires { FitsEnded ended (length buffer.now) }
    ensures { (packet : PacketFields) (rest : Option Place)
        → left_events F.form packet (ended_state ended rest buffer.now) ≡ event_in result ∷ rest_events F.form packet rest }
{
    match ended {
        Ended::Unit(unit) => checked::<F>(unit.moment, &buffer[..unit.size]),
        Ended::Delimit => JoinEvent::Delimit,
        Ended::BadLength => JoinEvent::BadLength,
    }
}

/// What is left of a packet after that event.
pub(crate) fn after_end(rest: Option<Position>) -> State
    ensures fits { (form : Form) (buffer : List ℕ) → FitsState form result buffer }
    ensures state { (buffer : List ℕ) → state_in result buffer ≡ state_after (rest_of rest) }
{
    match rest {
        None => State::Drained(None),
        Some(position) => State::Reading(position),
    }
}

/// Reads the unit that starts at a place of the payload, where one does. A unit that goes on in the
/// next packet is copied into the buffer.
#[inline(always)]
pub(crate) fn read_start<'u, F: UnitForm>(
    buffer: &mut [u8],
    position: Position,
    packet: &'u Packet<'_>,
) -> (Option<JoinEvent<'u>>, State)
    requires { length buffer.old ≡ F.LONGEST }
    ensures fits { FitsState F.form result.1 buffer.new }
    ensures read { Reads F.form (fields_in packet.now) (place_of position) (option_map event_in result.0) (state_in result.1 buffer.new) }
{
    let moment = position.moment;
    let payload = packet.payload;
    if position.at > payload.len() {
        return (None, State::Drained(None));
    }
    let bytes = &payload[position.at..];
    match look_at::<F>(bytes) {
        Look::Nothing => (None, State::Drained(None)),
        Look::Bad => (Some(JoinEvent::BadLength), State::Drained(None)),
        Look::Within(size) => {
            let next = Position {
                moment,
                at: position.at + size,
            };
            (
                Some(checked::<F>(moment, &bytes[..size])),
                State::Reading(next),
            )
        }
        Look::Beyond(whole) => {
            let size = bytes.len();
            buffer[..size].copy_from_slice(bytes);
            (
                None,
                State::Drained(Some(UnderWay {
                    moment,
                    size,
                    whole,
                })),
            )
        }
    }
}
