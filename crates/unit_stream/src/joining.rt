//! What a joiner holds, and the steps of reassembly over its buffer.
ghost use Rattle.std.specs.Prelude.{◌≡◌, ℕ, ◌+◌, ◌≤◌, ◌++◌, List, [], ◌∷◌, length, take, min, true, false, Option};
ghost use Rattle.ts_spec.specs.Packet.{PacketFields, pointer_fits};
ghost use Rattle.ts_spec.specs.Received.{Arrival, packet_of};
ghost use Rattle.ts_spec.specs.Events.{events_of};
ghost use Rattle.ts_packet.specs.Fields.{fields_in};
ghost use Rattle.reassembly_law.specs.UnderWay.{IsUnderWay};
ghost use Rattle.unit_stream.specs.Form.{span_told};
ghost use Rattle.unit_stream.specs.Joining.{Place, Stands, IsGiving, IsLinked, drained, packets_with};
ghost use Rattle.unit_stream.specs.States.{TellsFront, IsFirstStart, HoldsUnit, FitsUnderWay, FitsEnded, FitsState, ended_state, state_in, open_in, opens_in};
ghost use Rattle.unit_stream.specs.Steps.{GoesOn, Closes, IsFed, AreProper, pointed};

use crate::form::{Span, UnitForm};
use ts_packet::{Link, Packet};

/// A unit under way, at the front of the buffer.
#[derive(Clone, Copy)]
pub(crate) struct UnderWay {
    /// The moment of the packet in which it began.
    pub(crate) moment: u64,
    /// How many of its bytes came.
    pub(crate) size: usize,
    /// How many it has, where they tell.
    pub(crate) whole: Option<usize>,
}

/// A unit whose last byte came, at the front of the buffer.
#[derive(Clone, Copy)]
pub(crate) struct Complete {
    /// The moment of the packet in which it began.
    pub(crate) moment: u64,
    /// How many bytes it has.
    pub(crate) size: usize,
}

/// A place of the payload fed last.
#[derive(Clone, Copy)]
pub(crate) struct Position {
    /// The packet's moment.
    pub(crate) moment: u64,
    /// Bytes from the payload's first on.
    pub(crate) at: usize,
}

/// How a unit under way ended.
#[derive(Clone, Copy)]
pub(crate) enum Ended {
    /// Its last byte came.
    Unit(Complete),
    /// It was lost to a delimiting error.
    Delimit,
    /// Its length turned out to be none.
    BadLength,
}

/// How far the packet fed last is read.
#[derive(Clone, Copy)]
pub(crate) enum State {
    /// To its end. A unit may be under way.
    Drained(Option<UnderWay>),
    /// Up to a place at which a unit may start.
    Reading(Position),
    /// Not yet: the unit under way before it ended, and then units may start from a place on.
    Ended(Ended, Option<Position>),
}

/// Where units start in a packet.
#[derive(Clone, Copy)]
pub(crate) enum Front {
    /// Nowhere: it lacks the start indicator.
    Absent,
    /// From this place of its payload on.
    At(usize),
    /// Nowhere: its pointer passes the payload.
    Misfit,
}

/// Reads pointer_field (ISO/IEC 13818-1 clause 2.4.4.2).
pub(crate) fn read_pointer(packet: &Packet<'_>) -> Front
    ensures told { TellsFront result (fields_in packet.now) }
{
    if !packet.starts {
        return Front::Absent;
    }
    match packet.payload.first() {
        None => Front::Misfit,
        Some(pointer) => {
            let at = 1 + usize::from(*pointer);
            if at <= packet.payload.len() {
                Front::At(at)
            } else {
                Front::Misfit
            }
        }
    }
}

/// Puts `piece` after the first `size` bytes of the buffer, as far as there is room; how many bytes
/// there are then.
fn append(buffer: &mut [u8], size: usize, piece: &[u8]) -> usize
    requires { size ≤ length buffer.old }
    ensures bytes { take result buffer.new ≡ take (length buffer.old) (take size buffer.old ++ piece.now) }
    ensures size { result ≡ min (length buffer.old) (size + length piece.now) }
{
    let count = piece.len().min(buffer.len() - size);
    let end = size + count;
    buffer[size..end].copy_from_slice(&piece[..count]);
    end
}

/// Puts `piece` after the bytes of a unit under way, as far as there is room: how many there are then, and what they
/// tell of its length. Once it is known it is not asked for again.
fn extend<F: UnitForm>(buffer: &mut [u8], unit: UnderWay, piece: &[u8]) -> (usize, Span)
    requires unit { HoldsUnit F.form unit buffer.old }
    requires room { length buffer.old ≡ F.LONGEST }
    ensures bytes { take result.0 buffer.new ≡ take (length buffer.old) (take unit.size buffer.old ++ piece.now) }
    ensures size { result.0 ≡ min (length buffer.old) (unit.size + length piece.now) }
    ensures told { span_told result.1 ≡ F.form.span (take result.0 buffer.new) }
{
    let size = append(buffer, unit.size, piece);
    let span = match unit.whole {
        Some(whole) => Span::Whole(whole),
        None => F::span(&buffer[..size]),
    };
    (size, span)
}

/// Puts `piece` after the bytes of a unit under way, where its length is known and it goes on after them. False: it may
/// end in them, and nothing changes.
pub(crate) fn run_on<F: UnitForm>(buffer: &mut [u8], unit: &mut UnderWay, piece: &[u8]) -> bool
    requires unit { HoldsUnit F.form unit.old buffer.old }
    requires room { length buffer.old ≡ F.LONGEST }
    ensures unit { HoldsUnit F.form unit.new buffer.new }
    ensures goes { (packet : PacketFields) → result ≡ true → packet.starts ≡ false → packet.payload ≡ piece.now
        → IsUnderWay F.form (take unit.old.size buffer.old)
        → GoesOn F.form (open_in unit.old buffer.old) packet (drained (open_in unit.new buffer.new ∷ [])) }
    ensures unchanged { result ≡ false → (unit.new ≡ unit.old) × (buffer.new ≡ buffer.old) }
{
    match unit.whole {
        Some(whole) if unit.size + piece.len() < whole => {
            unit.size = append(buffer, unit.size, piece);
            true
        }
        _ => false,
    }
}

/// Goes on with a unit under way by the payload of a continuous packet without the start indicator.
fn go_on<F: UnitForm>(buffer: &mut [u8], unit: UnderWay, payload: &[u8]) -> State
    requires unit { HoldsUnit F.form unit buffer.old }
    requires room { length buffer.old ≡ F.LONGEST }
    ensures fits { FitsState F.form result buffer.new }
    ensures goes { (packet : PacketFields) → packet.starts ≡ false → packet.payload ≡ payload.now
        → IsUnderWay F.form (take unit.size buffer.old)
        → GoesOn F.form (open_in unit buffer.old) packet (state_in result buffer.new) }
{
    let (size, span) = extend::<F>(buffer, unit, payload);
    let moment = unit.moment;
    match span {
        Span::Whole(whole) => {
            if whole <= size {
                let unit = Complete {
                    moment,
                    size: whole,
                };
                State::Ended(Ended::Unit(unit), None)
            } else {
                let whole = Some(whole);
                State::Drained(Some(UnderWay {
                    moment,
                    size,
                    whole,
                }))
            }
        }
        Span::Bad => State::Ended(Ended::BadLength, None),
        Span::More | Span::Stuffing => {
            let whole = None;
            State::Drained(Some(UnderWay {
                moment,
                size,
                whole,
            }))
        }
    }
}

/// Ends a unit under way by the pointer's bytes of a continuous packet with the start indicator.
fn close<F: UnitForm>(buffer: &mut [u8], unit: UnderWay, rest: &[u8]) -> Ended
    requires unit { HoldsUnit F.form unit buffer.old }
    requires room { length buffer.old ≡ F.LONGEST }
    ensures fits { FitsEnded result (length buffer.new) }
    ensures closes { (packet : PacketFields) (place : Option Place) → packet.starts ≡ true
        → pointer_fits packet ≡ true → rest.now ≡ pointed packet
        → IsUnderWay F.form (take unit.size buffer.old)
        → Closes F.form (open_in unit buffer.old) packet place (ended_state result place buffer.new) }
{
    let (size, span) = extend::<F>(buffer, unit, rest);
    match span {
        Span::Whole(whole) => {
            if whole == size && size - unit.size == rest.len() {
                Ended::Unit(Complete {
                    moment: unit.moment,
                    size: whole,
                })
            } else {
                Ended::Delimit
            }
        }
        Span::Bad => Ended::BadLength,
        Span::More | Span::Stuffing => Ended::Delimit,
    }
}

/// Takes a packet without the start indicator.
fn take_middle<F: UnitForm>(
    buffer: &mut [u8],
    under_way: Option<UnderWay>,
    is_continuous: bool,
    packet: &Packet<'_>,
) -> State
    requires unit { FitsUnderWay F.form under_way buffer.old }
    requires room { length buffer.old ≡ F.LONGEST }
    requires plain { packet.now.starts ≡ false }
    ensures fits { FitsState F.form result buffer.new }
    ensures fed { (moment : ℕ) → AreProper F.form (opens_in under_way buffer.old)
        → IsFed F.form is_continuous (opens_in under_way buffer.old) moment (fields_in packet.now) (state_in result buffer.new) }
{
    match under_way {
        None => State::Drained(None),
        Some(unit) => {
            if is_continuous {
                go_on::<F>(buffer, unit, packet.payload)
            } else {
                State::Ended(Ended::Delimit, None)
            }
        }
    }
}

/// Takes a packet in which units start from the place `at` on.
fn take_start<F: UnitForm>(
    buffer: &mut [u8],
    under_way: Option<UnderWay>,
    is_continuous: bool,
    packet: &Packet<'_>,
    position: Position,
) -> State
    requires unit { FitsUnderWay F.form under_way buffer.old }
    requires room { length buffer.old ≡ F.LONGEST }
    requires front { IsFirstStart position.at (fields_in packet.now) }
    ensures fits { FitsState F.form result buffer.new }
    ensures fed { AreProper F.form (opens_in under_way buffer.old)
        → IsFed F.form is_continuous (opens_in under_way buffer.old) position.moment (fields_in packet.now) (state_in result buffer.new) }
{
    match under_way {
        None => State::Reading(position),
        Some(unit) => {
            let ended = if is_continuous {
                close::<F>(buffer, unit, &packet.payload[1..position.at])
            } else {
                Ended::Delimit
            };
            State::Ended(ended, Some(position))
        }
    }
}

/// Takes the next packet after a unit under way, or none.
#[inline(always)]
pub(crate) fn take_packet<F: UnitForm>(
    buffer: &mut [u8],
    under_way: Option<UnderWay>,
    is_continuous: bool,
    packet: &Packet<'_>,
    moment: u64,
) -> State
    requires unit { FitsUnderWay F.form under_way buffer.old }
    requires room { length buffer.old ≡ F.LONGEST }
    ensures fits { FitsState F.form result buffer.new }
    ensures fed { AreProper F.form (opens_in under_way buffer.old)
        → IsFed F.form is_continuous (opens_in under_way buffer.old) moment (fields_in packet.now) (state_in result buffer.new) }
{
    match read_pointer(packet) {
        Front::Misfit => State::Ended(Ended::Delimit, None),
        Front::Absent => take_middle::<F>(buffer, under_way, is_continuous, packet),
        Front::At(at) => {
            take_start::<F>(
                buffer,
                under_way,
                is_continuous,
                packet,
                Position { moment, at },
            )
        }
    }
}

/// Takes the next packet after what the packets before left, where `link` is how it follows them. A duplicate changes nothing.
#[inline(always)]
pub(crate) fn feed_packet<F: UnitForm>(
    buffer: &mut [u8],
    state: State,
    link: Link,
    packet: &Packet<'_>,
    moment: u64,
) -> State
    requires fits { FitsState F.form state buffer.old }
    requires room { length buffer.old ≡ F.LONGEST }
    ensures fits { FitsState F.form result buffer.new }
    ensures fed { (packets : List Arrival) (next : Arrival) → Stands F.form (state_in state buffer.old) packets
        → IsLinked link packets next → packet_of next ≡ fields_in packet.now → next.moment ≡ moment
        → IsGiving F.form (state_in result buffer.new) (fields_in packet.now) (packets_with link packets next) (events_of F.form packets) }
    ensures duplicate { link ≡ Link.Repeat → (result ≡ state) × (buffer.new ≡ buffer.old) }
{
    let is_continuous = match link {
        Link::Repeat => return state,
        Link::Next => true,
        Link::First | Link::Gap => false,
    };
    let under_way = match state {
        State::Drained(under_way) => under_way,
        _ => None,
    };
    take_packet::<F>(buffer, under_way, is_continuous, packet, moment)
}
