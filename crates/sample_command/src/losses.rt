//! The losses of a sample: the stream in memory -> each packet by its draw dropped or received -> how many were dropped, and how many datagrams
//! the others deliver.
ghost use Rattle.std.specs.Prelude.{◌≡◌, ℕ, ◌+◌, ◌*◌, ◌^◌, ◌<◌, ◌≤◌, true, false, List, [], ◌∷◌, ◌++◌, length, IfOk, if◌then◌else◌};
ghost use Rattle.wire_spec.specs.Lists.{joined};
ghost use Rattle.ts_spec.specs.Recording.{Record};
ghost use Rattle.plan_spec.specs.Given.{sample_plan};
ghost use Rattle.plan.specs.PlanView.{plan_fields};
ghost use Rattle.ts_record.specs.Reading.{lent_seen};
ghost use Rattle.reception_spec.specs.Delivered.{told_pairs, delivered_pairs};
ghost use Rattle.sample_spec.specs.Draws.{state_after};
ghost use Rattle.sample_spec.specs.Datagrams.{datagram_count};
ghost use Rattle.demux_core.specs.Receiving.{HasReceived};
ghost use Rattle.sample_command.specs.Counting.{StandsFor};
ghost use Rattle.sample_command.specs.Taking.{ArePieces, HasTaken, IsRest};

use crate::outlet::Delivered;
use crate::records::{RECORD, record_in};
use bumpalo::Bump;
use demux_core::PacketReceiver;
use ipe_io::{Failed, OutOfMemory};
use plan::Plan;
use sample_draws::Draws;
use std::alloc::Global;
use ts_record::LentRecord;

/// Of a hundred values that a draw has for a packet, those below this drop it.
const DROPPING: u32 = 3;

/// How many packets were dropped, and how many datagrams the others deliver.
#[derive(Clone, Copy, Debug, PartialEq, Eq)]
pub(crate) struct Rest {
    /// The dropped packets.
    pub(crate) dropped: u32,
    /// The datagrams of the services.
    pub(crate) delivered: Delivered,
}

/// Drops packets of a stream by draws, and receives the others under the plan.
///
/// The draws go on from those of the datagrams.
pub(crate) fn receive_rest(
    alloc: Global,
    plan: &Plan,
    stream: &[u8],
    draws: &mut Draws,
) -> Result<Rest, OutOfMemory>
    requires plan { plan_fields plan.now ≡ sample_plan }
    requires few { length stream.now < 196 * 2 ^ 32 }
    ensures received { (number : ℕ) (pieces : List (List ℕ)) → ArePieces pieces → stream.now ≡ joined pieces
        → draws.old ≡ state_after number (2 * datagram_count) → IfOk result (λ rest. IsRest number pieces rest) }
{
    let arena = Bump::new(alloc);
    let mut receiver = PacketReceiver::open(&arena, plan)?;
    let mut delivered = Delivered::new();
    let dropped = take_packets(stream, draws, &mut receiver, &mut delivered);
    end_reception(&mut receiver, &mut delivered);
    Ok(Rest { dropped, delivered })
}

/// Takes all packets of a stream, and answers how many were dropped.
fn take_packets(
    stream: &[u8],
    draws: &mut Draws,
    receiver: &mut PacketReceiver<'_>,
    delivered: &mut Delivered,
) -> u32
    requires is_open { receiver.old.is_open ≡ true }
    requires fresh { HasReceived false sample_plan [] receiver.old }
    requires few { length stream.now < 196 * 2 ^ 32 }
    ensures taken { (number : ℕ) (pieces : List (List ℕ)) → ArePieces pieces → stream.now ≡ joined pieces
        → HasTaken number [] draws.old 0 receiver.old delivered.old → HasTaken number pieces draws.new result receiver.new delivered.new }
    ensures goes_on { receiver.new.is_open ≡ true }
    ensures plan { receiver.new.plan ≡ sample_plan }
{
    let mut dropped = 0;
    let mut left = stream;
    'packets: while let Some((bytes, rest)) = left.split_first_chunk::<RECORD>() {
        if take_packet(bytes, draws, receiver, delivered) {
            dropped += 1;
        }
        left = rest;
    }
    dropped
}

/// Takes the next packet of a stream, and answers whether it was dropped.
fn take_packet(
    bytes: &[u8; RECORD],
    draws: &mut Draws,
    receiver: &mut PacketReceiver<'_>,
    delivered: &mut Delivered,
) -> bool
    requires is_open { receiver.old.is_open ≡ true }
    requires few { receiver.old.stream.records < 2 ^ 32 }
    requires plan { receiver.old.plan ≡ sample_plan }
    ensures taken { (number dropped : ℕ) (pieces : List (List ℕ)) → HasTaken number pieces draws.old dropped receiver.old delivered.old
        → HasTaken number (pieces ++ bytes.now ∷ []) draws.new (if result then dropped + 1 else dropped) receiver.new delivered.new }
    ensures goes_on { receiver.new.is_open ≡ true }
    ensures counted { receiver.new.stream.records ≤ receiver.old.stream.records + 1 }
    ensures plan { receiver.new.plan ≡ sample_plan }
{
    if draws.next() % 100 < DROPPING {
        return true;
    }
    receive_record(record_in(bytes), receiver, delivered);
    false
}

/// Gives the receiver a record.
fn receive_record(
    lent: LentRecord<'_>,
    receiver: &mut PacketReceiver<'_>,
    delivered: &mut Delivered,
)
    requires is_open { receiver.old.is_open ≡ true }
    requires few { receiver.old.stream.records < 2 ^ 32 }
    requires plan { receiver.old.plan ≡ sample_plan }
    ensures received { (records : List Record) → HasReceived false sample_plan records receiver.old
        → HasReceived false sample_plan (records ++ lent_seen lent.entry ∷ []) receiver.new }
    ensures told { (records : List Record) → HasReceived false sample_plan records receiver.old → StandsFor delivered.old (told_pairs sample_plan records)
        → StandsFor delivered.new (told_pairs sample_plan (records ++ lent_seen lent.entry ∷ [])) }
    ensures goes_on { receiver.new.is_open ≡ true }
    ensures counted { receiver.new.stream.records ≡ receiver.old.stream.records + 1 }
    ensures plan { receiver.new.plan ≡ sample_plan }
{
    match receiver.step_record(lent.moment, lent.bytes, delivered) {
        Ok(()) => {}
        Err(Failed) => unreachable!(),
    }
}

/// Ends the reception.
fn end_reception(receiver: &mut PacketReceiver<'_>, delivered: &mut Delivered)
    requires is_open { receiver.old.is_open ≡ true }
    requires plan { receiver.old.plan ≡ sample_plan }
    ensures told { (records : List Record) → HasReceived false sample_plan records receiver.old → StandsFor delivered.old (told_pairs sample_plan records)
        → StandsFor delivered.new (delivered_pairs sample_plan records) }
{
    match receiver.finish(delivered) {
        Ok(()) => {}
        Err(Failed) => unreachable!(),
    }
}
