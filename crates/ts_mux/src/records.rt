//! A slot -> its record: the time stamp, and the packet of the INT, of a burst, or of the service whose turn it is.
ghost use Rattle.std.specs.Prelude.{◌≡◌, ◌≤◌, ◌+◌, ℕ, length, take, drop};
ghost use Rattle.plan.specs.PlanView.{plan_fields};
ghost use Rattle.stream_spec.specs.Parts.{PartFields};
ghost use Rattle.ts_mux.specs.Services.{turn_of};
ghost use Rattle.stream_batch.specs.Handing.{full_batch};
ghost use Rattle.ts_mux.specs.Slots.{is_early, StandBefore, StandInPart, TakesSlot, WritesRecord, AddsRecord};

use crate::int_packets::IntPackets;
use crate::services::Services;
use crate::stamps::write_stamp;
use plan::Plan;
use stream_batch::Batch;
use ts_packet::write_null;

/// Bytes of a packet (ISO/IEC 13818-1 clause 2.4.3.2).
const PACKET: usize = 188;

/// Whether a slot carries a packet of the INT. Without an INT nothing is divided, since division is slow.
fn is_of_table(plan: &Plan, table: &IntPackets, slot: u64) -> bool
    ensures read { result ≡ is_early plan.now.cycle table.now.count slot }
{
    table.count() > 0 && slot % u64::from(plan.cycle) < table.count()
}

/// Writes the packet of a slot: that of the INT in the first slots of a cycle, that of a burst in the window of its service, otherwise that
/// of the service whose turn it is, and a null packet where it is none's.
fn packet_for_slot(
    plan: &Plan,
    services: &mut Services<'_>,
    turn: Option<usize>,
    table: &mut IntPackets<'_>,
    slot: u64,
    into: &mut [u8; 188],
)
    requires stand { StandInPart (plan_fields plan.now) slot services.old table.old }
    requires turn { turn_of services.old ≡ turn }
    ensures taken { (part : PartFields) (place : ℕ) → StandBefore (plan_fields plan.now) part place slot services.old table.old
        → TakesSlot (plan_fields plan.now) part place slot services.new table.new into.new }
    ensures size { length into.new ≡ 188 }
    ensures kept { (table.new.count ≡ table.old.count) × (services.new.behind ≡ services.old.behind) }
{
    if is_of_table(plan, table, slot) {
        table.next(plan, slot, into);
        return;
    }
    if let Some(k) = services.burst(plan.cycle, slot) {
        services.give(k, into);
        return;
    }
    match turn {
        Some(k) => services.next(k, into),
        None => write_null(into),
    }
}

/// Writes the packet of a slot to the front of `into`.
fn put_packet(
    plan: &Plan,
    services: &mut Services<'_>,
    turn: Option<usize>,
    table: &mut IntPackets<'_>,
    slot: u64,
    into: &mut [u8],
)
    requires room { 188 ≤ length into.old }
    requires stand { StandInPart (plan_fields plan.now) slot services.old table.old }
    requires turn { turn_of services.old ≡ turn }
    ensures taken { (part : PartFields) (place : ℕ) → StandBefore (plan_fields plan.now) part place slot services.old table.old
        → TakesSlot (plan_fields plan.now) part place slot services.new table.new (take 188 into.new) }
    ensures after { drop 188 into.new ≡ drop 188 into.old }
    ensures size { length into.new ≡ length into.old }
    ensures kept { (table.new.count ≡ table.old.count) × (services.new.behind ≡ services.old.behind) }
{
    let Some(packet) = into.first_chunk_mut::<PACKET>() else {
        unreachable!();
    };
    packet_for_slot(plan, services, turn, table, slot, packet);
}

/// Writes the record of a slot to the front of `into`, its stamp and its packet; answers its length, 188, 192 or 196 bytes.
///
/// Slots count from the first of the stream. A part begins with a cycle, so that a slot has the same place in its cycle from the first
/// of the part.
fn write_record(
    plan: &Plan,
    services: &mut Services<'_>,
    turn: Option<usize>,
    table: &mut IntPackets<'_>,
    slot: u64,
    into: &mut [u8],
) -> usize
    requires room { 196 ≤ length into.old }
    requires stand { StandInPart (plan_fields plan.now) slot services.old table.old }
    requires turn { turn_of services.old ≡ turn }
    ensures written { (part : PartFields) (place : ℕ) → StandBefore (plan_fields plan.now) part place slot services.old table.old
        → WritesRecord (plan_fields plan.now) part place slot services.new table.new into.old into.new result }
    ensures most { result ≤ 196 }
    ensures kept { (table.new.count ≡ table.old.count) × (services.new.behind ≡ services.old.behind) }
{
    let stamp = write_stamp(plan.recording, plan.packet_rate, slot, into);
    put_packet(plan, services, turn, table, slot, &mut into[stamp..]);
    stamp + PACKET
}

/// Writes the record of a slot after the others of the batch.
///
/// It is inlined, so that no packet pays for a call with all of these.
#[inline(always)]
pub(crate) fn add_record(
    batch: &mut Batch,
    plan: &Plan,
    services: &mut Services<'_>,
    turn: Option<usize>,
    table: &mut IntPackets<'_>,
    slot: u64,
)
    requires room { length batch.old ≤ full_batch }
    requires stand { StandInPart (plan_fields plan.now) slot services.old table.old }
    requires turn { turn_of services.old ≡ turn }
    ensures added { (part : PartFields) (place : ℕ) → StandBefore (plan_fields plan.now) part place slot services.old table.old
        → AddsRecord (plan_fields plan.now) part place slot services.new table.new batch.old batch.new }
    ensures kept { (table.new.count ≡ table.old.count) × (services.new.behind ≡ services.old.behind) }
{
    let into = &mut batch.buffer[batch.fill..];
    batch.fill += write_record(plan, services, turn, table, slot, into);
}
