//! Slot after slot of a part, up to the last packet of its services: a record of each goes to the batch, and full batches to the sink.
ghost use Rattle.std.specs.Prelude.{◌≡◌, ◌≤◌, ◌<◌, ◌+◌, ◌^◌, ℕ, List, Option, false, length, OnOk};
ghost use Rattle.wire_spec.specs.Causes.{HasCause};
ghost use Rattle.wire_spec.specs.Content.{Stays};
ghost use Rattle.plan.specs.PlanView.{plan_fields};
ghost use Rattle.stream_spec.specs.Parts.{PartFields};
ghost use Rattle.stream_batch.specs.Handing.{full_batch};
ghost use Rattle.ts_mux.specs.Slots.{StandBefore, IsFew, IsOver, AreHanded, WritesSlots, FillsCycle};

use crate::int_packets::IntPackets;
use crate::records::add_record;
use crate::services::Services;
use ipe_io::{Failed, Sink};
use plan::Plan;
use stream_batch::Batch;

/// Writes the records of the slots of a part up to the last packet of its services; the first is this slot of the stream. Answers the
/// slot behind them.
fn put_packets<K: Sink>(
    plan: &Plan,
    services: &mut Services<'_>,
    table: &mut IntPackets<'_>,
    batch: &mut Batch,
    first: u64,
    sink: &mut K,
) -> Result<u64, Failed>
    requires stand { (part : PartFields) × StandBefore (plan_fields plan.now) part 0 first services.old table.old × IsFew part first }
    requires room { length batch.old ≤ full_batch }
    ensures written { (part : PartFields) → StandBefore (plan_fields plan.now) part 0 first services.old table.old
        → WritesSlots (plan_fields plan.now) part false result (K.told sink.old).held (K.told sink.new).held batch.old batch.new services.new table.new }
    ensures room { OnOk result (length batch.new ≤ full_batch) }
    ensures behind { services.new.behind ≡ services.old.behind }
    ensures flushed { Stays (K.told sink.old).flushed (K.told sink.new).flushed }
    ensures cause { HasCause (K.told sink.old).faults (K.told sink.new).faults result }
{
    let mut slot = first;
    let mut turn = services.turn();
    while services.has_packets(turn) {
        add_record(batch, plan, services, turn, table, slot);
        slot += 1;
        batch.put_full(sink)?;
        turn = services.turn();
    }
    Ok(slot)
}

/// Writes the records of all slots of a part, the first of which is this slot of the stream; answers the slot behind them.
///
/// Where `fills` is true the part ends with a cycle.
pub(crate) fn put_slots<K: Sink>(
    plan: &Plan,
    services: &mut Services<'_>,
    table: &mut IntPackets<'_>,
    batch: &mut Batch,
    first: u64,
    fills: bool,
    sink: &mut K,
) -> Result<u64, Failed>
    requires stand { (part : PartFields) × StandBefore (plan_fields plan.now) part 0 first services.old table.old × IsFew part first }
    requires room { length batch.old ≤ full_batch }
    ensures written { (part : PartFields) → StandBefore (plan_fields plan.now) part 0 first services.old table.old
        → WritesSlots (plan_fields plan.now) part fills result (K.told sink.old).held (K.told sink.new).held batch.old batch.new services.new table.new }
    ensures room { OnOk result (length batch.new ≤ full_batch) }
    ensures behind { services.new.behind ≡ services.old.behind }
    ensures flushed { Stays (K.told sink.old).flushed (K.told sink.new).flushed }
    ensures cause { HasCause (K.told sink.old).faults (K.told sink.new).faults result }
{
    let slot = put_packets(plan, services, table, batch, first, sink)?;
    if fills {
        fill_cycle(plan, services, table, batch, slot, sink)
    } else {
        Ok(slot)
    }
}

/// Writes the records of the slots up to the end of the cycle, where no packets of services are left; answers the slot behind them.
fn fill_cycle<K: Sink>(
    plan: &Plan,
    services: &mut Services<'_>,
    table: &mut IntPackets<'_>,
    batch: &mut Batch,
    from: u64,
    sink: &mut K,
) -> Result<u64, Failed>
    requires stand { (part : PartFields) × (place : ℕ) × StandBefore (plan_fields plan.now) part place from services.old table.old × IsOver part place }
    requires room { length batch.old ≤ full_batch }
    requires few { from + 1000000 < 2 ^ 64 }
    ensures filled { (part : PartFields) (place : ℕ) (held : Option (List ℕ)) (before : List ℕ) → StandBefore (plan_fields plan.now) part place from services.old table.old
        → AreHanded part place held (K.told sink.old).held before batch.old
        → FillsCycle (plan_fields plan.now) part place result held (K.told sink.new).held before batch.new services.new table.new }
    ensures room { OnOk result (length batch.new ≤ full_batch) }
    ensures behind { services.new.behind ≡ services.old.behind }
    ensures flushed { Stays (K.told sink.old).flushed (K.told sink.new).flushed }
    ensures cause { HasCause (K.told sink.old).faults (K.told sink.new).faults result }
{
    let mut slot = from;
    while slot % u64::from(plan.cycle) != 0 {
        add_record(batch, plan, services, None, table, slot);
        slot += 1;
        batch.put_full(sink)?;
    }
    Ok(slot)
}
