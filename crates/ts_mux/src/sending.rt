//! What was offered to the services of a plan of transport packets -> the records of their stream.
ghost use Rattle.std.specs.Prelude.{◌≡◌, ℕ, ◌≤◌, ◌<◌, ◌^◌, ◌+◌, List, [], get_or, All, true, length, sum_by, IfOk};
ghost use Rattle.wire_spec.specs.Content.{Stays};
ghost use Rattle.plan_spec.specs.Offered.{Records, offered_in};
ghost use Rattle.plan.specs.PlanView.{plan_fields};
ghost use Rattle.datagram_routing.specs.Offering.{IsOffered, IsUnderPlan, datagram_count};
ghost use Rattle.datagram_routing.specs.Leaving.{LeavesSink};
ghost use Rattle.wire_spec.specs.Causes.{HasCause};
ghost use Rattle.stream_spec.specs.Parts.{PartFields};
ghost use Rattle.ts_mux.specs.Services.{packet_total, AreTaken, HasLists, Begins};
ghost use Rattle.ts_mux.specs.Sending.{WritesPackets, WritesRecords, AreUnits, AreDatagrams};
ghost use Rattle.stream_spec.specs.Stream.{are_on_pids};

use crate::int_packets::IntPackets;
use crate::part_units::PartUnits;
use crate::services::Services;
use crate::slots::put_slots;
use datagram_routing::{
    Lists, MuxFault, Offered, Sent, each_datagram_is_for_its_service, nothing_is_left_out,
};
use ipe_io::{Failed, Sink};
use plan::Plan;
use std::alloc::{AllocError as OutOfMemory, Global};
use stream_batch::Batch;
use stream_law::there_is_one_stream;

/// How many datagrams all services have in a version.
fn count_in(lists: &Lists, version: u8) -> u32
    requires version { version < length lists.now }
    requires services { length (get_or lists.now version []) ≤ 64 }
    requires few { sum_by (λ (list : List (List ℕ)). length list) (get_or lists.now version []) < 2 ^ 32 }
    ensures read { result ≡ sum_by (λ (list : List (List ℕ)). length list) (get_or lists.now version []) }
{
    let mut count = 0;
    for service in 0..lists.services(version) as u32 {
        count += lists.at(version, service).len() as u32;
    }
    count
}

/// How many datagrams all services have in all versions.
pub fn count_datagrams(lists: &Lists) -> u32
    requires versions { length lists.now ≤ 32 }
    requires services { All (λ (services : List (List (List ℕ))). length services ≤ 64) lists.now }
    requires few { datagram_count lists.now < 2 ^ 32 }
    ensures read { result ≡ datagram_count lists.now }
{
    let mut count = 0;
    for version in 0..lists.versions() as u8 {
        count += count_in(lists, version);
    }
    count
}

/// The last version in which a service has a datagram, 0 where none has.
fn last_version(lists: &Lists) -> u8
    requires versions { (0 < length lists.now) × (length lists.now ≤ 32) }
    requires services { All (λ (services : List (List (List ℕ))). length services ≤ 64) lists.now }
    requires few { datagram_count lists.now < 2 ^ 32 }
    ensures within { result < length lists.now }
    ensures none { (version : ℕ) → result < version → version < length lists.now → sum_by (λ (list : List (List ℕ)). length list) (get_or lists.now version []) ≡ 0 }
    ensures some { 0 < result → 0 < sum_by (λ (list : List (List ℕ)). length list) (get_or lists.now result []) }
{
    let mut last = 0;
    for version in 0..lists.versions() as u8 {
        if count_in(lists, version) > 0 {
            last = version;
        }
    }
    last
}

/// What each part is sent from.
fn units_of(alloc: Global, plan: &Plan, lists: &Lists) -> Result<Vec<PartUnits>, OutOfMemory>
    requires versions { length lists.now ≡ length plan.now.changes + 1 }
    requires lists { All (AreTaken (plan_fields plan.now)) lists.now }
    requires few { datagram_count lists.now < 2 ^ 32 }
    ensures made { IfOk result (λ units. AreUnits (plan_fields plan.now) lists.now units.items) }
{
    let mut numbers = vec![in alloc; 0u32; plan.services.len()]?;
    let mut units = Vec::new(alloc);
    for version in 0..lists.versions() as u8 {
        units.push(PartUnits::new(alloc, plan, version, lists, &mut numbers)?)?;
    }
    Ok(units)
}

/// Writes the records of all parts, and answers how many they are. Memory was taken before.
fn put_parts<'a, K: Sink>(
    plan: &'a Plan,
    lists: &'a Lists,
    units: &'a [PartUnits],
    services: &mut Services<'a>,
    batch: &mut Batch,
    sink: &mut K,
) -> Result<u64, Failed>
    requires on_pids { are_on_pids (plan_fields plan.now) ≡ true }
    requires units { AreUnits (plan_fields plan.now) lists.now units.now }
    requires begun { (part : PartFields) → HasLists (plan_fields plan.now) 0 lists.now (λ k. 0) 0 part → Begins part services.old }
    requires total { packet_total services.old.turns ≤ 2 ^ 54 }
    requires few { datagram_count lists.now < 2 ^ 32 }
    requires empty { batch.old ≡ [] }
    ensures written { (datagrams : ℕ → ℕ → List (List ℕ)) → AreDatagrams (plan_fields plan.now) datagrams lists.now
        → WritesRecords (plan_fields plan.now) datagrams result (K.told sink.old).held (K.told sink.new).held }
    ensures flushed { Stays (K.told sink.old).flushed (K.told sink.new).flushed }
    ensures cause { HasCause (K.told sink.old).faults (K.told sink.new).faults result }
{
    let last = last_version(lists);
    let mut table = IntPackets::new(plan, units[0].section(), 0);
    let mut slot = put_slots(plan, services, &mut table, batch, 0, last > 0, sink)?;
    for version in 1..last + 1 {
        let part = &units[usize::from(version)];
        services.begin(plan, version, lists, part, slot);
        table = IntPackets::new(plan, part.section(), table.counter());
        slot = put_slots(
            plan,
            services,
            &mut table,
            batch,
            slot,
            version < last,
            sink,
        )?;
    }
    batch.put(sink)?;
    Ok(slot)
}

/// Writes the stream of what was offered under a plan of transport packets: those of its services in rotation or, with time slicing, in
/// bursts, and in each cycle of slots those of the INT first.
///
/// The services are of SNDUs, of datagram_sections and of MPE-FEC frames, and fewer than 2^32 records were offered.
/// On an Err a prefix of the stream was written, and nothing when out of memory. Nothing is flushed.
pub fn stream_packets<K: Sink>(
    alloc: Global,
    plan: &Plan,
    offered: &Offered,
    sink: &mut K,
) -> Result<Sent, MuxFault>
    requires on_pids { are_on_pids (plan_fields plan.now) ≡ true }
    requires offered { IsUnderPlan (plan_fields plan.now) offered.now }
    ensures written { (gives : Records) → IsOffered (plan_fields plan.now) gives offered.now
        → WritesPackets (plan_fields plan.now) (offered_in (plan_fields plan.now) gives) result (K.told sink.old).held (K.told sink.new).held }
    ensures datagrams { IfOk result (λ sent. sent.datagrams ≡ datagram_count offered.now.lists) }
    ensures leaves { LeavesSink result (K.told sink.old) (K.told sink.new) (sink.new ≡ sink.old) }
{
    there_is_one_stream();
    each_datagram_is_for_its_service();
    nothing_is_left_out();
    let lists = &offered.lists;
    let units = units_of(alloc, plan, lists)?;
    let mut services = Services::new(alloc, plan, lists, &units[0])?;
    let mut batch = Batch::new(alloc)?;
    let datagrams = count_datagrams(lists);
    match put_parts(plan, lists, &units, &mut services, &mut batch, sink) {
        Ok(packets) => Ok(Sent { packets, datagrams }),
        Err(Failed) => Err(MuxFault::Sink),
    }
}
