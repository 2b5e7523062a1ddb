//! A packet -> the receiver of its PID: the INT's, or that of a service.
ghost use Rattle.std.specs.Prelude.{◌≡◌, ◌^◌, ◌<◌, ◌≤◌, true, false, List, [], ◌∷◌, ◌++◌, length, IfOk, OnOk, OnErr};
ghost use Rattle.wire_spec.specs.Causes.{HasCause};
ghost use Rattle.ts_spec.specs.Recording.{Record};
ghost use Rattle.plan_spec.specs.Changes.{plan_in};
ghost use Rattle.plan.specs.PlanView.{plan_fields};
ghost use Rattle.reception_spec.specs.Packets.{is_pid_of};
ghost use Rattle.reception_spec.specs.Spans.{version_at_end};
ghost use Rattle.reception_spec.specs.Delivered.{pairs_of_record};
ghost use Rattle.service_reception.specs.Reception.{packet_record};
ghost use Rattle.demux_core.specs.Contents.{IsRead};
ghost use Rattle.demux_core.specs.Places.{AreFound};
ghost use Rattle.outlet_spec.specs.Pairs.{Delivers, DeliversFront};
ghost use Rattle.demux_core.specs.Services.{FitsPlan, HaveAllReceived, is_table_pid};

use crate::int_receiver::{IntReceiver, take_for_int, version_in_force};
use crate::services::{Services, place_of};
use crate::switch::move_services;
use ipe_io::{Failed, Outlet};
use plan::Plan;
use ts_packet::Packet;

/// Takes a packet where it is one of the INT's PID, and says whether it is. Where it puts another version of the plan in
/// force, all services move to their PIDs of that version.
fn receive_int<T: Outlet>(
    plan: &Plan,
    table: &mut Option<IntReceiver<'_>>,
    services: &mut Services<'_>,
    bytes: &[u8; 188],
    packet: &Packet<'_>,
    moment: u64,
    outlet: &mut T,
) -> Result<bool, Failed>
    requires read { IsRead packet.now bytes.now }
    requires fits { FitsPlan (plan_fields plan.now) (length services.old.receivers.items) table.old }
    requires served { length plan.now.services ≤ T.services outlet.old }
    requires found { AreFound services.old }
    ensures taken { IfOk result (λ taken. taken ≡ is_table_pid table.old packet.now.pid) }
    ensures of_table { OnErr result (is_table_pid table.old packet.now.pid ≡ true) }
    ensures received { (records : List Record) → length records < 2 ^ 32 → HaveAllReceived false (plan_fields plan.now) services.old.receivers.items table.old records
        → is_table_pid table.old packet.now.pid ≡ true → HaveAllReceived false (plan_fields plan.now) services.new.receivers.items table.new (records ++ packet_record moment bytes.now ∷ []) }
    ensures written { (records : List Record) → length records < 2 ^ 32 → HaveAllReceived false (plan_fields plan.now) services.old.receivers.items table.old records
        → is_table_pid table.old packet.now.pid ≡ true
        → OnOk result (Delivers (T.StandsFor outlet.old) (T.StandsFor outlet.new) (pairs_of_record (plan_fields plan.now) (records ++ packet_record moment bytes.now ∷ []) (length records))) }
    ensures failed { (records : List Record) → length records < 2 ^ 32 → HaveAllReceived false (plan_fields plan.now) services.old.receivers.items table.old records
        → OnErr result (DeliversFront (T.StandsFor outlet.old) (T.StandsFor outlet.new) (T.Refused outlet.new) (pairs_of_record (plan_fields plan.now) (records ++ packet_record moment bytes.now ∷ []) (length records))) }
    ensures left { is_table_pid table.old packet.now.pid ≡ false → (services.new ≡ services.old) × (table.new ≡ table.old) × (outlet.new ≡ outlet.old) }
    ensures services { T.services outlet.new ≡ T.services outlet.old }
    ensures cause { HasCause (T.faults outlet.old) (T.faults outlet.new) result }
    ensures fits { FitsPlan (plan_fields plan.now) (length services.new.receivers.items) table.new }
    ensures found { AreFound services.new }
{
    let before = version_in_force(table);
    if !take_for_int(table, bytes, packet, moment) {
        return Ok(false);
    }
    let version = version_in_force(table);
    if version != before {
        move_services(plan, version, services, outlet)?;
    }
    Ok(true)
}

/// Takes a packet, delivers what ends in it, and says whether its PID is one of the plan, in the version in force.
pub(crate) fn receive_packet<T: Outlet>(
    plan: &Plan,
    table: &mut Option<IntReceiver<'_>>,
    services: &mut Services<'_>,
    bytes: &[u8; 188],
    packet: &Packet<'_>,
    moment: u64,
    outlet: &mut T,
) -> Result<bool, Failed>
    requires read { IsRead packet.now bytes.now }
    requires in_range { packet.now.pid ≤ 8191 }
    requires fits { FitsPlan (plan_fields plan.now) (length services.old.receivers.items) table.old }
    requires served { length plan.now.services ≤ T.services outlet.old }
    requires found { AreFound services.old }
    ensures received { (records : List Record) → length records < 2 ^ 32 → HaveAllReceived false (plan_fields plan.now) services.old.receivers.items table.old records
        → HaveAllReceived false (plan_fields plan.now) services.new.receivers.items table.new (records ++ packet_record moment bytes.now ∷ []) }
    ensures known { (records : List Record) → HaveAllReceived false (plan_fields plan.now) services.old.receivers.items table.old records
        → IfOk result (λ known. known ≡ is_pid_of (plan_in (plan_fields plan.now) (version_at_end (plan_fields plan.now) records)) packet.now.pid) }
    ensures of_plan { (records : List Record) → HaveAllReceived false (plan_fields plan.now) services.old.receivers.items table.old records
        → OnErr result (is_pid_of (plan_in (plan_fields plan.now) (version_at_end (plan_fields plan.now) records)) packet.now.pid ≡ true) }
    ensures written { (records : List Record) → length records < 2 ^ 32 → HaveAllReceived false (plan_fields plan.now) services.old.receivers.items table.old records
        → OnOk result (Delivers (T.StandsFor outlet.old) (T.StandsFor outlet.new) (pairs_of_record (plan_fields plan.now) (records ++ packet_record moment bytes.now ∷ []) (length records))) }
    ensures failed { (records : List Record) → length records < 2 ^ 32 → HaveAllReceived false (plan_fields plan.now) services.old.receivers.items table.old records
        → OnErr result (DeliversFront (T.StandsFor outlet.old) (T.StandsFor outlet.new) (T.Refused outlet.new) (pairs_of_record (plan_fields plan.now) (records ++ packet_record moment bytes.now ∷ []) (length records))) }
    ensures fits { FitsPlan (plan_fields plan.now) (length services.new.receivers.items) table.new }
    ensures found { AreFound services.new }
    ensures services { T.services outlet.new ≡ T.services outlet.old }
    ensures cause { HasCause (T.faults outlet.old) (T.faults outlet.new) result }
{
    if receive_int(plan, table, services, bytes, packet, moment, outlet)? {
        return Ok(true);
    }
    let at = match place_of(services, packet.pid) {
        Some(at) => at,
        None => return Ok(false),
    };
    let filter = &plan.services.at(at).filter;
    services.receivers[at].take(bytes, packet, moment, filter, at as u32, outlet)?;
    Ok(true)
}
