//! A plan -> the section of its INT (EN 301 192 clause 8.4).
ghost use Rattle.std.specs.Prelude.{◌≡◌, ◌<◌, ◌≤◌, true, length, All, Some, IfOk};
ghost use Rattle.std.specs.List.{list_all};
ghost use Rattle.int_spec.specs.Table.{IsRule, table_bytes};
ghost use Rattle.plan_spec.specs.Signalling.{burst_duration, slices_of as slices_of_kind, table_of as table_of_plan};
ghost use Rattle.plan_spec.specs.Valid.{is_valid_rule};
ghost use Rattle.plan_spec.specs.Changes.{plan_in};
ghost use Rattle.plan.specs.Parts.{int_seen, kind_seen};
ghost use Rattle.plan.specs.PlanView.{plan_fields};
ghost use Rattle.ts_mux.specs.ServiceUnits.{HasFrames, HasShortBursts};

use addr_rules::{Rule, RuleList};
use byte_slices::array_bytes;
use int_table::{IntEntry, IntTable};
use ip_datagram::IpAddress;
use plan::{IntPlan, Kind, Plan, Service, rules_in};
use section_codec::SectionForm;
use std::alloc::{AllocError as OutOfMemory, Global};
use unit_stream::UnitForm;

/// Microseconds in a second.
const MICROS: u64 = 1_000_000;

/// Microseconds of a unit of max_burst_duration (EN 301 192 clause 9.5).
const DURATION_UNIT: u64 = 20_000;

/// The rule, of which this says how many bytes its address has.
fn same_rule(rule: &Rule) -> Rule
    requires { is_valid_rule rule.now ≡ true }
    ensures same { result ≡ rule.now }
    ensures is { IsRule rule.now }
{
    let _ = match &rule.address {
        IpAddress::V4(address) => array_bytes(address),
        IpAddress::V6(address) => array_bytes(address),
    };
    *rule
}

/// A list of the same rules.
fn same_rules(alloc: Global, rules: &RuleList) -> Result<RuleList, OutOfMemory>
    requires { list_all is_valid_rule rules.now ≡ true }
    ensures same { IfOk result (λ copy. copy ≡ rules.now) }
    ensures are { IfOk result (λ copy. All IsRule rules.now) }
{
    let mut copy = RuleList::new(alloc);
    for place in 0..rules.len() {
        copy.push(same_rule(rules.at(place)))?;
    }
    Ok(copy)
}

/// max_burst_duration of a window of so many slots: the units of 20 ms that it lasts, rounded up, less one (EN 301 192 clause 9.5).
fn duration_of(packet_rate: u32, slots: u32) -> u8
    requires rate { 0 < packet_rate }
    requires short { burst_duration packet_rate slots ≤ 255 }
    ensures { result ≡ burst_duration packet_rate slots }
{
    let micros = u64::from(slots) * MICROS / u64::from(packet_rate);
    ((micros.max(1) - 1) / DURATION_UNIT) as u8
}

/// The first bytes of the time_slice_fec_identifier_descriptor of a service that has frames (EN 301 192 clause 9.5).
fn slices_of(packet_rate: u32, kind: &Kind) -> Option<[u8; 3]>
    requires frames { HasFrames (kind_seen kind.now) }
    requires rate { 0 < packet_rate }
    requires short { HasShortBursts packet_rate (kind_seen kind.now) }
    ensures written { result ≡ slices_of_kind packet_rate (kind_seen kind.now) }
{
    match kind {
        Kind::Fec { rows, window, .. } => {
            let frame_size = (*rows / 256 - 1) as u8;
            match *window {
                Some(window) => {
                    let duration = duration_of(packet_rate, window.1);
                    Some([0xB8 + frame_size, duration, 0x70])
                }
                None => Some([0x38 + frame_size, 0xFF, 0x70]),
            }
        }
        _ => None,
    }
}

/// The entry of a service with these rules.
fn entry_of(
    alloc: Global,
    packet_rate: u32,
    service: &Service,
    rules: &RuleList,
) -> Result<IntEntry, OutOfMemory>
    requires rate { 0 < packet_rate }
    requires rules { list_all is_valid_rule rules.now ≡ true }
    requires frames { HasFrames (kind_seen service.now.kind) }
    requires short { HasShortBursts packet_rate (kind_seen service.now.kind) }
    ensures rules { IfOk result (λ entry. entry.rules ≡ rules.now) }
    ensures service_id { IfOk result (λ entry. entry.service_id ≡ service.now.service_id) }
    ensures component_tag { IfOk result (λ entry. entry.component_tag ≡ service.now.component_tag) }
    ensures slices { IfOk result (λ entry. entry.slices ≡ slices_of_kind packet_rate (kind_seen service.now.kind)) }
    ensures are { IfOk result (λ entry. All IsRule rules.now) }
{
    Ok(IntEntry {
        rules: same_rules(alloc, rules)?,
        service_id: service.service_id,
        component_tag: service.component_tag,
        slices: slices_of(packet_rate, &service.kind),
    })
}

/// The INT of a version of a plan.
fn table_of(alloc: Global, plan: &Plan, version: u8, int: &IntPlan) -> Result<IntTable, OutOfMemory>
    requires version { version ≤ length plan.now.changes }
    requires int { (plan_fields plan.now).table ≡ Some (int_seen int.now) }
    ensures written { IfOk result (λ table. table ≡ table_of_plan (plan_in (plan_fields plan.now) version) (int_seen int.now)) }
    ensures fits { IfOk result (λ table. length (table_bytes table) ≤ 4096) }
{
    let mut table = IntTable::new(
        alloc,
        version,
        int.platform_id,
        int.network_id,
        int.original_network_id,
        int.transport_stream_id,
    );
    for place in 0..plan.services.len() {
        let rules = rules_in(plan, version, place as u32);
        let entry = entry_of(alloc, plan.packet_rate, plan.services.at(place), rules)?;
        let Ok(()) = table.push(entry) else {
            return Err(OutOfMemory);
        };
    }
    Ok(table)
}

/// The section of the INT of a version of a plan, 0 for the plan before any change (EN 301 192 clause 8.4); at most 4,096 bytes.
pub fn int_section(
    alloc: Global,
    plan: &Plan,
    version: u8,
    int: &IntPlan,
) -> Result<Vec<u8>, OutOfMemory>
    requires version { version ≤ length plan.now.changes }
    requires int { (plan_fields plan.now).table ≡ Some (int_seen int.now) }
    ensures written { IfOk result (λ section. section.items ≡ table_bytes (table_of_plan (plan_in (plan_fields plan.now) version) (int_seen int.now))) }
    ensures most { IfOk result (λ section. length section.items ≤ 4096) }
{
    let table = table_of(alloc, plan, version, int)?;
    let mut section = [0u8; SectionForm::LONGEST];
    let Ok(size) = table.write(&mut section) else {
        unreachable!();
    };
    Vec::from_slice(alloc, &section[..size])
}
