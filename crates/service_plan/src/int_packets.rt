//! How many packets the INT takes in each cycle (EN 301 192 clause 8.4).
ghost use Rattle.std.specs.Prelude.{◌≡◌, ℕ, ◌≤◌, false, length, map, flat_map, sum_by, max};
ghost use Rattle.int_spec.specs.Table.{TableFields, entry_bytes};
ghost use Rattle.int_table.specs.Views.{HaveSlices};
ghost use Rattle.plan_spec.specs.Plan.{all_rule_lists};
ghost use Rattle.plan_spec.specs.Checks.{has_too_many_rules};
ghost use Rattle.plan_spec.specs.Signalling.{entry_of, slices_of, table_packets as packets_of_plan};
ghost use Rattle.plan_spec.specs.Changes.{plan_in};
ghost use Rattle.plan_spec.specs.Wholes.{has_wrong_rules, most_table_packets as most_packets};
ghost use Rattle.plan.specs.Parts.{kind_seen};
ghost use Rattle.plan.specs.Moves.{services_after};
ghost use Rattle.service_plan.specs.Plans.{draft_seen};

use crate::settings_draft::Draft;
use int_table::{entry_size, section_size};
use plan::{Change, Kind, Service, rules_after};

/// Whether the entry of a service has a time_slice_fec_identifier_descriptor, as those with frames have.
fn has_identifier(kind: &Kind) -> bool
    ensures read { (packet_rate : ℕ) → HaveSlices result (slices_of packet_rate (kind_seen kind.now)) }
{
    match kind {
        Kind::Fec { .. } => true,
        _ => false,
    }
}

/// The bytes of the entries of all services after some changes.
fn entries_size(services: &[Service], changes: &[Change]) -> usize
    requires few { length services.now ≤ 64 }
    requires rules { sum_by length (map (λ s. s.rules) (services_after services.now changes.now)) ≤ 128 }
    ensures read { (table : TableFields) (packet_rate : ℕ) → result ≡ length (flat_map (entry_bytes table) (map (entry_of packet_rate) (services_after services.now changes.now))) }
    ensures most { result ≤ 3712 }
{
    let mut total = 0;
    for service in 0..services.len() {
        let kept = &services[service];
        let rules = rules_after(services, changes, service as u32);
        total += entry_size(rules, has_identifier(&kept.kind));
    }
    total
}

/// The packets of the INT of a version, none without one.
fn table_packets(draft: &Draft, version: usize) -> u32
    requires services { length draft.now.services ≤ 64 }
    requires version { version ≤ length draft.now.changes }
    requires rules { has_too_many_rules (all_rule_lists (plan_in (draft_seen draft.now) version)) ≡ false }
    ensures read { result ≡ packets_of_plan (plan_in (draft_seen draft.now) version) }
{
    match &draft.table {
        Some(_) => {
            let changes = draft.changes.items();
            let entries = entries_size(draft.services.items(), &changes[..version]);
            let size = section_size(entries);
            ((1 + size + 183) / 184) as u32
        }
        None => 0,
    }
}

/// The greater of two numbers.
fn greater(one: u32, other: u32) -> u32
    ensures { result ≡ max one other }
{
    if one < other { other } else { one }
}

/// The most packets that the INT takes in a version.
pub(crate) fn most_table_packets(draft: &Draft) -> u32
    requires services { length draft.now.services ≤ 64 }
    requires rules { has_wrong_rules (draft_seen draft.now) ≡ false }
    ensures read { result ≡ most_packets (draft_seen draft.now) }
{
    let changes = draft.changes.items();
    let mut most = 0;
    for version in 0..changes.len() + 1 {
        most = greater(most, table_packets(draft, version));
    }
    most
}
