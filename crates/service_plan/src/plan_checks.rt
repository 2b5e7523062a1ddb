//! The checks over a whole plan, in their order.
ghost use Rattle.std.specs.Prelude.{◌≡◌, ◌≤◌, ◌<◌, ◌+◌, ◌||◌, ◌==◌, List, nat_lt, not, length, take};
ghost use Rattle.plan.specs.declared.change.Change.{Change};
ghost use Rattle.std.specs.List.{list_all, list_any, range_with_len};
ghost use Rattle.plan_spec.specs.Checks.{is_gse as is_gse_kind, has_wrong_carrier as has_bad_carrier, has_wrong_count};
ghost use Rattle.plan_spec.specs.Wholes.{has_wrong_rules as has_bad_rules};
ghost use Rattle.plan.specs.Parts.{kind_seen, urgent_seen};
ghost use Rattle.plan.specs.Moves.{services_after, service_after};
ghost use Rattle.service_plan.specs.Plans.{draft_seen};
ghost use Rattle.service_plan.specs.Reading.{AnswersOrWants, Always};
ghost use Rattle.service_plan.specs.Order.{whole_fault};

use crate::change_checks::has_wrong_change;
use crate::fault::{PlanError, PlanFault};
use crate::int_packets::most_table_packets;
use crate::settings_draft::Draft;
use crate::unique_checks::{has_same_name, has_same_pid};
use crate::window_checks::{
    has_long_cycle, has_short_gap, has_wrong_window, is_plain, needs_stamps,
};
use plan::{Change, Kind, Service, rules_after};
use std::alloc::Global;

/// The rules of all services together, the urgent ones among them, at most.
const MOST_RULES: usize = 128;

fn is_gse(kind: &Kind) -> bool
    ensures read { result ≡ is_gse_kind (kind_seen kind.now) }
{
    match kind {
        Kind::Gse { .. } => true,
        _ => false,
    }
}

/// Whether GSE packets carry all services.
fn are_gse(services: &[Service]) -> bool
    ensures read { result ≡ list_all (λ s. is_gse_kind (kind_seen s.kind)) services.now }
{
    services.iter().all(|service| is_gse(&service.kind))
}

/// Whether GSE packets carry one of the services.
fn has_gse(services: &[Service]) -> bool
    ensures read { result ≡ list_any (λ s. is_gse_kind (kind_seen s.kind)) services.now }
{
    services.iter().any(|service| is_gse(&service.kind))
}

/// Carrier.
fn has_wrong_carrier(draft: &Draft) -> bool
    ensures read { result ≡ has_bad_carrier (draft_seen draft.now) }
{
    let services = draft.services.items();
    if draft.frame_bytes.is_some() {
        return !are_gse(services) | (draft.table.is_some() | !is_plain(draft.recording));
    }
    has_gse(services)
}

/// How many urgent rules a kind has.
fn urgent_of_kind(kind: &Kind) -> usize
    ensures { result ≡ length (urgent_seen kind.now) }
{
    match kind {
        Kind::Gse { urgent, .. } => urgent.len(),
        _ => 0,
    }
}

/// How many urgent rules a service has, after whatever changes: they move none of these.
fn urgent_count(services: &[Service], service: u32) -> usize
    requires { service < length services.now }
    ensures { (changes : List Change) → result ≡ length (service_after services.now changes service).urgent }
{
    let k = service as usize;
    urgent_of_kind(&services[k].kind)
}

/// Whether a service has no rule, or, with its urgent ones, more than those before it leave.
fn is_wrong_count(count: usize, urgent: usize, total: usize) -> bool
    requires { total ≤ 128 }
    ensures { result ≡ ((count == 0) || nat_lt 128 (total + (count + urgent))) }
{
    if count == 0 || count > MOST_RULES - total {
        return true;
    }
    urgent > MOST_RULES - total - count
}

/// Whether a service has no rule after some changes, or there are more rules than a plan may have.
fn has_wrong_counts(services: &[Service], changes: &[Change]) -> bool
    requires { length services.now ≤ 64 }
    ensures { result ≡ has_wrong_count (services_after services.now changes.now) }
{
    let mut total = 0;
    for service in 0..services.len() {
        let count = rules_after(services, changes, service as u32).len();
        let urgent = urgent_count(services, service as u32);
        if is_wrong_count(count, urgent, total) {
            return true;
        }
        total += count + urgent;
    }
    false
}

/// Whether the counts are wrong in a version.
fn any_wrong_counts(services: &[Service], changes: &[Change]) -> bool
    requires { length services.now ≤ 64 }
    ensures { result ≡ list_any (λ version. has_wrong_count (services_after services.now (take version changes.now))) (range_with_len 0 (length changes.now + 1)) }
{
    for version in 0..changes.len() + 1 {
        if has_wrong_counts(services, &changes[..version]) {
            return true;
        }
    }
    false
}

/// Rules.
fn has_wrong_rules(draft: &Draft) -> bool
    requires { length draft.now.services ≤ 64 }
    ensures read { result ≡ (not draft.now.spelled || has_bad_rules (draft_seen draft.now)) }
{
    let wrong = any_wrong_counts(draft.services.items(), draft.changes.items());
    !draft.spelled | wrong
}

/// Answers the first check over the whole that fails.
pub(crate) fn check_whole(alloc: Global, draft: &Draft) -> Result<(), PlanError>
    requires rate { 1 ≤ draft.now.packet_rate }
    requires services { length draft.now.services ≤ 64 }
    ensures read { AnswersOrWants result (whole_fault draft.now.spelled (draft_seen draft.now)) Always }
{
    if has_wrong_carrier(draft) {
        return Err(PlanError::Fault(PlanFault::Carrier));
    }
    if has_same_name(draft) {
        return Err(PlanError::Fault(PlanFault::SameName));
    }
    if has_same_pid(draft) {
        return Err(PlanError::Fault(PlanFault::SamePid));
    }
    if has_wrong_change(alloc, draft)? {
        return Err(PlanError::Fault(PlanFault::Change));
    }
    if has_wrong_rules(draft) {
        return Err(PlanError::Fault(PlanFault::Rules));
    }
    if needs_stamps(draft) {
        return Err(PlanError::Fault(PlanFault::NeedsStamps));
    }
    if has_wrong_window(draft, most_table_packets(draft)) {
        return Err(PlanError::Fault(PlanFault::Window));
    }
    if has_short_gap(draft) {
        return Err(PlanError::Fault(PlanFault::Gap));
    }
    if has_long_cycle(draft) {
        return Err(PlanError::Fault(PlanFault::Delta));
    }
    Ok(())
}
