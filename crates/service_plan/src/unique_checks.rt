//! Two services with one name, or one PID or ISI.
ghost use Rattle.std.specs.Prelude.{◌≡◌, ◌+◌, ◌<◌, length, drop, false, ◌==◌, bytes_eq, Some, option_map};
ghost use Rattle.std.specs.List.{list_any, filter_map};
ghost use Rattle.plan_spec.specs.Checks.{has_pair, has_same_name as has_one_name, has_same_pid as has_one_pid};
ghost use Rattle.settings_spec.specs.Keys.{holds};
ghost use Rattle.plan.specs.Parts.{kind_seen, int_seen};
ghost use Rattle.service_plan.specs.Plans.{draft_seen};
ghost use Rattle.service_plan.specs.Wholes.{id_seen, ids_seen, int_shares};

use crate::settings_draft::Draft;
use plan::{IntPlan, Kind, Service};

/// Whether one of the services has this name.
fn has_name(services: &[Service], name: &str) -> bool
    ensures read { result ≡ list_any (λ s. bytes_eq name.now s.name) services.now }
{
    services.iter().any(|service| name == service.name.text())
}

/// The services after a place.
pub(crate) fn after(services: &[Service], place: usize) -> &[Service]
    requires { place < length services.now }
    ensures read { result.now ≡ drop (place + 1) services.now }
{
    &services[place + 1..]
}

/// Whether two services have one name.
fn has_pair_of_names(services: &[Service]) -> bool
    ensures read { result ≡ has_pair bytes_eq (filter_map (λ s. Some s.name) services.now) }
{
    for i in 0..services.len() {
        let service = &services[i];
        if has_name(after(services, i), service.name.text()) {
            return true;
        }
    }
    false
}

/// The ISI of a service in baseband frames, or the PID of another.
fn id_of(kind: &Kind, baseband: bool) -> Option<u16>
    ensures read { result ≡ id_seen baseband (kind_seen kind.now) }
{
    match kind {
        Kind::Ule { pid, .. } => if baseband { None } else { Some(*pid) },
        Kind::Mpe { pid } => if baseband { None } else { Some(*pid) },
        Kind::Fec { pid, .. } => if baseband { None } else { Some(*pid) },
        Kind::Gse { isi, .. } => if baseband {
            Some(u16::from(*isi))
        } else {
            None
        },
    }
}

/// Whether the service has this PID or ISI.
fn is_id(kind: &Kind, baseband: bool, id: u16) -> bool
    ensures read { result ≡ holds (λ x. id == x) (id_seen baseband (kind_seen kind.now)) }
{
    match id_of(kind, baseband) {
        Some(other) => id == other,
        None => false,
    }
}

/// Whether one of the services has this PID or ISI.
fn has_id(services: &[Service], baseband: bool, id: u16) -> bool
    ensures read { result ≡ list_any (λ s. holds (λ x. id == x) (id_seen baseband (kind_seen s.kind))) services.now }
{
    services
        .iter()
        .any(|service| is_id(&service.kind, baseband, id))
}

/// Whether two services have one PID or ISI.
fn has_pair_of_ids(services: &[Service], baseband: bool) -> bool
    ensures read { result ≡ has_pair (λ a b. a == b) (filter_map (λ s. id_seen baseband (kind_seen s.kind)) services.now) }
{
    for i in 0..services.len() {
        let service = &services[i];
        let id = match id_of(&service.kind, baseband) {
            Some(id) => id,
            None => continue,
        };
        if has_id(after(services, i), baseband, id) {
            return true;
        }
    }
    false
}

/// SameName: two services have one name.
pub(crate) fn has_same_name(draft: &Draft) -> bool
    ensures read { result ≡ has_one_name (draft_seen draft.now) }
{
    has_pair_of_names(draft.services.items())
}

/// A service has the PID of the INT.
fn has_int_pid(table: &Option<IntPlan>, services: &[Service]) -> bool
    ensures read { result ≡ int_shares (option_map int_seen table.now) (ids_seen false services.now) }
{
    match table {
        Some(int) => has_id(services, false, int.pid),
        None => false,
    }
}

/// SamePid: two services, or a service and the INT, have one PID, or two services one ISI.
pub(crate) fn has_same_pid(draft: &Draft) -> bool
    ensures read { result ≡ has_one_pid (draft_seen draft.now) }
{
    let services = draft.services.items();
    has_int_pid(&draft.table, services)
        | (has_pair_of_ids(services, false) | has_pair_of_ids(services, true))
}
