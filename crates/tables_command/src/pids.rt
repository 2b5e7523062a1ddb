//! The PIDs of a plan: those of the INT and of services, before changes and after.
ghost use Rattle.std.specs.Prelude.{◌≡◌, option_map};
ghost use Rattle.plan_spec.specs.Plan.{pid_of as pid_of_kind, table_pids};
ghost use Rattle.plan.specs.Parts.{int_seen, kind_seen};
ghost use Rattle.plan.specs.PlanView.{plan_fields};
ghost use Rattle.psi_spec.specs.Tables.{used_pids, is_among};
ghost use Rattle.tables_command.specs.Pids.{is_pid as is_this_pid, has_service_on, has_moved_to, has_change_to};

use plan::{Change, IntPlan, Kind, Moved, Plan, Service};

/// The PID of a service; a GSE service has none.
pub(crate) fn pid_of(kind: &Kind) -> Option<u16>
    ensures { result ≡ pid_of_kind (kind_seen kind.now) }
{
    match kind {
        Kind::Ule { pid, .. } => Some(*pid),
        Kind::Mpe { pid } => Some(*pid),
        Kind::Fec { pid, .. } => Some(*pid),
        Kind::Gse { .. } => None,
    }
}

/// Whether a service is on this PID.
fn is_on(kind: &Kind, pid: u16) -> bool
    ensures { result ≡ is_this_pid pid (pid_of_kind (kind_seen kind.now)) }
{
    match pid_of(kind) {
        Some(own) => own == pid,
        None => false,
    }
}

/// Whether one of the services is.
fn has_service(services: &[Service], pid: u16) -> bool
    ensures { result ≡ has_service_on pid services.now }
{
    services.iter().any(|service| is_on(&service.kind, pid))
}

/// Whether a service moves to this PID.
fn has_moved(moved: &[Moved], pid: u16) -> bool
    ensures { result ≡ has_moved_to pid moved.now }
{
    moved.iter().any(|one| one.pid == pid)
}

/// Whether one does by one of the changes.
fn has_change(changes: &[Change], pid: u16) -> bool
    ensures { result ≡ has_change_to pid changes.now }
{
    changes
        .iter()
        .any(|change| has_moved(change.moved.items(), pid))
}

/// Whether the INT is on this PID.
fn has_int(table: &Option<IntPlan>, pid: u16) -> bool
    ensures { result ≡ is_among (table_pids (option_map int_seen table.now)) pid }
{
    match table {
        Some(int) => int.pid == pid,
        None => false,
    }
}

/// Whether the INT has the PID, or a service has, before changes of the plan or after.
pub(crate) fn is_used(plan: &Plan, pid: u16) -> bool
    ensures { result ≡ is_among (used_pids (plan_fields plan.now)) pid }
{
    if has_int(&plan.table, pid) {
        return true;
    }
    if has_service(plan.services.items(), pid) {
        return true;
    }
    has_change(plan.changes.items(), pid)
}
