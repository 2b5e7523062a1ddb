//! Another version of the plan -> each service on its PID of that version, and the frames under way on the PIDs that are left, closed.
//! And the end, where all frames under way are.
ghost use Rattle.std.specs.Prelude.{◌≡◌, ℕ, ◌^◌, ◌<◌, ◌≤◌, false, true, List, length, OnOk, OnErr};
ghost use Rattle.wire_spec.specs.Causes.{HasCause};
ghost use Rattle.ts_spec.specs.Recording.{RecordingForm, Record};
ghost use Rattle.plan_spec.specs.Plan.{ServiceFields};
ghost use Rattle.plan_spec.specs.Changes.{pid_in as pid_in_version};
ghost use Rattle.plan.specs.PlanView.{plan_fields};
ghost use Rattle.reception_law.specs.Words.{closed_by};
ghost use Rattle.outlet_spec.specs.Going.{DeliversAfter, GoesOn};
ghost use Rattle.outlet_spec.specs.Pairs.{pairs_of_all, Delivers, DeliversFront};
ghost use Rattle.demux_core.specs.Services.{IsEndingOne, HaveReceived};
ghost use Rattle.demux_core.specs.Moving.{Follows, AllFollow, where_left, closed_by_switch, closed_at};
ghost use Rattle.demux_core.specs.Places.{AreFound};

use crate::places::renew_places;
use crate::service::ServiceReceiver;
use crate::services::Services;
use ipe_io::{Failed, Outlet};
use plan::{Plan, pid_in};

/// Moves a service to its PID in a version, where it has another one there. The frame under way is closed first, and its datagrams are
/// delivered where none was refused before.
fn follow<T: Outlet>(
    plan: &Plan,
    version: u8,
    service: u32,
    receiver: &mut ServiceReceiver<'_>,
    went: Result<(), Failed>,
    outlet: &mut T,
) -> Result<(), Failed>
    requires version { version ≤ length plan.now.changes }
    requires service { service < length plan.now.services }
    requires served { service < T.services outlet.old }
    ensures followed { Follows (pid_in_version (plan_fields plan.now) version service) receiver.old receiver.new }
    ensures delivered { (form : RecordingForm) (it : ServiceFields) (records : List Record) → IsEndingOne form it receiver.old.reception records
        → DeliversAfter T.StandsFor T.Refused service (where_left (pid_in_version (plan_fields plan.now) version service) receiver.old.pid (closed_by form it records)) (record { outlet = outlet.old; went = went }) (record { outlet = outlet.new; went = result }) }
    ensures goes { GoesOn T.services T.faults (record { outlet = outlet.old; went = went }) (record { outlet = outlet.new; went = result }) }
{
    match pid_in(plan, version, service) {
        Some(pid) => {
            if pid == receiver.pid {
                return went;
            }
            let went = receiver.close(service, went, outlet);
            receiver.move_to(pid);
            went
        }
        None => went,
    }
}

/// Moves each service to its PID in a version that a record put in force, in the order of the plan. On a PID that a service leaves
/// nothing more is received: the frames under way there are closed.
///
/// Failed: the outlet refused a datagram, and those after it are not offered. The services move all the same.
pub(crate) fn move_services<T: Outlet>(
    plan: &Plan,
    version: u8,
    services: &mut Services<'_>,
    outlet: &mut T,
) -> Result<(), Failed>
    requires version { version ≤ length plan.now.changes }
    requires count { length services.old.receivers.items ≡ length plan.now.services }
    requires few { length plan.now.services ≤ 64 }
    requires served { length plan.now.services ≤ T.services outlet.old }
    requires found { AreFound services.old }
    ensures followed { AllFollow (plan_fields plan.now) version services.old.receivers.items services.new.receivers.items }
    ensures delivered { (was : ℕ) (records : List Record) → length records ≤ 2 ^ 32 → HaveReceived false (plan_fields plan.now) was services.old.receivers.items records
        → OnOk result (Delivers (T.StandsFor outlet.old) (T.StandsFor outlet.new) (pairs_of_all (length (plan_fields plan.now).services) (closed_by_switch (plan_fields plan.now) was version records))) }
    ensures failed { (was : ℕ) (records : List Record) → length records ≤ 2 ^ 32 → HaveReceived false (plan_fields plan.now) was services.old.receivers.items records
        → OnErr result (DeliversFront (T.StandsFor outlet.old) (T.StandsFor outlet.new) (T.Refused outlet.new) (pairs_of_all (length (plan_fields plan.now).services) (closed_by_switch (plan_fields plan.now) was version records))) }
    ensures count { length services.new.receivers.items ≡ length services.old.receivers.items }
    ensures found { AreFound services.new }
    ensures services { T.services outlet.new ≡ T.services outlet.old }
    ensures cause { HasCause (T.faults outlet.old) (T.faults outlet.new) result }
{
    let mut went = Ok(());
    for at in 0..services.receivers.len() {
        went = follow(
            plan,
            version,
            at as u32,
            &mut services.receivers[at],
            went,
            outlet,
        );
    }
    renew_places(
        services.places.as_mut_slice(),
        services.receivers.as_slice(),
    );
    went
}

/// Closes the frames under way of all services, in the order of the plan: no more records come.
///
/// Failed: the outlet refused a datagram, and those after it are not offered. The frames are closed all the same.
pub(crate) fn close_services<T: Outlet>(
    plan: &Plan,
    services: &mut Services<'_>,
    outlet: &mut T,
) -> Result<(), Failed>
    requires count { length services.old.receivers.items ≡ length plan.now.services }
    requires few { length plan.now.services ≤ 64 }
    requires served { length plan.now.services ≤ T.services outlet.old }
    requires found { AreFound services.old }
    ensures ended { (version : ℕ) (records : List Record) → length records ≤ 2 ^ 32 → HaveReceived false (plan_fields plan.now) version services.old.receivers.items records
        → HaveReceived true (plan_fields plan.now) version services.new.receivers.items records }
    ensures delivered { (version : ℕ) (records : List Record) → length records ≤ 2 ^ 32 → HaveReceived false (plan_fields plan.now) version services.old.receivers.items records
        → OnOk result (Delivers (T.StandsFor outlet.old) (T.StandsFor outlet.new) (pairs_of_all (length (plan_fields plan.now).services) (closed_at (plan_fields plan.now) version records))) }
    ensures failed { (version : ℕ) (records : List Record) → length records ≤ 2 ^ 32 → HaveReceived false (plan_fields plan.now) version services.old.receivers.items records
        → OnErr result (DeliversFront (T.StandsFor outlet.old) (T.StandsFor outlet.new) (T.Refused outlet.new) (pairs_of_all (length (plan_fields plan.now).services) (closed_at (plan_fields plan.now) version records))) }
    ensures count { length services.new.receivers.items ≡ length services.old.receivers.items }
    ensures found { AreFound services.new }
    ensures services { T.services outlet.new ≡ T.services outlet.old }
    ensures cause { HasCause (T.faults outlet.old) (T.faults outlet.new) result }
{
    let mut went = Ok(());
    for at in 0..services.receivers.len() {
        went = services.receivers[at].close(at as u32, went, outlet);
    }
    went
}
