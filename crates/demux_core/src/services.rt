//! The receivers of all services of a plan, in its order, and the place of each by its PID.
ghost use Rattle.std.specs.Prelude.{◌≡◌, ◌==◌, ◌≤◌, true, map, IfOk, length, is_some};
ghost use Rattle.std.specs.List.{list_all, position};
ghost use Rattle.plan.specs.Parts.{form_of, kind_seen, service_seen};
ghost use Rattle.plan.specs.declared.service.Service.{Service};
ghost use Rattle.plan_spec.specs.Plan.{pid_of};
ghost use Rattle.demux_core.specs.Opening.{AreOpened, has_right_rows};
ghost use Rattle.demux_core.specs.Places.{AreFound};

use crate::places::{NO_SERVICE, open_places};
use crate::service::ServiceReceiver;
use bumpalo::Bump;
use ipe_io::{OutOfMemory, Recording};
use plan::ServiceList;

/// The receivers of all services in the plan's order, and for each PID the place of its service.
#[derive(Drop)]
pub(crate) struct Services<'a> {
    pub(crate) receivers: Vec<ServiceReceiver<'a>, &'a Bump>,
    pub(crate) places: Vec<u8, &'a Bump>,
}

/// The receivers of all services, that were given nothing.
fn open_receivers<'a>(
    arena: &'a Bump,
    list: &ServiceList,
    recording: Recording,
) -> Result<Vec<ServiceReceiver<'a>, &'a Bump>, OutOfMemory>
    requires on_pids { list_all (λ (it : Service). is_some (pid_of (kind_seen it.kind))) list.now ≡ true }
    requires rows { list_all (λ (it : Service). has_right_rows (kind_seen it.kind)) list.now ≡ true }
    ensures opened { IfOk result (λ receivers. AreOpened (form_of recording) (map service_seen list.now) receivers.items) }
{
    let mut receivers = Vec::with_capacity(arena, list.len())?;
    for at in 0..list.len() {
        let receiver = ServiceReceiver::open(arena, &list.at(at).kind, recording)?;
        receivers.push(receiver)?;
    }
    Ok(receivers)
}

/// All services, that were given nothing, and each is found by its PID.
pub(crate) fn open_services<'a>(
    arena: &'a Bump,
    list: &ServiceList,
    recording: Recording,
) -> Result<Services<'a>, OutOfMemory>
    requires on_pids { list_all (λ (it : Service). is_some (pid_of (kind_seen it.kind))) list.now ≡ true }
    requires rows { list_all (λ (it : Service). has_right_rows (kind_seen it.kind)) list.now ≡ true }
    requires few { length list.now ≤ 64 }
    ensures opened { IfOk result (λ services. AreOpened (form_of recording) (map service_seen list.now) services.receivers.items) }
    ensures found { IfOk result (λ services. AreFound services) }
{
    let receivers = open_receivers(arena, list, recording)?;
    let places = open_places(arena, receivers.as_slice())?;
    Ok(Services { receivers, places })
}

/// The place of the service on a PID.
pub(crate) fn place_of(services: &Services<'_>, pid: u16) -> Option<usize>
    requires found { AreFound services.now }
    requires in_range { pid ≤ 8191 }
    ensures { result ≡ position (λ receiver. receiver.pid == pid) services.now.receivers.items }
{
    let place = services.places[usize::from(pid)];
    if place == NO_SERVICE {
        return None;
    }
    Some(usize::from(place))
}
