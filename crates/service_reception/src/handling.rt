//! A unit -> what becomes of it: its datagram is delivered where the filter wants it.
ghost use Rattle.std.specs.Prelude.{◌≡◌, ◌<◌, List, OnOk, OnErr};
ghost use Rattle.wire_spec.specs.Causes.{HasCause};
ghost use Rattle.ts_spec.specs.Form.{IsUnit};
ghost use Rattle.plan_spec.specs.Plan.{ServiceFields};
ghost use Rattle.service_reception.specs.Services.{IsServed};
ghost use Rattle.service_reception.specs.Carried.{TellsHandling, handling_datagrams};
ghost use Rattle.outlet_spec.specs.Pairs.{pairs_of, Delivers, DeliversFront};

use crate::carried::UnitReader;
use addr_rules::{MacList, wants};
use ipe_io::{Failed, Outlet};

/// What becomes of an accepted unit.
#[derive(Clone, Copy, Debug, PartialEq, Eq)]
pub(crate) enum Handling<'a> {
    /// It carries no datagram.
    Unread,
    /// It carries one for others.
    Filtered,
    /// Its datagram is delivered.
    Wanted(&'a [u8]),
}

/// What becomes of a unit, at a service with this filter.
#[inline(always)]
pub(crate) fn handling_of<'a, K: UnitReader>(unit: &'a [u8], filter: &MacList) -> Handling<'a>
    ensures told { (it : ServiceFields) → IsServed K.IsOfKind filter.now it → IsUnit K.form unit.now → TellsHandling it unit.now result }
{
    let carried = match K::read(unit) {
        Some(carried) => carried,
        None => return Handling::Unread,
    };
    if wants(filter, &carried.label) {
        Handling::Wanted(carried.datagram)
    } else {
        Handling::Filtered
    }
}

/// Delivers the datagram of a unit, where it is delivered.
pub(crate) fn deliver<T: Outlet>(
    handling: &Handling<'_>,
    service: u32,
    outlet: &mut T,
) -> Result<(), Failed>
    requires { service < T.services outlet.old }
    ensures told { OnOk result (Delivers (T.StandsFor outlet.old) (T.StandsFor outlet.new) (pairs_of service (handling_datagrams handling.now))) }
    ensures failed { OnErr result (DeliversFront (T.StandsFor outlet.old) (T.StandsFor outlet.new) (T.Refused outlet.new) (pairs_of service (handling_datagrams handling.now))) }
    ensures services { T.services outlet.new ≡ T.services outlet.old }
    ensures cause { HasCause (T.faults outlet.old) (T.faults outlet.new) result }
{
    match handling {
        Handling::Wanted(datagram) => outlet.deliver(service, datagram),
        Handling::Unread | Handling::Filtered => Ok(()),
    }
}
