//! A PDU -> what becomes of it: its datagram is delivered where the filter wants it.
ghost use Rattle.std.specs.Prelude.{◌≡◌, ◌<◌, ◌∷◌, [], OnOk, OnErr};
ghost use Rattle.wire_spec.specs.Causes.{HasCause};
ghost use Rattle.gse_spec.specs.Received.{carried_by_pdu, delivered_by_pdu};
ghost use Rattle.gse_spec.specs.Events.{pdu_event};
ghost use Rattle.gse_spec.specs.Numbers.{pdu_numbers};
ghost use Rattle.outlet_spec.specs.Pairs.{pairs_of, Delivers, DeliversFront};
ghost use Rattle.gse_reception.specs.Handling.{pdu_in, TellsHandling, handling_datagrams};
ghost use Rattle.gse_reception.specs.Counting.{of_isi, of_pdus, others_of, counted_event, counted_pdus};
ghost use Rattle.gse_reception.specs.Outlets.{HandsOut};

use crate::counts::{Event, count_event, count_handling};
use addr_rules::{Label, MacList, wants};
use ipe_io::{Failed, Outlet};
use service_counts::ServiceCounts;
use ule_extension::datagram;

/// A received PDU.
#[derive(Clone, Copy, Debug, PartialEq, Eq)]
pub(crate) struct WholePdu<'a> {
    /// Protocol Type.
    pub(crate) protocol: u16,
    /// Whose it is.
    pub(crate) label: Label,
    /// Extension headers and what comes after them.
    pub(crate) bytes: &'a [u8],
}

/// What becomes of a PDU.
#[derive(Clone, Copy, Debug, PartialEq, Eq)]
pub(crate) enum Handling<'a> {
    /// It carries no datagram.
    Unread,
    /// It carries one for others.
    Filtered,
    /// Its datagram is delivered.
    Wanted(&'a [u8]),
}

/// What becomes of a PDU, at a service with this filter.
pub(crate) fn handling_of<'a>(pdu: &WholePdu<'a>, filter: &MacList) -> Handling<'a>
    ensures told { TellsHandling filter.now (pdu_in pdu.now) result }
{
    let datagram = match datagram(pdu.protocol, pdu.bytes) {
        Ok(datagram) => datagram,
        Err(_) => return Handling::Unread,
    };
    if wants(filter, &pdu.label) {
        Handling::Wanted(datagram)
    } else {
        Handling::Filtered
    }
}

/// Delivers the datagram of a PDU, where it is delivered.
fn deliver<T: Outlet>(handling: &Handling<'_>, service: u32, outlet: &mut T) -> Result<(), Failed>
    requires { service < T.services outlet.old }
    ensures told { OnOk result (Delivers (T.StandsFor outlet.old) (T.StandsFor outlet.new) (pairs_of service (handling_datagrams handling.now))) }
    ensures failed { OnErr result (DeliversFront (T.StandsFor outlet.old) (T.StandsFor outlet.new) (T.Refused outlet.new) (pairs_of service (handling_datagrams handling.now))) }
    ensures services { T.services outlet.new ≡ T.services outlet.old }
    ensures cause { HasCause (T.faults outlet.old) (T.faults outlet.new) result }
{
    match handling {
        Handling::Wanted(datagram) => outlet.deliver(service, datagram),
        Handling::Unread | Handling::Filtered => Ok(()),
    }
}

/// Counts a PDU, and delivers its datagram where the filter wants it and all deliveries before went well.
#[tactic(auto, using(crate::proofs::Outlets::hands_ok, crate::proofs::Outlets::hands_err))]
pub(crate) fn take_pdu<T: Outlet>(
    counts: &mut ServiceCounts,
    pdu: &WholePdu<'_>,
    filter: &MacList,
    service: u32,
    outlet: &mut T,
    went: Result<(), Failed>,
) -> Result<(), Failed>
    requires served { service < T.services outlet.old }
    ensures isi { of_isi counts.new ≡ counted_event (of_isi counts.old) pdu_event }
    ensures pdus { of_pdus counts.new ≡ counted_pdus (of_pdus counts.old) (pdu_numbers carried_by_pdu filter.now (pdu_in pdu.now ∷ [])) }
    ensures others { others_of counts.new ≡ others_of counts.old }
    ensures hands { HandsOut T.StandsFor T.Refused T.services T.faults service (delivered_by_pdu carried_by_pdu filter.now (pdu_in pdu.now))
        (record { outlet = outlet.old; went = went }) (record { outlet = outlet.new; went = result }) }
{
    count_event(counts, Event::Pdu);
    let handling = handling_of(pdu, filter);
    count_handling(counts, &handling);
    went?;
    deliver(&handling, service, outlet)
}
