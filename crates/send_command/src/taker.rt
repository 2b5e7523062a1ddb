//! The records of a capture -> what their datagrams offer to the services of a plan.
use byte_slices::as_bytes;
use capture_intake::CaptureTaker;
use datagram_routing::Offered;
use pcap_file::{LinkType, datagram_of};
use plan::Plan;
use std::alloc::AllocError as OutOfMemory;

/// What the records of a capture offered to the services of a plan.
#[derive(Drop)]
pub(crate) struct PlanTaker<'p> {
    pub(crate) plan: &'p Plan,
    pub(crate) offered: Offered,
}

impl<'p> CaptureTaker for PlanTaker<'p> {
    ghost use Rattle.std.specs.Prelude.{◌≡◌, true};
    ghost use Rattle.capture_intake.specs.Wanted.{every_link};
    ghost use Rattle.send_command.specs.Gathering.{OffersRecords};

    ghost wants = { every_link };

    ghost Took = { λ start now link captured. OffersRecords start now link captured };

    fn wants(_link: LinkType) -> bool
        ensures read { result ≡ true }
    {
        true
    }

    fn take(&mut self, link: LinkType, captured: &[u8]) -> Result<(), OutOfMemory> {
        let captured = as_bytes(captured);
        self.offered.offer(self.plan, datagram_of(link, captured))
    }
}
