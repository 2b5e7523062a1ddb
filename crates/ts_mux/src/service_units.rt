//! The datagrams of a service in one part -> where its units or its bursts end.
ghost use Rattle.std.specs.Prelude.{◌≡◌, ◌<◌, ◌^◌, true, length, IfOk};
ghost use Rattle.ts_mux.specs.OnPids.{is_on_pid};
ghost use Rattle.plan.specs.Parts.{kind_seen};
ghost use Rattle.stream_spec.specs.Units.{frame_count};
ghost use Rattle.ts_mux.specs.Units.{AreFor};
ghost use Rattle.ts_mux.specs.ServiceUnits.{AreUnitsFor, HasFrames, frames_in};

use crate::units::ends_of;
use fec_units::{FrameUnits, burst_ends, unit_ends};
use ip_datagram::DatagramList;
use plan::{Kind, Service};
use std::alloc::{AllocError as OutOfMemory, Global};

/// The units of a service in one part.
#[derive(Drop)]
pub(crate) enum ServiceUnits {
    /// Where the units of its datagrams end among the bytes of all of them: each is made when it is sent.
    Ends(Vec<usize>),
    /// Where the units of its frames end among the bytes of all of them, and the number of the first frame: the units of a frame are made
    /// when its first packet goes out.
    Frames(FrameUnits, u32),
    /// Where the datagrams of its bursts end among all of them: the units of a burst are made when its window opens.
    Bursts(Vec<u32>),
}

/// The units of these datagrams; the first frame has this number.
pub(crate) fn units_of_service(
    alloc: Global,
    service: &Service,
    datagrams: &DatagramList,
    first: u32,
) -> Result<ServiceUnits, OutOfMemory>
    requires on_pid { is_on_pid (kind_seen service.now.kind) ≡ true }
    requires frames { HasFrames (kind_seen service.now.kind) }
    requires datagrams { AreFor (kind_seen service.now.kind) datagrams.now }
    requires few { length datagrams.now < 2 ^ 32 }
    ensures made { IfOk result (AreUnitsFor (kind_seen service.now.kind) service.now.unicast first datagrams.now) }
    ensures frames { IfOk result (λ units. frames_in units ≡ frame_count (kind_seen service.now.kind) datagrams.now) }
{
    match service.kind {
        Kind::Fec {
            rows,
            parity,
            window,
            ..
        } => match window {
            Some(window) => {
                let ends = burst_ends(alloc, datagrams, rows, parity, window.1)?;
                Ok(ServiceUnits::Bursts(ends))
            }
            None => {
                let units = unit_ends(alloc, datagrams, rows, parity)?;
                Ok(ServiceUnits::Frames(units, first))
            }
        },
        _ => Ok(ServiceUnits::Ends(ends_of(alloc, service, datagrams)?)),
    }
}

impl ServiceUnits {
    ghost use Rattle.std.specs.Prelude.{◌≡◌, ◌<◌, ◌^◌};
    ghost use Rattle.ts_mux.specs.ServiceUnits.{frames_in};

    /// How many frames they are of.
    pub(crate) fn frames(&self) -> u32
        requires { frames_in self.now < 2 ^ 32 }
        ensures { result ≡ frames_in self.now }
    {
        match self {
            ServiceUnits::Ends(_) => 0,
            ServiceUnits::Frames(units, _) => units.frames,
            ServiceUnits::Bursts(ends) => ends.len() as u32,
        }
    }
}
