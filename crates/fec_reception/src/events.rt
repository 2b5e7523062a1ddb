//! The events of one packet -> counted, and the datagrams of the frames that their units close delivered, up to the first that is refused.
ghost use Rattle.std.specs.Prelude.{◌<◌};

use crate::frames::Frames;
use ipe_io::{Failed, Outlet};
use std::alloc::Allocator;
use unit_stream::{JoinEvent, Listener};

/// Hears the events of packets with frames. After a refused datagram they are counted alone.
#[derive(Drop)]
pub(crate) struct FrameListener<'f, 'o, A: Allocator, T: Outlet> {
    pub(crate) frames: &'f mut Frames<A>,
    /// The number of the service.
    pub(crate) service: u32,
    pub(crate) outlet: &'o mut T,
    /// How the deliveries went: Failed after the first that the outlet refused.
    pub(crate) result: Result<(), Failed>,
    pub(crate) ghost served: { service < T.services outlet.now },
}

impl<'f, 'o, A: Allocator, T: Outlet> Listener for FrameListener<'f, 'o, A, T> {
    ghost use Rattle.std.specs.Prelude.{◌≡◌};
    ghost use Rattle.fec_reception.specs.Hearing.{HearsFrames};

    ghost Hears = { λ old event new. HearsFrames T.StandsFor T.Refused T.services T.faults event
        (record { frames = old.frames.now; number = old.service; outlet = old.outlet.now; went = old.result })
        (record { frames = new.frames.now; number = new.service; outlet = new.outlet.now; went = new.result })
        × (new.frames.ghost_name ≡ old.frames.ghost_name) × (new.outlet.ghost_name ≡ old.outlet.ghost_name) };

    #[inline(always)]
    fn hear(&mut self, event: &JoinEvent<'_>) {
        self.frames.count_event(event);
        if let JoinEvent::Unit { moment, bytes } = event {
            self.result = self
                .frames
                .take_unit(*moment, bytes, self.service, self.result, self.outlet);
        }
    }
}
