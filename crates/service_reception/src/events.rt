//! The events of one packet -> counted, and the datagrams of their units delivered, up to the first that is refused.
ghost use Rattle.std.specs.Prelude.{◌<◌};
ghost use Rattle.service_reception.specs.Counting.{HasNoFrames};

use crate::carried::UnitReader;
use crate::counts::{count_event, count_handling};
use crate::handling::{deliver, handling_of};
use addr_rules::MacList;
use ipe_io::{Failed, Outlet};
use service_counts::ServiceCounts;
use std::marker::PhantomData;
use unit_stream::{JoinEvent, Listener};

/// Hears the events of a service's packets. After a refused datagram they are counted alone.
#[derive(Drop)]
pub(crate) struct ServiceListener<'c, 'f, 'o, K: UnitReader, T: Outlet> {
    pub(crate) counts: &'c mut ServiceCounts,
    /// The service's filter.
    pub(crate) filter: &'f MacList,
    /// The number of the service.
    pub(crate) service: u32,
    pub(crate) outlet: &'o mut T,
    /// How the deliveries went: Failed after the first that the outlet refused.
    pub(crate) result: Result<(), Failed>,
    /// The kind of its units.
    pub(crate) kind: PhantomData<K>,
    pub(crate) ghost served: { service < T.services outlet.now },
    pub(crate) ghost no_frames: { HasNoFrames counts.now },
}

impl<'c, 'f, 'o, K: UnitReader, T: Outlet> Listener for ServiceListener<'c, 'f, 'o, K, T> {
    ghost use Rattle.std.specs.Prelude.{◌≡◌};
    ghost use Rattle.service_reception.specs.Taking.{HearsEvent};

    ghost Hears = { λ old event new. HearsEvent T.StandsFor T.Refused T.services T.faults K.form K.IsOfKind event
        (record { counts = old.counts.now; filter = old.filter.now; number = old.service; outlet = old.outlet.now; went = old.result })
        (record { counts = new.counts.now; filter = new.filter.now; number = new.service; outlet = new.outlet.now; went = new.result })
        × (new.counts.ghost_name ≡ old.counts.ghost_name) × (new.outlet.ghost_name ≡ old.outlet.ghost_name) };

    #[inline(always)]
    fn hear(&mut self, event: &JoinEvent<'_>) {
        count_event(self.counts, event);
        if let JoinEvent::Unit { moment: _, bytes } = event {
            let handling = handling_of::<K>(bytes, self.filter);
            count_handling(self.counts, &handling);
            if self.result.is_ok() {
                self.result = deliver(&handling, self.service, self.outlet);
            }
        }
    }
}
