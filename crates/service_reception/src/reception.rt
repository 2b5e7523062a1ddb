//! The packets of one PID -> the datagrams of its service, delivered, and all its numbers.
ghost use Rattle.std.specs.Prelude.{◌≡◌};

use crate::carried::UnitReader;
use crate::counts::count_link;
use crate::events::ServiceListener;
use addr_rules::MacList;
use ipe_io::{Failed, Outlet};
use service_counts::ServiceCounts;
use std::alloc::Allocator;
use std::marker::{Model, PhantomData};
use ts_packet::{Continuity, Packet};
use unit_stream::Joiner;

/// The reception of one service, by the kind of its units.
///
/// It is known by the records that were received: contracts see what `HasTaken` ties to these.
#[derive(Drop)]
pub struct Reception<K: UnitReader, A: Allocator> {
    continuity: Continuity,
    joiner: Joiner<K, A>,
    counts: ServiceCounts,
}

impl<K: UnitReader, A: Allocator> Model for Reception<K, A> {
    ghost use Rattle.service_reception.specs.Reception.{ReceptionState};
    ghost use Rattle.service_reception.specs.Counting.{on_pid, of_units, HasNoFrames};

    ghost Value = { ReceptionState };

    ghost view = { λ reception. record {
      last = reception.continuity;
      joiner = reception.joiner;
      on_pid = on_pid reception.counts;
      of_units = of_units reception.counts;
    } };

    ghost invariant = { λ reception. HasNoFrames reception.counts };
}

impl<K: UnitReader, A: Allocator> Reception<K, A> {
    ghost use Rattle.std.specs.Prelude.{◌≡◌, ◌<◌, ℕ, true, List, [], ◌∷◌, ◌++◌, vec_len, Some, OnOk, OnErr};
    ghost use Rattle.wire_spec.specs.Causes.{HasCause};
    ghost use Rattle.ts_spec.specs.Packet.{fields_of, is_packet};
    ghost use Rattle.ts_spec.specs.Recording.{Record};
    ghost use Rattle.plan_spec.specs.Plan.{ServiceFields, pid_of};
    ghost use Rattle.ts_packet.specs.Fields.{fields_in};
    ghost use Rattle.service_reception.specs.Reception.{HasTaken, IsReceiving, packet_record, added_by};
    ghost use Rattle.service_reception.specs.Counting.{service_counts_of};
    ghost use Rattle.reception_spec.specs.Frames.{no_frames};
    ghost use Rattle.outlet_spec.specs.Pairs.{pairs_of, Delivers, DeliversFront};

    /// A reception of nothing, over a buffer of LONGEST bytes. It takes no memory afterwards.
    pub fn over(buffer: Vec<u8, A>) -> Reception<K, A>
        requires { vec_len buffer ≡ K.LONGEST }
        ensures received { (it : ServiceFields) (pid : ℕ) → pid_of it.kind ≡ Some pid → HasTaken it result [] }
    {
        Reception {
            continuity: Continuity::new(),
            joiner: Joiner::over(buffer),
            counts: ServiceCounts::default(),
        }
    }

    /// Begins again, as where the service goes on to another PID: nothing was received, and nothing is counted. A unit under way is
    /// dropped without an event.
    pub fn begin_anew(&mut self)
        ensures received { (it : ServiceFields) (pid : ℕ) → pid_of it.kind ≡ Some pid → HasTaken it self.new [] }
    {
        self.continuity = Continuity::new();
        self.joiner.forget();
        self.counts = ServiceCounts::default();
    }

    /// Takes one packet of the service's PID, which `parse` read from `bytes`, and the moment of its record.
    ///
    /// The datagrams that end in it and that `filter` wants go to the outlet, as those of this service. Failed: the outlet
    /// refused one, and those after it are not offered; the packet and all its units are counted as with Ok.
    pub fn take<T: Outlet>(
        &mut self,
        bytes: &[u8; 188],
        packet: &Packet<'_>,
        moment: u64,
        filter: &MacList,
        service: u32,
        outlet: &mut T,
    ) -> Result<(), Failed>
        requires readable { is_packet bytes.now ≡ true }
        requires read { fields_in packet.now ≡ fields_of bytes.now }
        requires served { service < T.services outlet.old }
        ensures received { (it : ServiceFields) (records : List Record) → IsReceiving K.IsOfKind filter.now packet.now.pid it self.old records
            → HasTaken it self.new (records ++ packet_record moment bytes.now ∷ []) }
        ensures delivered { (it : ServiceFields) (records : List Record) → IsReceiving K.IsOfKind filter.now packet.now.pid it self.old records
            → OnOk result (Delivers (T.StandsFor outlet.old) (T.StandsFor outlet.new) (pairs_of service (added_by it records (packet_record moment bytes.now)))) }
        ensures failed { (it : ServiceFields) (records : List Record) → IsReceiving K.IsOfKind filter.now packet.now.pid it self.old records
            → OnErr result (DeliversFront (T.StandsFor outlet.old) (T.StandsFor outlet.new) (T.Refused outlet.new) (pairs_of service (added_by it records (packet_record moment bytes.now)))) }
        ensures services { T.services outlet.new ≡ T.services outlet.old }
        ensures cause { HasCause (T.faults outlet.old) (T.faults outlet.new) result }
    {
        let link = self.continuity.see(bytes, packet);
        count_link(&mut self.counts, link);
        let mut listener: ServiceListener<'_, '_, '_, K, T> = ServiceListener {
            counts: &mut self.counts,
            filter,
            service,
            outlet,
            result: Ok(()),
            kind: PhantomData,
        };
        self.joiner.take(link, packet, moment, &mut listener);
        listener.result
    }

    /// The numbers of all that was taken.
    pub fn counts(&self) -> ServiceCounts
        ensures read { result ≡ service_counts_of self.now.on_pid self.now.of_units no_frames }
    {
        self.counts
    }
}
