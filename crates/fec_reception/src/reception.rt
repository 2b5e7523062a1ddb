//! The packets of one PID with frames -> the datagrams of its frames, delivered, and all its numbers.
ghost use Rattle.std.specs.Prelude.{◌≡◌};

use crate::events::FrameListener;
use crate::frames::Frames;
use fec_frame::Table;
use ipe_io::{Failed, Outlet};
use section_codec::SectionForm;
use service_counts::ServiceCounts;
use std::alloc::Allocator;
use std::marker::Model;
use ts_packet::{Continuity, Packet};
use unit_stream::Joiner;

/// The reception of one service whose datagrams come in MPE-FEC frames.
///
/// It is known by the records that were received: contracts see what `HasTaken` ties to these.
#[derive(Drop)]
pub struct FecReception<A: Allocator> {
    continuity: Continuity,
    joiner: Joiner<SectionForm, A>,
    frames: Frames<A>,
}

impl<A: Allocator> Model for FecReception<A> {
    ghost use Rattle.fec_reception.specs.Reception.{FecReceptionState};

    ghost Value = { FecReceptionState };

    ghost view = { λ reception. record { last = reception.continuity; joiner = reception.joiner; frames = reception.frames } };
}

impl<A: Allocator> FecReception<A> {
    ghost use Rattle.std.specs.Prelude.{◌≡◌, ◌<◌, ℕ, true, List, [], ◌∷◌, ◌++◌, vec_len, OnOk, OnErr};
    ghost use Rattle.wire_spec.specs.Causes.{HasCause};
    ghost use Rattle.ts_spec.specs.Packet.{fields_of, is_packet};
    ghost use Rattle.ts_spec.specs.Recording.{Record};
    ghost use Rattle.section_spec.specs.Mpe.{IsRows};
    ghost use Rattle.slice_spec.specs.Sections.{Timing};
    ghost use Rattle.ts_packet.specs.Fields.{fields_in};
    ghost use Rattle.time_slice.specs.Views.{timing_of};
    ghost use Rattle.service_reception.specs.Reception.{packet_record};
    ghost use Rattle.outlet_spec.specs.Pairs.{pairs_of, Delivers, DeliversFront};
    ghost use Rattle.service_reception.specs.Counting.{service_counts_of};
    ghost use Rattle.fec_reception.specs.Counting.{unread_alone};
    ghost use Rattle.outlet_spec.specs.Going.{DeliversAfter, GoesOn};
    ghost use Rattle.fec_reception.specs.Reception.{HasTaken, HasEnded, IsOver, IsReceiving, IsEnding, added_by, added_by_end};

    /// A reception of nothing, over a buffer of 4,096 bytes and a table, which is cleared. It takes no memory afterwards.
    ///
    /// With time slicing (`sliced`) `ten` is ten milliseconds in the unit of the moments; without, it has no effect.
    pub fn over(buffer: Vec<u8, A>, table: Table<A>, sliced: bool, ten: u64) -> FecReception<A>
        requires buffer { vec_len buffer ≡ 4096 }
        requires rows { IsRows table.rows }
        ensures received { (pid : ℕ) → HasTaken (timing_of sliced ten) table.rows pid result [] }
    {
        FecReception {
            continuity: Continuity::new(),
            joiner: Joiner::over(buffer),
            frames: Frames::over(table, sliced, ten),
        }
    }

    /// Begins again, as where the service goes on to another PID: nothing was received, and nothing is counted. A unit under way and the
    /// frame that is open are dropped: `close` comes before it.
    pub fn begin_anew(&mut self)
        ensures received { (timing : Timing) (rows pid : ℕ) → IsOver timing rows self.old.frames → HasTaken timing rows pid self.new [] }
    {
        self.continuity = Continuity::new();
        self.joiner.forget();
        self.frames.begin_anew();
    }

    /// Takes one packet of the service's PID, which `parse` read from `bytes`, and the moment of its record.
    ///
    /// The datagrams of the frames that are closed by it go to the outlet, as those of this service. Failed: the outlet
    /// refused one, and those after it are not offered; the packet, all its units and frames are counted as with Ok.
    pub fn take<T: Outlet>(
        &mut self,
        bytes: &[u8; 188],
        packet: &Packet<'_>,
        moment: u64,
        service: u32,
        outlet: &mut T,
    ) -> Result<(), Failed>
        requires readable { is_packet bytes.now ≡ true }
        requires read { fields_in packet.now ≡ fields_of bytes.now }
        requires served { service < T.services outlet.old }
        ensures received { (timing : Timing) (rows : ℕ) (records : List Record) → IsReceiving timing rows packet.now.pid self.old records
            → HasTaken timing rows packet.now.pid self.new (records ++ packet_record moment bytes.now ∷ []) }
        ensures delivered { (timing : Timing) (rows : ℕ) (records : List Record) → IsReceiving timing rows packet.now.pid self.old records
            → OnOk result (Delivers (T.StandsFor outlet.old) (T.StandsFor outlet.new) (pairs_of service (added_by timing rows packet.now.pid records (packet_record moment bytes.now)))) }
        ensures failed { (timing : Timing) (rows : ℕ) (records : List Record) → IsReceiving timing rows packet.now.pid self.old records
            → OnErr result (DeliversFront (T.StandsFor outlet.old) (T.StandsFor outlet.new) (T.Refused outlet.new) (pairs_of service (added_by timing rows packet.now.pid records (packet_record moment bytes.now)))) }
        ensures services { T.services outlet.new ≡ T.services outlet.old }
        ensures cause { HasCause (T.faults outlet.old) (T.faults outlet.new) result }
    {
        let link = self.continuity.see(bytes, packet);
        self.frames.count_link(link);
        let mut listener: FrameListener<'_, '_, A, T> = FrameListener {
            frames: &mut self.frames,
            service,
            outlet,
            result: Ok(()),
        };
        self.joiner.take(link, packet, moment, &mut listener);
        listener.result
    }

    /// Closes the frame that is open, as at the end of a recording, or where the service goes on to another PID: no more of its sections
    /// can come.
    ///
    /// Its datagrams go to the outlet. Failed: the outlet refused one, and those after it are not offered; the frame is counted as with Ok.
    pub fn close<T: Outlet>(&mut self, service: u32, outlet: &mut T) -> Result<(), Failed>
        requires served { service < T.services outlet.old }
        ensures ended { (timing : Timing) (rows pid : ℕ) (records : List Record) → IsEnding timing rows pid self.old records
            → HasEnded timing rows pid self.new records }
        ensures delivered { (timing : Timing) (rows pid : ℕ) (records : List Record) → IsEnding timing rows pid self.old records
            → OnOk result (Delivers (T.StandsFor outlet.old) (T.StandsFor outlet.new) (pairs_of service (added_by_end timing rows pid records))) }
        ensures failed { (timing : Timing) (rows pid : ℕ) (records : List Record) → IsEnding timing rows pid self.old records
            → OnErr result (DeliversFront (T.StandsFor outlet.old) (T.StandsFor outlet.new) (T.Refused outlet.new) (pairs_of service (added_by_end timing rows pid records))) }
        ensures services { T.services outlet.new ≡ T.services outlet.old }
        ensures cause { HasCause (T.faults outlet.old) (T.faults outlet.new) result }
    {
        self.close_after(service, Ok(()), outlet)
    }

    /// The same where datagrams were delivered before, of other services at the same record: after a refused one those of the frame are
    /// not offered. The frame is closed and counted all the same.
    pub fn close_after<T: Outlet>(
        &mut self,
        service: u32,
        went: Result<(), Failed>,
        outlet: &mut T,
    ) -> Result<(), Failed>
        requires served { service < T.services outlet.old }
        ensures ended { (timing : Timing) (rows pid : ℕ) (records : List Record) → IsEnding timing rows pid self.old records
            → HasEnded timing rows pid self.new records }
        ensures delivered { (timing : Timing) (rows pid : ℕ) (records : List Record) → IsEnding timing rows pid self.old records
            → DeliversAfter T.StandsFor T.Refused service (added_by_end timing rows pid records) (record { outlet = outlet.old; went = went }) (record { outlet = outlet.new; went = result }) }
        ensures goes { GoesOn T.services T.faults (record { outlet = outlet.old; went = went }) (record { outlet = outlet.new; went = result }) }
    {
        self.frames.close(service, went, outlet)
    }

    /// The numbers of all that was taken.
    pub fn counts(&self) -> ServiceCounts
        ensures read { result ≡ service_counts_of self.now.frames.on_pid (unread_alone self.now.frames.unread) self.now.frames.of_frames }
    {
        self.frames.counts()
    }
}
