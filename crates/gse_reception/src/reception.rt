//! The frames of one input stream -> the datagrams of its service, delivered, and all its numbers.

use crate::field::{count_frame, take_field};
use addr_rules::MacList;
use bb_frame::Frame;
use gse_reassembly::{Slot, Slots};
use ipe_io::{Failed, Outlet};
use service_counts::ServiceCounts;
use std::alloc::Allocator;
use std::marker::Model;

/// The reception of one service of GSE packets.
///
/// It is known by the frames that were received: contracts see what `HasTaken` ties to these.
#[derive(Drop)]
pub struct GseReception<A: Allocator> {
    slots: Slots<A>,
    counts: ServiceCounts,
}

impl<A: Allocator> Model for GseReception<A> {
    ghost use Rattle.std.specs.Prelude.{◌≤◌};
    ghost use Rattle.gse_reception.specs.Reception.{GseReceptionState};
    ghost use Rattle.gse_reception.specs.Counting.{of_isi, of_pdus, HasNoPackets};

    ghost Value = { GseReceptionState };

    ghost view = { λ reception. record {
      slots = reception.slots;
      of_isi = of_isi reception.counts;
      of_pdus = of_pdus reception.counts;
    } };

    ghost invariant = { λ reception. (reception.slots.frame_number ≤ reception.counts.heard) × HasNoPackets reception.counts };
}

impl<A: Allocator> GseReception<A> {
    ghost use Rattle.std.specs.Prelude.{◌≡◌, ◌<◌, ◌≤◌, ℕ, List, [], ◌∷◌, ◌++◌, length, vec_len, Some, OnOk, OnErr};
    ghost use Rattle.wire_spec.specs.Causes.{HasCause};
    ghost use Rattle.plan_spec.specs.Plan.{ServiceFields, isi_of};
    ghost use Rattle.bb_reception_spec.specs.Delivered.{added_by};
    ghost use Rattle.outlet_spec.specs.Pairs.{pairs_of, Delivers, DeliversFront};
    ghost use Rattle.gse_reception.specs.Counting.{service_counts_of};
    ghost use Rattle.gse_reception.specs.Reception.{HasTaken, IsReceiving, IsRead};

    /// A reception of nothing, over a buffer of 256 times 65,540 bytes and a slot for each of 256 Frag IDs. What stood in the slots is
    /// dropped. It takes no memory afterwards.
    pub fn over(buffer: Vec<u8, A>, slots: Vec<Slot, A>) -> GseReception<A>
        requires room { vec_len buffer ≡ 16778240 }
        requires slots { vec_len slots ≡ 256 }
        ensures received { (it : ServiceFields) (isi : ℕ) → isi_of it.kind ≡ Some isi → HasTaken it result [] }
    {
        GseReception {
            slots: Slots::over(buffer, slots),
            counts: ServiceCounts::default(),
        }
    }

    /// Takes one frame of the service's ISI, as `parse` read it: DFL counts bits, so that its data field has at most 8,191 bytes.
    ///
    /// The datagrams of the PDUs that end in it and that `filter` wants go to the outlet, as those of this service. Failed: the outlet
    /// refused one, and those after it are not offered; the frame and all its packets are counted as with Ok.
    pub fn take<T: Outlet>(
        &mut self,
        frame: &Frame<'_>,
        filter: &MacList,
        service: u32,
        outlet: &mut T,
    ) -> Result<(), Failed>
        requires short { length frame.now.field.now ≤ 8191 }
        requires served { service < T.services outlet.old }
        ensures received { (it : ServiceFields) (frames : List (List ℕ)) (b : List ℕ) → IsRead frame.now b
            → IsReceiving filter.now frame.now.isi it self.old frames → HasTaken it self.new (frames ++ b ∷ []) }
        ensures delivered { (it : ServiceFields) (frames : List (List ℕ)) (b : List ℕ) → IsRead frame.now b
            → IsReceiving filter.now frame.now.isi it self.old frames
            → OnOk result (Delivers (T.StandsFor outlet.old) (T.StandsFor outlet.new) (pairs_of service (added_by it frames b))) }
        ensures failed { (it : ServiceFields) (frames : List (List ℕ)) (b : List ℕ) → IsRead frame.now b
            → IsReceiving filter.now frame.now.isi it self.old frames
            → OnErr result (DeliversFront (T.StandsFor outlet.old) (T.StandsFor outlet.new) (T.Refused outlet.new) (pairs_of service (added_by it frames b))) }
        ensures services { T.services outlet.new ≡ T.services outlet.old }
        ensures cause { HasCause (T.faults outlet.old) (T.faults outlet.new) result }
    {
        count_frame(&mut self.slots, &mut self.counts);
        take_field(
            &mut self.slots,
            &mut self.counts,
            frame.field,
            filter,
            service,
            outlet,
        )
    }

    /// The numbers of all that was taken.
    pub fn counts(&self) -> ServiceCounts
        ensures read { result ≡ service_counts_of self.now.of_isi self.now.of_pdus }
    {
        self.counts
    }
}
