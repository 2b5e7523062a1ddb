//! The receiver: it takes one frame at a time.
ghost use Rattle.std.specs.Prelude.{◌≡◌, ℕ, ◌+◌, ◌^◌, ◌<◌, ◌≤◌, true, false, List, [], ◌∷◌, ◌++◌, length, IfOk, OnOk, OnErr};
ghost use Rattle.wire_spec.specs.Causes.{HasCause};
ghost use Rattle.plan_spec.specs.Plan.{PlanFields, is_baseband};
ghost use Rattle.plan.specs.PlanView.{plan_fields};
ghost use Rattle.bb_reception_spec.specs.Delivered.{pairs_of_frame};
ghost use Rattle.bb_reception_spec.specs.Numbers.{recording_numbers};
ghost use Rattle.outlet_spec.specs.Pairs.{Delivers, DeliversFront};
ghost use Rattle.bb_demux.specs.Counts.{stream_counts_of, counts_of_service};
ghost use Rattle.bb_demux.specs.Receiving.{HasReceived};

use crate::frames::{read_frame, receive_frame};
use crate::services::{IsiReceiver, open_receivers};
use bumpalo::Bump;
use ipe_io::{Failed, OutOfMemory, Outlet};
use loss_report::{ServiceCounts, StreamCounts};
use plan::Plan;
use std::marker::Model;

/// The receiver of all services of a plan of baseband frames.
#[derive(Drop)]
pub struct BbReceiver<'a> {
    plan: &'a Plan,
    is_open: bool,
    stream: StreamCounts,
    services: Vec<IsiReceiver<'a>, &'a Bump>,
}

impl<'a> Model for BbReceiver<'a> {
    ghost use Rattle.std.specs.Prelude.{◌≡◌, ◌≤◌, ◌^◌, true, length};
    ghost use Rattle.plan_spec.specs.Plan.{is_baseband};
    ghost use Rattle.plan.specs.PlanView.{plan_fields};
    ghost use Rattle.bb_demux.specs.Receiving.{BbReceiverState};

    ghost Value = { BbReceiverState };

    ghost view = { λ receiver. record {
      plan = plan_fields receiver.plan.now;
      is_open = receiver.is_open;
      stream = receiver.stream;
      services = receiver.services.items;
    } };

    ghost invariant = { λ receiver. (is_baseband (plan_fields receiver.plan.now) ≡ true)
        × (length receiver.services.items ≡ length (plan_fields receiver.plan.now).services) × (receiver.stream.records ≤ 2 ^ 32) };
}

impl<'a> BbReceiver<'a> {
    /// A receiver that was given nothing, of a plan of baseband frames. All its buffers lie in the arena, 16,778,240 bytes and 256 slots
    /// for each service, and none is taken later.
    pub fn open(arena: &'a Bump, plan: &'a Plan) -> Result<BbReceiver<'a>, OutOfMemory>
        requires baseband { is_baseband (plan_fields plan.now) ≡ true }
        ensures received { IfOk result (λ receiver. HasReceived (plan_fields plan.now) [] receiver) }
        ensures is_open { IfOk result (λ receiver. receiver.is_open ≡ true) }
        ensures plan { IfOk result (λ receiver. receiver.plan ≡ plan_fields plan.now) }
    {
        let services = open_receivers(arena, &plan.services)?;
        Ok(BbReceiver {
            plan,
            is_open: true,
            stream: nothing_counted(),
            services,
        })
    }

    /// Takes the next frame, and delivers the datagrams of the PDUs that end in it: those of the service that has its ISI. A refused frame
    /// is unreadable, and one of an ISI that no service has is other.
    ///
    /// Failed: the outlet refused one, and those after it are not offered; the frame and all its packets are counted as with Ok.
    /// No memory is taken.
    pub fn step_frame<T: Outlet>(&mut self, frame: &[u8], outlet: &mut T) -> Result<(), Failed>
        requires is_open { self.old.is_open ≡ true }
        requires few { self.old.stream.records < 2 ^ 32 }
        requires header { 10 ≤ length frame.now }
        requires served { length self.old.plan.services ≤ T.services outlet.old }
        ensures received { (plan : PlanFields) (frames : List (List ℕ)) → HasReceived plan frames self.old
            → HasReceived plan (frames ++ frame.now ∷ []) self.new }
        ensures written { (plan : PlanFields) (frames : List (List ℕ)) → HasReceived plan frames self.old
            → OnOk result (Delivers (T.StandsFor outlet.old) (T.StandsFor outlet.new) (pairs_of_frame plan (frames ++ frame.now ∷ []) (length frames))) }
        ensures failed { (plan : PlanFields) (frames : List (List ℕ)) → HasReceived plan frames self.old
            → OnErr result (DeliversFront (T.StandsFor outlet.old) (T.StandsFor outlet.new) (T.Refused outlet.new) (pairs_of_frame plan (frames ++ frame.now ∷ []) (length frames))) }
        ensures goes_on { OnOk result (self.new.is_open ≡ true) }
        ensures counted { self.new.stream.records ≡ self.old.stream.records + 1 }
        ensures closed { OnErr result (self.new.is_open ≡ false) }
        ensures plan { self.new.plan ≡ self.old.plan }
        ensures services { T.services outlet.new ≡ T.services outlet.old }
        ensures cause { HasCause (T.faults outlet.old) (T.faults outlet.new) result }
    {
        self.stream.records += 1;
        let frame = match read_frame(frame) {
            Ok(frame) => frame,
            Err(_) => {
                self.stream.unreadable = self.stream.unreadable.saturating_add(1);
                return Ok(());
            }
        };
        match receive_frame(self.plan, self.services.as_mut_slice(), &frame, outlet) {
            Ok(true) => Ok(()),
            Ok(false) => {
                self.stream.other = self.stream.other.saturating_add(1);
                Ok(())
            }
            Err(Failed) => {
                self.is_open = false;
                Err(Failed)
            }
        }
    }

    /// Ends the reception: the receiver is then not open. Fragments whose last one did not come give nothing.
    pub fn close(&mut self)
        requires is_open { self.old.is_open ≡ true }
        ensures received { (plan : PlanFields) (frames : List (List ℕ)) → HasReceived plan frames self.old → HasReceived plan frames self.new }
        ensures closed { self.new.is_open ≡ false }
        ensures plan { self.new.plan ≡ self.old.plan }
    {
        self.is_open = false;
    }

    /// Whether it may be given frames: until the first `Failed` or `close`.
    pub fn is_open(&self) -> bool
        ensures read { result ≡ self.now.is_open }
    {
        self.is_open
    }

    /// What was counted of the recording. The bytes after the last frame are not the receiver's: `tail_bytes` is 0.
    pub fn stream_counts(&self) -> StreamCounts
        ensures seen { result ≡ self.now.stream }
        ensures read { (plan : PlanFields) (frames : List (List ℕ)) → HasReceived plan frames self.now
            → result ≡ stream_counts_of (recording_numbers plan frames) }
    {
        self.stream
    }

    /// What was counted of a service, numbered from 0.
    pub fn counts(&self, service: u32) -> ServiceCounts
        requires { service < length self.now.plan.services }
        ensures read { (plan : PlanFields) (frames : List (List ℕ)) → HasReceived plan frames self.now → result ≡ counts_of_service plan service frames }
    {
        let receiver = &self.services[service as usize];
        receiver.reception.counts()
    }
}

/// No frame was taken.
fn nothing_counted() -> StreamCounts
    ensures { (plan : PlanFields) → result ≡ stream_counts_of (recording_numbers plan []) }
{
    StreamCounts {
        records: 0,
        tail_bytes: 0,
        unreadable: 0,
        without_payload: 0,
        other: 0,
    }
}
