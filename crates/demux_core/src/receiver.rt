//! The receiver of any plan, by its carrier: of transport packets, or of baseband frames.
ghost use Rattle.std.specs.Prelude.{◌≡◌, ℕ, ◌+◌, ◌^◌, ◌<◌, ◌≤◌, Bool, true, false, List, [], ◌∷◌, ◌++◌, length, Ok, None, IfOk, OnOk, OnErr, option_copied};
ghost use Rattle.wire_spec.specs.Causes.{HasCause};
ghost use Rattle.ts_spec.specs.Recording.{Record as ReadRecord};
ghost use Rattle.plan_spec.specs.Plan.{PlanFields, is_baseband};
ghost use Rattle.ts_record.specs.Reading.{record_seen};
ghost use Rattle.plan.specs.PlanView.{plan_fields};
ghost use Rattle.reception_spec.specs.Sums.{stream_numbers};
ghost use Rattle.reception_spec.specs.Delivered.{pairs_of_record, pairs_of_end};
ghost use Rattle.reception_spec.specs.Spans.{version_at_end};
ghost use Rattle.reception_spec.specs.Table.{table_units};
ghost use Rattle.reception_spec.specs.Shown.{table_section};
ghost use Rattle.bb_reception_spec.specs.Delivered.{pairs_of_frame};
ghost use Rattle.bb_reception_spec.specs.Numbers.{recording_numbers};
ghost use Rattle.bb_demux.specs.Counts.{stream_counts_of as counts_of_frames, counts_of_service as counts_in_frames};
ghost use Rattle.outlet_spec.specs.Pairs.{Delivers, DeliversFront};
ghost use Rattle.demux_core.specs.Counts.{stream_counts_of, counts_of_service};
ghost use Rattle.demux_core.specs.Carriers.{plan_of, is_open_in, stream_of, HasReceivedPackets, HasReceivedFrames};

use crate::packet_receiver::PacketReceiver;
use bb_demux::BbReceiver;
use bumpalo::Bump;
use ipe_io::{Failed, OutOfMemory, Outlet};
use loss_report::{ServiceCounts, StreamCounts};
use plan::Plan;
use std::marker::Model;
use ts_record::Record;

/// A receiver, by the carrier of its plan.
#[derive(Drop)]
pub(crate) enum ByCarrier<'a> {
    /// Of transport packets.
    Packets(PacketReceiver<'a>),
    /// Of baseband frames.
    Frames(BbReceiver<'a>),
}

/// The receiver of all services of a plan.
#[derive(Drop)]
pub struct Receiver<'a> {
    pub(crate) part: ByCarrier<'a>,
}

impl<'a> Model for Receiver<'a> {
    ghost use Rattle.demux_core.specs.declared.receiver.ByCarrier.{ByCarrier};
    ghost use Rattle.demux_core.specs.Carriers.{FitsCarrier};

    ghost Value = { ByCarrier };

    ghost view = { λ receiver. receiver.part };

    ghost invariant = { λ receiver. FitsCarrier receiver.part };
}

impl<'a> Receiver<'a> {
    /// A receiver that was given nothing. All its buffers lie in the arena, and none is taken later.
    pub fn open(arena: &'a Bump, plan: &'a Plan) -> Result<Receiver<'a>, OutOfMemory>
        ensures packets { is_baseband (plan_fields plan.now) ≡ false → IfOk result (λ receiver. HasReceivedPackets false (plan_fields plan.now) [] receiver) }
        ensures frames { is_baseband (plan_fields plan.now) ≡ true → IfOk result (λ receiver. HasReceivedFrames (plan_fields plan.now) [] receiver) }
        ensures is_open { IfOk result (λ receiver. is_open_in receiver ≡ true) }
        ensures plan { IfOk result (λ receiver. plan_of receiver ≡ plan_fields plan.now) }
    {
        match plan.frame_bytes {
            None => Ok(Receiver {
                part: ByCarrier::Packets(PacketReceiver::open(arena, plan)?),
            }),
            Some(_) => Ok(Receiver {
                part: ByCarrier::Frames(BbReceiver::open(arena, plan)?),
            }),
        }
    }

    /// Takes the next record of a recording of packets, and delivers the datagrams that it gives.
    ///
    /// Failed: the outlet refused one, and those after it are not offered; the record is counted as with Ok.
    /// No memory is taken.
    pub fn step<T: Outlet>(&mut self, item: &Record, outlet: &mut T) -> Result<(), Failed>
        requires packets { is_baseband (plan_of self.old) ≡ false }
        requires is_open { is_open_in self.old ≡ true }
        requires few { (stream_of self.old).records < 2 ^ 32 }
        requires served { length (plan_of self.old).services ≤ T.services outlet.old }
        ensures received { (plan : PlanFields) (records : List ReadRecord) → HasReceivedPackets false plan records self.old
            → HasReceivedPackets false plan (records ++ record_seen item.now ∷ []) self.new }
        ensures written { (plan : PlanFields) (records : List ReadRecord) → HasReceivedPackets false plan records self.old
            → OnOk result (Delivers (T.StandsFor outlet.old) (T.StandsFor outlet.new) (pairs_of_record plan (records ++ record_seen item.now ∷ []) (length records))) }
        ensures failed { (plan : PlanFields) (records : List ReadRecord) → HasReceivedPackets false plan records self.old
            → OnErr result (DeliversFront (T.StandsFor outlet.old) (T.StandsFor outlet.new) (T.Refused outlet.new) (pairs_of_record plan (records ++ record_seen item.now ∷ []) (length records))) }
        ensures goes_on { OnOk result (is_open_in self.new ≡ true) }
        ensures counted { (stream_of self.new).records ≡ (stream_of self.old).records + 1 }
        ensures closed { OnErr result (is_open_in self.new ≡ false) }
        ensures plan { plan_of self.new ≡ plan_of self.old }
        ensures services { T.services outlet.new ≡ T.services outlet.old }
        ensures cause { HasCause (T.faults outlet.old) (T.faults outlet.new) result }
    {
        match &mut self.part {
            ByCarrier::Packets(receiver) => receiver.step(item, outlet),
            ByCarrier::Frames(_) => unreachable!(),
        }
    }

    /// Takes the next baseband frame, and delivers the datagrams of the PDUs that end in it.
    ///
    /// Failed: the outlet refused one, and those after it are not offered; the frame and all its packets are counted as with Ok.
    /// No memory is taken.
    pub fn step_frame<T: Outlet>(&mut self, frame: &[u8], outlet: &mut T) -> Result<(), Failed>
        requires baseband { is_baseband (plan_of self.old) ≡ true }
        requires is_open { is_open_in self.old ≡ true }
        requires few { (stream_of self.old).records < 2 ^ 32 }
        requires header { 10 ≤ length frame.now }
        requires served { length (plan_of self.old).services ≤ T.services outlet.old }
        ensures received { (plan : PlanFields) (frames : List (List ℕ)) → HasReceivedFrames plan frames self.old
            → HasReceivedFrames plan (frames ++ frame.now ∷ []) self.new }
        ensures written { (plan : PlanFields) (frames : List (List ℕ)) → HasReceivedFrames plan frames self.old
            → OnOk result (Delivers (T.StandsFor outlet.old) (T.StandsFor outlet.new) (pairs_of_frame plan (frames ++ frame.now ∷ []) (length frames))) }
        ensures failed { (plan : PlanFields) (frames : List (List ℕ)) → HasReceivedFrames plan frames self.old
            → OnErr result (DeliversFront (T.StandsFor outlet.old) (T.StandsFor outlet.new) (T.Refused outlet.new) (pairs_of_frame plan (frames ++ frame.now ∷ []) (length frames))) }
        ensures goes_on { OnOk result (is_open_in self.new ≡ true) }
        ensures counted { (stream_of self.new).records ≡ (stream_of self.old).records + 1 }
        ensures closed { OnErr result (is_open_in self.new ≡ false) }
        ensures plan { plan_of self.new ≡ plan_of self.old }
        ensures services { T.services outlet.new ≡ T.services outlet.old }
        ensures cause { HasCause (T.faults outlet.old) (T.faults outlet.new) result }
    {
        match &mut self.part {
            ByCarrier::Packets(_) => unreachable!(),
            ByCarrier::Frames(receiver) => receiver.step_frame(frame, outlet),
        }
    }

    /// Ends the reception. MPE-FEC frames under way are closed, and their datagrams delivered; PDUs whose last fragment did not come
    /// give nothing. The receiver is then not open, and its counts are those of the recording.
    ///
    /// Failed: the outlet refused a datagram, and those after it are not offered; all frames are closed and counted as with Ok.
    pub fn finish<T: Outlet>(&mut self, outlet: &mut T) -> Result<(), Failed>
        requires is_open { is_open_in self.old ≡ true }
        requires served { length (plan_of self.old).services ≤ T.services outlet.old }
        ensures packets { (plan : PlanFields) (records : List ReadRecord) → HasReceivedPackets false plan records self.old → HasReceivedPackets true plan records self.new }
        ensures written { (plan : PlanFields) (records : List ReadRecord) → HasReceivedPackets false plan records self.old
            → OnOk result (Delivers (T.StandsFor outlet.old) (T.StandsFor outlet.new) (pairs_of_end plan records)) }
        ensures failed { (plan : PlanFields) (records : List ReadRecord) → HasReceivedPackets false plan records self.old
            → OnErr result (DeliversFront (T.StandsFor outlet.old) (T.StandsFor outlet.new) (T.Refused outlet.new) (pairs_of_end plan records)) }
        ensures frames { (plan : PlanFields) (frames : List (List ℕ)) → HasReceivedFrames plan frames self.old → HasReceivedFrames plan frames self.new }
        ensures done { is_baseband (plan_of self.old) ≡ true → result ≡ Ok tt }
        ensures unchanged { is_baseband (plan_of self.old) ≡ true → outlet.new ≡ outlet.old }
        ensures closed { is_open_in self.new ≡ false }
        ensures plan { plan_of self.new ≡ plan_of self.old }
        ensures services { T.services outlet.new ≡ T.services outlet.old }
        ensures cause { HasCause (T.faults outlet.old) (T.faults outlet.new) result }
    {
        match &mut self.part {
            ByCarrier::Packets(receiver) => receiver.finish(outlet),
            ByCarrier::Frames(receiver) => {
                receiver.close();
                Ok(())
            }
        }
    }

    /// Whether it may be given records or frames: until the first `Failed` or `finish`.
    pub fn is_open(&self) -> bool
        ensures read { result ≡ is_open_in self.now }
    {
        match &self.part {
            ByCarrier::Packets(receiver) => receiver.is_open(),
            ByCarrier::Frames(receiver) => receiver.is_open(),
        }
    }

    /// What was counted of the recording. The bytes after its last record are not the receiver's: `tail_bytes` is 0.
    pub fn stream_counts(&self) -> StreamCounts
        ensures seen { result ≡ stream_of self.now }
        ensures packets { (ended : Bool) (plan : PlanFields) (records : List ReadRecord) → HasReceivedPackets ended plan records self.now
            → result ≡ stream_counts_of (stream_numbers plan records) }
        ensures frames { (plan : PlanFields) (frames : List (List ℕ)) → HasReceivedFrames plan frames self.now
            → result ≡ counts_of_frames (recording_numbers plan frames) }
    {
        match &self.part {
            ByCarrier::Packets(receiver) => receiver.stream_counts(),
            ByCarrier::Frames(receiver) => receiver.stream_counts(),
        }
    }

    /// What was counted of a service, numbered from 0.
    pub fn counts(&self, service: u32) -> ServiceCounts
        requires { service < length (plan_of self.now).services }
        ensures packets { (ended : Bool) (plan : PlanFields) (records : List ReadRecord) → HasReceivedPackets ended plan records self.now
            → result ≡ counts_of_service ended plan service records }
        ensures frames { (plan : PlanFields) (frames : List (List ℕ)) → HasReceivedFrames plan frames self.now → result ≡ counts_in_frames plan service frames }
    {
        match &self.part {
            ByCarrier::Packets(receiver) => receiver.counts(service),
            ByCarrier::Frames(receiver) => receiver.counts(service),
        }
    }

    /// The section of the INT that put the version in force; at version 0 the first accepted section with the table_id of an INT
    /// on the INT's PID (EN 301 192 clause 8.4). Baseband frames carry none.
    pub fn table_section(&self) -> Option<&[u8]>
        ensures packets { (ended : Bool) (plan : PlanFields) (records : List ReadRecord) → HasReceivedPackets ended plan records self.now
            → option_copied result ≡ table_section plan records }
        ensures frames { is_baseband (plan_of self.now) ≡ true → option_copied result ≡ None }
    {
        match &self.part {
            ByCarrier::Packets(receiver) => receiver.table_section(),
            ByCarrier::Frames(_) => None,
        }
    }

    /// The accepted sections on the INT's PID.
    pub fn table_units(&self) -> u64
        ensures packets { (ended : Bool) (plan : PlanFields) (records : List ReadRecord) → HasReceivedPackets ended plan records self.now
            → result ≡ table_units plan records }
        ensures frames { is_baseband (plan_of self.now) ≡ true → result ≡ 0 }
    {
        match &self.part {
            ByCarrier::Packets(receiver) => receiver.table_units(),
            ByCarrier::Frames(_) => 0,
        }
    }

    /// The version of the plan that is in force: the one that the last switch put in force, or 0. Baseband frames carry no INT that could switch.
    pub fn plan_in_force(&self) -> u8
        ensures packets { (ended : Bool) (plan : PlanFields) (records : List ReadRecord) → HasReceivedPackets ended plan records self.now
            → result ≡ version_at_end plan records }
        ensures frames { is_baseband (plan_of self.now) ≡ true → result ≡ 0 }
    {
        match &self.part {
            ByCarrier::Packets(receiver) => receiver.plan_in_force(),
            ByCarrier::Frames(_) => 0,
        }
    }
}
