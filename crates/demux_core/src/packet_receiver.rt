//! The receiver of transport packets: it takes one record at a time.
ghost use Rattle.std.specs.Prelude.{◌≡◌, ◌+◌, ◌^◌, ◌<◌, ◌≤◌, Bool, true, false, List, [], ◌∷◌, ◌++◌, length, IfOk, OnOk, OnErr, option_copied};
ghost use Rattle.wire_spec.specs.Causes.{HasCause};
ghost use Rattle.ts_spec.specs.Recording.{Record as ReadRecord};
ghost use Rattle.plan_spec.specs.Plan.{PlanFields, is_baseband};
ghost use Rattle.ts_record.specs.Reading.{record_seen};
ghost use Rattle.plan.specs.PlanView.{plan_fields};
ghost use Rattle.reception_spec.specs.Sums.{stream_numbers};
ghost use Rattle.reception_spec.specs.Delivered.{pairs_of_record, pairs_of_end};
ghost use Rattle.reception_spec.specs.Table.{table_units};
ghost use Rattle.reception_spec.specs.Shown.{table_section};
ghost use Rattle.reception_spec.specs.Spans.{version_at_end};
ghost use Rattle.demux_core.specs.Counts.{stream_counts_of, counts_of_service};
ghost use Rattle.outlet_spec.specs.Pairs.{Delivers, DeliversFront};
ghost use Rattle.demux_core.specs.Receiving.{HasReceived};

use crate::content::{Content, content_of};
use crate::int_receiver::{IntReceiver, open_int, version_in_force};
use crate::packet::receive_packet;
use crate::services::{Services, open_services};
use crate::switch::close_services;
use bumpalo::Bump;
use ipe_io::{Failed, OutOfMemory, Outlet};
use loss_report::{ServiceCounts, StreamCounts};
use plan::Plan;
use std::marker::Model;
use ts_record::Record;

/// The receiver of all services of a plan of transport packets.
#[derive(Drop)]
pub struct PacketReceiver<'a> {
    plan: &'a Plan,
    is_open: bool,
    stream: StreamCounts,
    services: Services<'a>,
    table: Option<IntReceiver<'a>>,
}

impl<'a> Model for PacketReceiver<'a> {
    ghost use Rattle.demux_core.specs.Receiving.{ReceiverState};
    ghost use Rattle.plan.specs.PlanView.{plan_fields};
    ghost use Rattle.demux_core.specs.Services.{FitsPlan};
    ghost use Rattle.demux_core.specs.Places.{AreFound};
    ghost use Rattle.std.specs.Prelude.{◌≤◌, ◌^◌, length};

    ghost Value = { ReceiverState };

    ghost view = { λ receiver. record {
      plan = plan_fields receiver.plan.now;
      is_open = receiver.is_open;
      stream = receiver.stream;
      services = receiver.services.receivers.items;
      table = receiver.table;
    } };

    ghost invariant = { λ receiver. FitsPlan (plan_fields receiver.plan.now) (length receiver.services.receivers.items) receiver.table
        × AreFound receiver.services × (receiver.stream.records ≤ 2 ^ 32) };
}

impl<'a> PacketReceiver<'a> {
    /// A receiver that was given nothing, of a plan of transport packets. All its buffers lie in the arena, and none is taken later.
    pub fn open(arena: &'a Bump, plan: &'a Plan) -> Result<PacketReceiver<'a>, OutOfMemory>
        requires packets { is_baseband (plan_fields plan.now) ≡ false }
        ensures received { IfOk result (λ receiver. HasReceived false (plan_fields plan.now) [] receiver) }
        ensures is_open { IfOk result (λ receiver. receiver.is_open ≡ true) }
        ensures plan { IfOk result (λ receiver. receiver.plan ≡ plan_fields plan.now) }
    {
        let table = open_int(arena, &plan.table, plan.changes.len() as u8)?;
        let services = open_services(arena, &plan.services, plan.recording)?;
        Ok(PacketReceiver {
            plan,
            is_open: true,
            stream: nothing_counted(),
            services,
            table,
        })
    }

    /// Takes the next record, and delivers the datagrams that it gives.
    ///
    /// Failed: the outlet refused one, and those after it are not offered; the record is counted as with Ok.
    /// No memory is taken.
    pub fn step<T: Outlet>(&mut self, item: &Record, outlet: &mut T) -> Result<(), Failed>
        requires is_open { self.old.is_open ≡ true }
        requires few { self.old.stream.records < 2 ^ 32 }
        requires served { length self.old.plan.services ≤ T.services outlet.old }
        ensures received { (plan : PlanFields) (records : List ReadRecord) → HasReceived false plan records self.old
            → HasReceived false plan (records ++ record_seen item.now ∷ []) self.new }
        ensures written { (plan : PlanFields) (records : List ReadRecord) → HasReceived false plan records self.old
            → OnOk result (Delivers (T.StandsFor outlet.old) (T.StandsFor outlet.new) (pairs_of_record plan (records ++ record_seen item.now ∷ []) (length records))) }
        ensures failed { (plan : PlanFields) (records : List ReadRecord) → HasReceived false plan records self.old
            → OnErr result (DeliversFront (T.StandsFor outlet.old) (T.StandsFor outlet.new) (T.Refused outlet.new) (pairs_of_record plan (records ++ record_seen item.now ∷ []) (length records))) }
        ensures goes_on { OnOk result (self.new.is_open ≡ true) }
        ensures counted { self.new.stream.records ≡ self.old.stream.records + 1 }
        ensures closed { OnErr result (self.new.is_open ≡ false) }
        ensures plan { self.new.plan ≡ self.old.plan }
        ensures services { T.services outlet.new ≡ T.services outlet.old }
        ensures cause { HasCause (T.faults outlet.old) (T.faults outlet.new) result }
    {
        self.step_record(item.moment, &item.bytes, outlet)
    }

    /// Takes the next record, a packet and its moment, from where it lies; otherwise as `step`.
    ///
    /// Failed: the outlet refused one, and those after it are not offered; the record is counted as with Ok.
    /// No memory is taken.
    pub fn step_record<T: Outlet>(
        &mut self,
        moment: Option<u64>,
        bytes: &[u8; 188],
        outlet: &mut T,
    ) -> Result<(), Failed>
        requires is_open { self.old.is_open ≡ true }
        requires few { self.old.stream.records < 2 ^ 32 }
        requires served { length self.old.plan.services ≤ T.services outlet.old }
        ensures received { (plan : PlanFields) (records : List ReadRecord) → HasReceived false plan records self.old
            → HasReceived false plan (records ++ record { moment = moment; bytes = bytes.now } ∷ []) self.new }
        ensures written { (plan : PlanFields) (records : List ReadRecord) → HasReceived false plan records self.old
            → OnOk result (Delivers (T.StandsFor outlet.old) (T.StandsFor outlet.new) (pairs_of_record plan (records ++ record { moment = moment; bytes = bytes.now } ∷ []) (length records))) }
        ensures failed { (plan : PlanFields) (records : List ReadRecord) → HasReceived false plan records self.old
            → OnErr result (DeliversFront (T.StandsFor outlet.old) (T.StandsFor outlet.new) (T.Refused outlet.new) (pairs_of_record plan (records ++ record { moment = moment; bytes = bytes.now } ∷ []) (length records))) }
        ensures goes_on { OnOk result (self.new.is_open ≡ true) }
        ensures counted { self.new.stream.records ≡ self.old.stream.records + 1 }
        ensures closed { OnErr result (self.new.is_open ≡ false) }
        ensures plan { self.new.plan ≡ self.old.plan }
        ensures services { T.services outlet.new ≡ T.services outlet.old }
        ensures cause { HasCause (T.faults outlet.old) (T.faults outlet.new) result }
    {
        self.stream.records += 1;
        let (packet, moment) = match content_of(moment, bytes) {
            Content::Packet(packet, moment) => (packet, moment),
            Content::WithoutPayload => {
                self.stream.without_payload = self.stream.without_payload.saturating_add(1);
                return Ok(());
            }
            Content::Unreadable => {
                self.stream.unreadable = self.stream.unreadable.saturating_add(1);
                return Ok(());
            }
        };
        match receive_packet(
            self.plan,
            &mut self.table,
            &mut self.services,
            bytes,
            &packet,
            moment,
            outlet,
        ) {
            Ok(true) => Ok(()),
            Ok(false) => {
                self.stream.other = self.stream.other.saturating_add(1);
                Ok(())
            }
            Err(Failed) => {
                self.is_open = false;
                Err(Failed)
            }
        }
    }

    /// Ends the reception: the frames under way are closed, and their datagrams delivered. The receiver is then not open, and its counts are
    /// those of the recording.
    ///
    /// Failed: the outlet refused a datagram, and those after it are not offered; all frames are closed and counted as with Ok.
    pub fn finish<T: Outlet>(&mut self, outlet: &mut T) -> Result<(), Failed>
        requires is_open { self.old.is_open ≡ true }
        requires served { length self.old.plan.services ≤ T.services outlet.old }
        ensures received { (plan : PlanFields) (records : List ReadRecord) → HasReceived false plan records self.old → HasReceived true plan records self.new }
        ensures written { (plan : PlanFields) (records : List ReadRecord) → HasReceived false plan records self.old
            → OnOk result (Delivers (T.StandsFor outlet.old) (T.StandsFor outlet.new) (pairs_of_end plan records)) }
        ensures failed { (plan : PlanFields) (records : List ReadRecord) → HasReceived false plan records self.old
            → OnErr result (DeliversFront (T.StandsFor outlet.old) (T.StandsFor outlet.new) (T.Refused outlet.new) (pairs_of_end plan records)) }
        ensures closed { self.new.is_open ≡ false }
        ensures plan { self.new.plan ≡ self.old.plan }
        ensures services { T.services outlet.new ≡ T.services outlet.old }
        ensures cause { HasCause (T.faults outlet.old) (T.faults outlet.new) result }
    {
        self.is_open = false;
        close_services(self.plan, &mut self.services, outlet)
    }

    /// Whether it may be given records: until the first `Failed` or `finish`.
    pub fn is_open(&self) -> bool
        ensures read { result ≡ self.now.is_open }
    {
        self.is_open
    }

    /// What was counted of the stream. The bytes after the last record are not the receiver's: `tail_bytes` is 0.
    pub fn stream_counts(&self) -> StreamCounts
        ensures seen { result ≡ self.now.stream }
        ensures read { (ended : Bool) (plan : PlanFields) (records : List ReadRecord) → HasReceived ended plan records self.now
            → result ≡ stream_counts_of (stream_numbers plan records) }
    {
        self.stream
    }

    /// What was counted of a service, numbered from 0, on all its PIDs.
    pub fn counts(&self, service: u32) -> ServiceCounts
        requires { service < length self.now.plan.services }
        ensures read { (ended : Bool) (plan : PlanFields) (records : List ReadRecord) → HasReceived ended plan records self.now
            → result ≡ counts_of_service ended plan service records }
    {
        let receiver = &self.services.receivers[service as usize];
        receiver.counts()
    }

    /// The version of the plan that is in force: the greatest that an accepted section of the INT said, at first 0.
    pub fn plan_in_force(&self) -> u8
        ensures read { (ended : Bool) (plan : PlanFields) (records : List ReadRecord) → HasReceived ended plan records self.now
            → result ≡ version_at_end plan records }
    {
        version_in_force(&self.table)
    }

    /// The section of the INT that put the version in force; at version 0 the first accepted section with the table_id of an INT
    /// on the INT's PID (EN 301 192 clause 8.4).
    pub fn table_section(&self) -> Option<&[u8]>
        ensures read { (ended : Bool) (plan : PlanFields) (records : List ReadRecord) → HasReceived ended plan records self.now
            → option_copied result ≡ table_section plan records }
    {
        match &self.table {
            Some(table) => table.reception.section(),
            None => None,
        }
    }

    /// The accepted sections on the INT's PID.
    pub fn table_units(&self) -> u64
        ensures read { (ended : Bool) (plan : PlanFields) (records : List ReadRecord) → HasReceived ended plan records self.now
            → result ≡ table_units plan records }
    {
        match &self.table {
            Some(table) => table.reception.units(),
            None => 0,
        }
    }
}

/// No record was taken.
fn nothing_counted() -> StreamCounts
    ensures { (plan : PlanFields) → result ≡ stream_counts_of (stream_numbers plan []) }
{
    StreamCounts {
        records: 0,
        tail_bytes: 0,
        unreadable: 0,
        without_payload: 0,
        other: 0,
    }
}
