//! The datagrams of a service -> its packets, one after another.
ghost use Rattle.std.specs.Prelude.{◌≡◌, ℕ, ◌<◌, ◌≤◌, ◌+◌, ◌%◌, ◌^◌, true, length, is_some, None};
ghost use Rattle.stream_spec.specs.Units.{FrameSchedule, packets_of_kind};
ghost use Rattle.plan_spec.specs.Plan.{fec, sliced_of};
ghost use Rattle.burst_packets.specs.Bursts.{kind_of};
ghost use Rattle.plan_spec.specs.Changes.{with_pid};
ghost use Rattle.plan.specs.Parts.{kind_seen};
ghost use Rattle.stream_law.specs.Words.{is_single};
ghost use Rattle.ts_mux.specs.Units.{AreFor, AreEndsOf};
ghost use Rattle.ts_mux.specs.ServiceUnits.{AreUnitsFor};
ghost use Rattle.ts_mux.specs.Services.{behind_in, turns_in_service, bursts_in, no_bursts, shape_in, AreTimesOf};

use crate::service_units::ServiceUnits;
use crate::unit_bytes::UnitBytes;
use burst_packets::{BurstPackets, FramePackets, Shape, Timing};
use ip_datagram::DatagramList;
use ipe_io::Recording;
use plan::{Kind, Service};
use section_codec::SectionForm;
use std::alloc::{AllocError as OutOfMemory, Global};
use std::marker::Model;
use ule_unit::UleForm;
use unit_stream::{Packer, UnitForm};

/// Datagrams of a service on their way into the packets of its PID.
#[derive(Drop)]
pub(crate) struct DatagramPackets<'a, F: UnitForm> {
    service: &'a Service,
    datagrams: &'a DatagramList,
    /// Where the unit of each datagram ends among the bytes of all units.
    ends: &'a [usize],
    /// The bytes of the units that are not out.
    units: UnitBytes,
    packer: Packer<F>,
}

impl<'a, F: UnitForm> Model for DatagramPackets<'a, F> {
    ghost use Rattle.plan.specs.Parts.{kind_seen};
    ghost use Rattle.ts_mux.specs.Units.{unit_bytes};
    ghost use Rattle.ts_mux.specs.Coming.{Coming, coming};
    ghost use Rattle.ts_mux.specs.Reading.{IsSending};

    ghost Value = { Coming };

    ghost view = { λ p. coming F.form p.packer (unit_bytes (kind_seen p.service.now.kind) p.service.now.unicast p.datagrams.now) p.ends.now };

    ghost invariant = { λ p. IsSending F.START (kind_seen p.service.now.kind) p.service.now.unicast p.datagrams.now p.ends.now p.units p.packer };
}

impl<'a, F: UnitForm> DatagramPackets<'a, F> {
    ghost use Rattle.std.specs.Prelude.{◌≡◌, ℕ, ◌<◌, ◌≤◌, ◌+◌, ◌%◌, ◌^◌, [], ◌∷◌, true, length, map, nat_lt, All};
    ghost use Rattle.ts_spec.specs.Packet.{PacketFields};
    ghost use Rattle.stream_spec.specs.Parts.{written};
    ghost use Rattle.stream_law.specs.Words.{is_single};
    ghost use Rattle.plan.specs.Parts.{kind_seen};
    ghost use Rattle.unit_stream.specs.Packing.{packetized};
    ghost use Rattle.ts_mux.specs.Units.{AreFor, AreEndsOf};
    ghost use Rattle.stream_spec.specs.Units.{unit_of};

    /// The packets of these datagrams, whose units end at `ends`; the PID is 0 to 8191, the counter of the first packet 0 to 15.
    fn new(
        service: &'a Service,
        datagrams: &'a DatagramList,
        ends: &'a [usize],
        pid: u16,
        packing: bool,
        counter: u8,
    ) -> DatagramPackets<'a, F>
        requires single { is_single (kind_seen service.now.kind) ≡ true }
        requires datagrams { AreFor (kind_seen service.now.kind) datagrams.now }
        requires few { length datagrams.now < 2 ^ 32 }
        requires ends { AreEndsOf (kind_seen service.now.kind) service.now.unicast datagrams.now ends.now }
        requires pid { pid ≤ 8191 }
        requires counter { counter ≤ 15 }
        requires least { All (λ unit. F.START ≤ length unit) (map (unit_of (kind_seen service.now.kind) service.now.unicast) datagrams.now) }
        ensures written { result.packets ≡ packetized F.form packing pid counter (map (unit_of (kind_seen service.now.kind) service.now.unicast) datagrams.now) }
        ensures behind { result.behind ≡ (counter + length result.packets) % 16 }
        ensures most { length result.packets ≤ 2 ^ 48 }
    {
        DatagramPackets {
            service,
            datagrams,
            ends,
            units: UnitBytes::new(),
            packer: Packer::with_counter(pid, packing, counter),
        }
    }

    /// The counter of the packet that would follow, where none is to come.
    fn counter(&self) -> u8
        requires { self.now.packets ≡ [] }
        ensures read { result ≡ self.now.behind }
        ensures below { result ≤ 15 }
    {
        self.packer.counter()
    }

    /// Whether there are more to come.
    fn has_next(&self) -> bool
        ensures read { result ≡ nat_lt 0 (length self.now.packets) }
    {
        self.packer.has_next(self.ends)
    }

    /// Writes the next one.
    fn next(&mut self, into: &mut [u8; 188])
        requires { 0 < length self.old.packets }
        ensures next { (packet : PacketFields) × (self.old.packets ≡ packet ∷ self.new.packets) × (into.new ≡ written packet) }
        ensures behind { self.new.behind ≡ self.old.behind }
    {
        let Some(room) = self.packer.next_around(self.ends, into) else {
            unreachable!();
        };
        let place = &mut into[room.from..room.from + room.size];
        self.units.read(self.service, self.datagrams, place);
    }
}

/// The packets of a service.
#[derive(Drop)]
pub(crate) enum ServicePackets<'a> {
    /// Of SNDUs.
    Ule(DatagramPackets<'a, UleForm>),
    /// Of datagram_sections.
    Mpe(DatagramPackets<'a, SectionForm>),
    /// Of the sections of MPE-FEC frames.
    Fec(FramePackets<'a>),
    /// Of the sections of MPE-FEC frames with time slicing: each frame is a burst.
    Sliced(BurstPackets<'a>),
}

impl<'a> ServicePackets<'a> {
    ghost use Rattle.std.specs.Prelude.{◌≡◌, ℕ, ◌+◌, ◌<◌, ◌≤◌, ◌^◌, ◌∷◌, [], length, nat_lt, IfOk};
    ghost use Rattle.ts_spec.specs.Packet.{PacketFields};
    ghost use Rattle.stream_spec.specs.Parts.{written};
    ghost use Rattle.plan_spec.specs.Plan.{sliced_of};
    ghost use Rattle.plan.specs.Parts.{kind_seen};
    ghost use Rattle.ts_mux.specs.Units.{AreFor};
    ghost use Rattle.ts_mux.specs.ServiceUnits.{AreUnitsFor, HasFrames};
    ghost use Rattle.ts_mux.specs.Services.{packets_in, behind_in, turns_in_service, bursts_in, shape_in, shape_of, opening, HasTimes, BeginsService};

    /// The packets of a service of these datagrams, with these units; the PID is 0 to 8191, the counter of the first packet 0 to 15.
    /// `times` says when the bursts of a sliced service go out.
    pub(crate) fn new(
        alloc: Global,
        service: &'a Service,
        datagrams: &'a DatagramList,
        units: &'a ServiceUnits,
        pid: u16,
        counter: u8,
        times: Times,
    ) -> Result<ServicePackets<'a>, OutOfMemory>
        requires datagrams { AreFor (kind_seen service.now.kind) datagrams.now }
        requires few { length datagrams.now < 2 ^ 32 }
        requires units { (number : ℕ) × AreUnitsFor (kind_seen service.now.kind) service.now.unicast number datagrams.now units.now }
        requires frames { HasFrames (kind_seen service.now.kind) }
        requires times { HasTimes (kind_seen service.now.kind) times }
        requires pid { pid ≤ 8191 }
        requires counter { counter ≤ 15 }
        ensures begun { IfOk result (BeginsService (kind_seen service.now.kind) service.now.unicast pid counter datagrams.now units.now times) }
    {
        match units {
            ServiceUnits::Ends(ends) => {
                Ok(packets_of_datagrams(service, datagrams, ends, pid, counter))
            }
            ServiceUnits::Frames(units, first) => {
                let shape = frames_of(service);
                let ends = units.ends.as_slice();
                let packets = FramePackets::new(
                    alloc, shape, datagrams, ends, *first, pid, counter,
                )?;
                Ok(ServicePackets::Fec(packets))
            }
            ServiceUnits::Bursts(ends) => {
                let (shape, timing) = bursts_of(service, times);
                let packets = BurstPackets::new(
                    alloc, shape, timing, datagrams, ends, pid, counter,
                )?;
                Ok(ServicePackets::Sliced(packets))
            }
        }
    }

    /// The same of the next part, where the service was the same. It takes no memory.
    pub(crate) fn restart(
        &mut self,
        service: &'a Service,
        datagrams: &'a DatagramList,
        units: &'a ServiceUnits,
        pid: u16,
        counter: u8,
        times: Times,
    )
        requires datagrams { AreFor (kind_seen service.now.kind) datagrams.now }
        requires few { length datagrams.now < 2 ^ 32 }
        requires units { (number : ℕ) × AreUnitsFor (kind_seen service.now.kind) service.now.unicast number datagrams.now units.now }
        requires frames { HasFrames (kind_seen service.now.kind) }
        requires times { HasTimes (kind_seen service.now.kind) times }
        requires shape { shape_in self.old ≡ shape_of (kind_seen service.now.kind) }
        requires pid { pid ≤ 8191 }
        requires counter { counter ≤ 15 }
        ensures begun { BeginsService (kind_seen service.now.kind) service.now.unicast pid counter datagrams.now units.now times self.new }
    {
        match units {
            ServiceUnits::Ends(ends) => {
                *self = packets_of_datagrams(service, datagrams, ends, pid, counter);
            }
            ServiceUnits::Frames(units, first) => {
                let ServicePackets::Fec(packets) = self else {
                    unreachable!();
                };
                let shape = frames_of(service);
                let ends = units.ends.as_slice();
                packets.restart(shape, datagrams, ends, *first, pid, counter);
            }
            ServiceUnits::Bursts(ends) => {
                let ServicePackets::Sliced(packets) = self else {
                    unreachable!();
                };
                let (shape, timing) = bursts_of(service, times);
                packets.restart(shape, timing, datagrams, ends, pid, counter);
            }
        }
    }

    /// The counter of the packet that would follow, where none is to come.
    pub(crate) fn counter(&self) -> u8
        requires { packets_in self.now ≡ [] }
        ensures read { result ≡ behind_in self.now }
        ensures below { result ≤ 15 }
    {
        match self {
            ServicePackets::Ule(packets) => packets.counter(),
            ServicePackets::Mpe(packets) => packets.counter(),
            ServicePackets::Fec(packets) => packets.counter(),
            ServicePackets::Sliced(packets) => packets.counter(),
        }
    }

    /// Whether there are more packets to come in rotation.
    pub(crate) fn has_turn(&self) -> bool
        ensures read { result ≡ nat_lt 0 (length (turns_in_service self.now)) }
    {
        match self {
            ServicePackets::Ule(packets) => packets.has_next(),
            ServicePackets::Mpe(packets) => packets.has_next(),
            ServicePackets::Fec(packets) => packets.has_next(),
            ServicePackets::Sliced(_) => false,
        }
    }

    /// Whether there are more packets to come in bursts.
    pub(crate) fn has_bursts(&self) -> bool
        ensures read { result ≡ nat_lt 0 (length (bursts_in self.now).packets) }
    {
        match self {
            ServicePackets::Sliced(packets) => packets.has_next(),
            _ => false,
        }
    }

    /// Writes the next one in rotation.
    pub(crate) fn next(&mut self, into: &mut [u8; 188])
        requires { 0 < length (turns_in_service self.old) }
        ensures next { (packet : PacketFields) × (turns_in_service self.old ≡ packet ∷ turns_in_service self.new) × (into.new ≡ written packet) }
        ensures behind { behind_in self.new ≡ behind_in self.old }
        ensures bursts { bursts_in self.new ≡ bursts_in self.old }
        ensures shape { shape_in self.new ≡ shape_in self.old }
    {
        match self {
            ServicePackets::Ule(packets) => packets.next(into),
            ServicePackets::Mpe(packets) => packets.next(into),
            ServicePackets::Fec(packets) => packets.next(into),
            ServicePackets::Sliced(_) => unreachable!(),
        }
    }

    /// Opens the window of a sliced service in the next cycle.
    pub(crate) fn open(&mut self)
        requires { (bursts_in self.old).under_way ≡ 0 }
        ensures opened { bursts_in self.new ≡ opening (bursts_in self.old) }
        ensures turns { turns_in_service self.new ≡ turns_in_service self.old }
        ensures behind { behind_in self.new ≡ behind_in self.old }
        ensures shape { shape_in self.new ≡ shape_in self.old }
    {
        if let ServicePackets::Sliced(packets) = self {
            packets.open();
        }
    }

    /// Whether there are more packets to come of the burst whose window is open.
    pub(crate) fn in_burst(&self) -> bool
        ensures read { result ≡ nat_lt 0 (bursts_in self.now).under_way }
    {
        match self {
            ServicePackets::Sliced(packets) => packets.in_burst(),
            _ => false,
        }
    }

    /// Writes the next one of the burst whose window is open.
    pub(crate) fn give(&mut self, into: &mut [u8; 188])
        requires { 0 < (bursts_in self.old).under_way }
        ensures next { (packet : PacketFields) × ((bursts_in self.old).packets ≡ packet ∷ (bursts_in self.new).packets) × (into.new ≡ written packet) }
        ensures left { (bursts_in self.old).under_way ≡ (bursts_in self.new).under_way + 1 }
        ensures sizes { (bursts_in self.new).sizes ≡ (bursts_in self.old).sizes }
        ensures turns { turns_in_service self.new ≡ turns_in_service self.old }
        ensures behind { behind_in self.new ≡ behind_in self.old }
        ensures shape { shape_in self.new ≡ shape_in self.old }
    {
        let ServicePackets::Sliced(packets) = self else {
            unreachable!();
        };
        packets.next(into);
    }
}

/// When the bursts of a service go out in a part, beside the window that each cycle has.
#[derive(Clone, Copy)]
pub(crate) struct Times {
    pub(crate) recording: Recording,
    /// Packets in a second.
    pub(crate) packet_rate: u32,
    /// Slots in a cycle.
    pub(crate) cycle: u32,
    /// Slots of the stream before the part.
    pub(crate) before: u64,
    /// Whether the service has datagrams in a later part.
    pub(crate) goes_on: bool,
}

/// The frames of a service without time slicing.
fn frames_of(service: &Service) -> Shape
    requires framed { (pid rows parity : ℕ) × (kind_seen service.now.kind ≡ fec pid rows parity None) }
    ensures read { (pid rows parity : ℕ) → kind_seen service.now.kind ≡ fec pid rows parity None → (result.rows ≡ rows) × (result.columns ≡ parity) }
    ensures unicast { result.unicast ≡ service.now.unicast }
{
    let Kind::Fec { rows, parity, .. } = service.kind else {
        unreachable!();
    };
    Shape {
        rows,
        columns: parity,
        unicast: service.unicast,
    }
}

/// The frames of a sliced service, and when their bursts go out.
fn bursts_of(service: &Service, times: Times) -> (Shape, Timing)
    requires sliced { is_some (sliced_of (kind_seen service.now.kind)) ≡ true }
    ensures kind { (pid : ℕ) → with_pid (kind_seen service.now.kind) pid ≡ kind_of result.0 result.1 pid }
    ensures unicast { result.0.unicast ≡ service.now.unicast }
    ensures timing { AreTimesOf times result.1 }
{
    let Kind::Fec {
        rows,
        parity,
        window: Some((start, length)),
        ..
    } = service.kind
    else {
        unreachable!();
    };
    let shape = Shape {
        rows,
        columns: parity,
        unicast: service.unicast,
    };
    let timing = Timing {
        recording: times.recording,
        packet_rate: times.packet_rate,
        cycle: times.cycle,
        start,
        length,
        slots_before: times.before,
        goes_on: times.goes_on,
    };
    (shape, timing)
}

/// The packets of a service of these datagrams, each with a unit of its own, which end at `ends`.
fn packets_of_datagrams<'a>(
    service: &'a Service,
    datagrams: &'a DatagramList,
    ends: &'a [usize],
    pid: u16,
    counter: u8,
) -> ServicePackets<'a>
    requires single { is_single (kind_seen service.now.kind) ≡ true }
    requires datagrams { AreFor (kind_seen service.now.kind) datagrams.now }
    requires few { length datagrams.now < 2 ^ 32 }
    requires ends { AreEndsOf (kind_seen service.now.kind) service.now.unicast datagrams.now ends.now }
    requires pid { pid ≤ 8191 }
    requires counter { counter ≤ 15 }
    ensures written { (schedule : FrameSchedule) → turns_in_service result ≡ packets_of_kind (with_pid (kind_seen service.now.kind) pid) service.now.unicast counter schedule datagrams.now }
    ensures behind { behind_in result ≡ (counter + length (turns_in_service result)) % 16 }
    ensures most { length (turns_in_service result) ≤ 2 ^ 48 }
    ensures bursts { bursts_in result ≡ no_bursts }
    ensures shape { shape_in result ≡ None }
{
    match service.kind {
        Kind::Ule { packing, .. } => {
            let packets = DatagramPackets::new(service, datagrams, ends, pid, packing, counter);
            ServicePackets::Ule(packets)
        }
        Kind::Mpe { .. } => {
            // A section may begin in the packet in which the one before ends.
            let packets = DatagramPackets::new(service, datagrams, ends, pid, true, counter);
            ServicePackets::Mpe(packets)
        }
        Kind::Fec { .. } | Kind::Gse { .. } => unreachable!(),
    }
}
