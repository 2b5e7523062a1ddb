//! The bursts of a service, one after another, and the packets of each.
ghost use Rattle.std.specs.Prelude.{◌≡◌, ℕ, ◌+◌, ◌<◌, ◌≤◌, ◌^◌, not, ◌&&◌, nat_eq, length, All};
ghost use Rattle.slice_spec.specs.Bursts.{IsSliceable};
ghost use Rattle.unit_stream.specs.Packers.{end_of};
ghost use Rattle.fec_units.specs.Bursts.{AreFirst};
ghost use Rattle.burst_packets.specs.Timing.{slicing_in};
ghost use Rattle.burst_packets.specs.Bursts.{delta_in, ends_in};

use crate::timing::Timing;
use fec_units::BurstBuffer;
use ip_datagram::DatagramList;
use section_codec::SectionForm;
use std::alloc::{AllocError as OutOfMemory, Global};
use std::marker::Model;
use unit_stream::Packer;

/// Packets of the longest burst: of 1,024 rows and 64 columns, and of 9,779 datagrams of 20 bytes, with 418,608 bytes of sections.
pub(crate) const MOST_PACKETS: usize = 2_288;

/// The frames of a service.
#[derive(Clone, Copy)]
pub struct Shape {
    /// Rows: 256, 512, 768 or 1,024.
    pub rows: u16,
    /// Columns of the RS data table that are sent: 1 to 64.
    pub columns: u8,
    /// The address of the service's own receivers.
    pub unicast: [u8; 6],
}

/// Writes delta_t of each packet of the burst of a cycle: 0 in the last burst of all.
fn put_deltas(deltas: &mut [u16], timing: &Timing, cycle: u64, is_last: bool)
    requires sliceable { IsSliceable (slicing_in timing.now) }
    ensures size { length deltas.new ≡ length deltas.old }
    ensures below { All (λ (delta : ℕ). delta < 2 ^ 12) deltas.new }
    ensures written { AreFirst (length deltas.old) (delta_in timing.now is_last cycle) deltas.new }
{
    for packet in 0..deltas.len() {
        let delta = timing.delta_after(cycle, packet as u64);
        deltas[packet] = if is_last { 0 } else { delta };
    }
}

/// Where the last of so many bursts ends.
fn place_after(ends: &[u32], bursts: usize) -> usize
    requires { bursts ≤ length ends.now }
    ensures { result ≡ end_of ends.now bursts }
{
    if bursts == 0 {
        0
    } else {
        ends[bursts - 1] as usize
    }
}

/// Whether a burst is the last of all, where so many of the part come before it.
fn is_last(timing: &Timing, before: usize, count: usize) -> bool
    requires { before < count }
    ensures { result ≡ (not timing.now.goes_on && nat_eq (before + 1) count) }
{
    !timing.goes_on && before + 1 == count
}

/// Where the units of a burst end, where so many windows have opened.
fn unit_ends(burst: &BurstBuffer, opened: usize) -> &[usize]
    ensures { result.now ≡ ends_in opened burst.now }
{
    let ends = burst.ends();
    if opened == 0 { &ends[..0] } else { ends }
}

/// The bursts of a sliced service on their way into the packets of its PID.
///
/// The units of a burst are made when its window opens, into memory that `new` took: none is taken later.
#[derive(Drop)]
pub struct BurstPackets<'a> {
    unicast: [u8; 6],
    timing: Timing,
    datagrams: &'a DatagramList,
    /// Where the datagrams of each burst end in their list.
    ends: &'a [u32],
    /// How many windows with a burst have opened.
    opened: usize,
    /// The units of the last of these bursts.
    burst: BurstBuffer,
    /// delta_t of each packet of it.
    deltas: Vec<u16>,
    packer: Packer<SectionForm>,
}

impl<'a> Model for BurstPackets<'a> {
    ghost use Rattle.std.specs.Prelude.{◌≡◌, vec_len};
    ghost use Rattle.burst_packets.specs.Bursts.{Bursts, AreUnderWay, bursts_seen};

    ghost Value = { Bursts };

    ghost view = { λ p. bursts_seen p.burst p.unicast p.timing p.datagrams.now p.opened p.packer };

    ghost invariant = { λ p. AreUnderWay p.burst p.timing p.datagrams.now p.ends.now p.opened p.packer × (vec_len p.deltas ≡ 2288) };
}

impl<'a> BurstPackets<'a> {
    ghost use Rattle.std.specs.Prelude.{◌≡◌, ℕ, ◌+◌, ◌%◌, ◌<◌, ◌≤◌, ◌^◌, [], ◌∷◌, length, drop, slice_index, nat_lt, IfOk};
    ghost use Rattle.ts_spec.specs.Packet.{PacketFields};
    ghost use Rattle.section_spec.specs.Mpe.{IsRows};
    ghost use Rattle.slice_spec.specs.Bursts.{IsSliceable};
    ghost use Rattle.fec_sent_law.specs.Frames.{AreSendable};
    ghost use Rattle.stream_spec.specs.Parts.{written};
    ghost use Rattle.fec_units.specs.Bursts.{AreBurstEnds};
    ghost use Rattle.burst_packets.specs.Timing.{slicing_in};
    ghost use Rattle.burst_packets.specs.Bursts.{Begins};

    /// The bursts of these datagrams, which end at `ends` in their list, before the first slot of a part.
    ///
    /// The PID is 0 to 8191, the counter of the first packet 0 to 15.
    pub fn new(
        alloc: Global,
        shape: Shape,
        timing: Timing,
        datagrams: &'a DatagramList,
        ends: &'a [u32],
        pid: u16,
        counter: u8,
    ) -> Result<BurstPackets<'a>, OutOfMemory>
        requires rows { IsRows shape.rows }
        requires columns { (1 ≤ shape.columns) × (shape.columns ≤ 64) }
        requires sliceable { IsSliceable (slicing_in timing) }
        requires datagrams { AreSendable datagrams.now }
        requires few { length datagrams.now < 2 ^ 32 }
        requires ends { AreBurstEnds shape.rows shape.columns timing.length datagrams.now ends.now }
        requires pid { pid ≤ 8191 }
        requires counter { counter ≤ 15 }
        ensures begun { IfOk result (Begins shape timing pid counter datagrams.now) }
    {
        let unicast = shape.unicast;
        let burst = BurstBuffer::new(alloc, shape.rows, shape.columns)?;
        let deltas = vec![in alloc; 0u16; MOST_PACKETS]?;
        Ok(BurstPackets {
            unicast,
            timing,
            datagrams,
            ends,
            opened: 0,
            burst,
            deltas,
            // A section may begin in the packet in which the one before ends.
            packer: Packer::with_counter(pid, true, counter),
        })
    }

    /// Begins another part with the bursts of these datagrams. It takes no memory.
    pub fn restart(
        &mut self,
        shape: Shape,
        timing: Timing,
        datagrams: &'a DatagramList,
        ends: &'a [u32],
        pid: u16,
        counter: u8,
    )
        requires kept { (shape.rows ≡ self.old.rows) × (shape.columns ≡ self.old.columns) }
        requires sliceable { IsSliceable (slicing_in timing) }
        requires datagrams { AreSendable datagrams.now }
        requires few { length datagrams.now < 2 ^ 32 }
        requires ends { AreBurstEnds shape.rows shape.columns timing.length datagrams.now ends.now }
        requires pid { pid ≤ 8191 }
        requires counter { counter ≤ 15 }
        ensures begun { Begins shape timing pid counter datagrams.now self.new }
    {
        let unicast = shape.unicast;
        self.unicast = unicast;
        self.timing = timing;
        self.datagrams = datagrams;
        self.ends = ends;
        self.opened = 0;
        self.packer = Packer::with_counter(pid, true, counter);
    }

    /// The counter of the packet that would follow, where none is to come.
    pub fn counter(&self) -> u8
        requires { self.now.packets ≡ [] }
        ensures read { result ≡ self.now.behind }
        ensures below { result ≤ 15 }
    {
        self.packer.counter()
    }

    /// Opens the window of the next cycle: makes the units of its burst, where there is one.
    pub fn open(&mut self)
        requires out { self.old.under_way ≡ 0 }
        ensures size { self.new.under_way ≡ slice_index self.old.sizes 0 }
        ensures sizes { self.new.sizes ≡ drop 1 self.old.sizes }
        ensures packets { self.new.packets ≡ self.old.packets }
        ensures behind { self.new.behind ≡ self.old.behind }
        ensures kept { (self.new.rows ≡ self.old.rows) × (self.new.columns ≡ self.old.columns) }
    {
        let opened = self.opened;
        if opened < self.ends.len() {
            let from = place_after(self.ends, opened);
            let end = place_after(self.ends, opened + 1);
            let last = is_last(&self.timing, opened, self.ends.len());
            put_deltas(&mut self.deltas, &self.timing, opened as u64, last);
            self.burst
                .make(self.datagrams, from, end, self.unicast, &self.deltas);
            self.packer.again();
            self.opened = opened + 1;
        }
    }

    /// Whether there are more packets to come, of any burst.
    pub fn has_next(&self) -> bool
        ensures read { result ≡ nat_lt 0 (length self.now.packets) }
    {
        self.opened < self.ends.len() || self.packer.has_next(unit_ends(&self.burst, self.opened))
    }

    /// Whether there are more to come of the burst whose window is open.
    pub fn in_burst(&self) -> bool
        ensures read { result ≡ nat_lt 0 self.now.under_way }
    {
        self.packer.has_next(unit_ends(&self.burst, self.opened))
    }

    /// Writes the next packet of the burst whose window is open.
    pub fn next(&mut self, into: &mut [u8; 188])
        requires under_way { 0 < self.old.under_way }
        ensures next { (packet : PacketFields) × (self.old.packets ≡ packet ∷ self.new.packets) × (into.new ≡ written packet) }
        ensures behind { self.new.behind ≡ self.old.behind }
        ensures sizes { self.new.sizes ≡ self.old.sizes }
        ensures under_way { self.old.under_way ≡ self.new.under_way + 1 }
        ensures kept { (self.new.rows ≡ self.old.rows) × (self.new.columns ≡ self.old.columns) }
    {
        let ends = unit_ends(&self.burst, self.opened);
        if !self.packer.next(self.burst.bytes(), ends, into) {
            unreachable!();
        }
    }
}
