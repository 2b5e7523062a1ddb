//! The frames of a service without time slicing, one after another, and the packets that carry them.

use crate::bursts::Shape;
use crate::frame_bytes::FrameBytes;
use ip_datagram::DatagramList;
use section_codec::SectionForm;
use std::alloc::{AllocError as OutOfMemory, Global};
use std::marker::Model;
use unit_stream::Packer;

/// The frames of a service without time slicing on their way into the packets of its PID.
///
/// The units of a frame are made when the first of its packets goes out, into memory that `new` took: none is taken later.
#[derive(Drop)]
pub struct FramePackets<'a> {
    datagrams: &'a DatagramList,
    /// Where each unit ends among the bytes of all of them.
    ends: &'a [usize],
    /// Those that are not out.
    bytes: FrameBytes,
    packer: Packer<SectionForm>,
}

impl<'a> Model for FramePackets<'a> {
    ghost use Rattle.burst_packets.specs.Frames.{Frames, AreOnWay, frames_seen};

    ghost Value = { Frames };

    ghost view = { λ p. frames_seen p.bytes p.datagrams.now p.ends.now p.packer };

    ghost invariant = { λ p. AreOnWay p.bytes p.datagrams.now p.ends.now p.packer };
}

impl<'a> FramePackets<'a> {
    ghost use Rattle.std.specs.Prelude.{◌≡◌, ℕ, ◌<◌, ◌≤◌, ◌^◌, [], ◌∷◌, length, nat_lt, IfOk};
    ghost use Rattle.ts_spec.specs.Packet.{PacketFields};
    ghost use Rattle.section_spec.specs.Mpe.{IsRows};
    ghost use Rattle.fec_sent_law.specs.Frames.{AreSendable};
    ghost use Rattle.stream_spec.specs.Parts.{written};
    ghost use Rattle.fec_units.specs.Ends.{AreFrameEnds};
    ghost use Rattle.burst_packets.specs.Frames.{BeginsFrames};

    /// The frames of these datagrams, whose units end at `ends`; the first has this number.
    ///
    /// The PID is 0 to 8191, the counter of the first packet 0 to 15.
    pub fn new(
        alloc: Global,
        shape: Shape,
        datagrams: &'a DatagramList,
        ends: &'a [usize],
        first: u32,
        pid: u16,
        counter: u8,
    ) -> Result<FramePackets<'a>, OutOfMemory>
        requires rows { IsRows shape.rows }
        requires columns { (1 ≤ shape.columns) × (shape.columns ≤ 64) }
        requires datagrams { AreSendable datagrams.now }
        requires few { length datagrams.now < 2 ^ 32 }
        requires ends { AreFrameEnds shape.rows shape.columns datagrams.now ends.now }
        requires pid { pid ≤ 8191 }
        requires counter { counter ≤ 15 }
        ensures begun { IfOk result (BeginsFrames shape first pid counter datagrams.now) }
    {
        let bytes = FrameBytes::new(alloc, shape, datagrams, first)?;
        Ok(FramePackets {
            datagrams,
            ends,
            bytes,
            // A section may begin in the packet in which the one before ends.
            packer: Packer::with_counter(pid, true, counter),
        })
    }

    /// Begins with the frames of other datagrams. It takes no memory.
    pub fn restart(
        &mut self,
        shape: Shape,
        datagrams: &'a DatagramList,
        ends: &'a [usize],
        first: u32,
        pid: u16,
        counter: u8,
    )
        requires kept { (shape.rows ≡ self.old.rows) × (shape.columns ≡ self.old.columns) }
        requires datagrams { AreSendable datagrams.now }
        requires few { length datagrams.now < 2 ^ 32 }
        requires ends { AreFrameEnds shape.rows shape.columns datagrams.now ends.now }
        requires pid { pid ≤ 8191 }
        requires counter { counter ≤ 15 }
        ensures begun { BeginsFrames shape first pid counter datagrams.now self.new }
    {
        self.datagrams = datagrams;
        self.ends = ends;
        self.bytes.restart(shape, datagrams, first);
        self.packer = Packer::with_counter(pid, true, counter);
    }

    /// The counter of the packet that would follow, where none is to come.
    pub fn counter(&self) -> u8
        requires { self.now.packets ≡ [] }
        ensures read { result ≡ self.now.behind }
        ensures below { result ≤ 15 }
    {
        self.packer.counter()
    }

    /// Whether there are more packets to come.
    pub fn has_next(&self) -> bool
        ensures read { result ≡ nat_lt 0 (length self.now.packets) }
    {
        self.packer.has_next(self.ends)
    }

    /// Writes the next packet.
    pub fn next(&mut self, into: &mut [u8; 188])
        requires some { 0 < length self.old.packets }
        ensures next { (packet : PacketFields) × (self.old.packets ≡ packet ∷ self.new.packets) × (into.new ≡ written packet) }
        ensures behind { self.new.behind ≡ self.old.behind }
        ensures kept { (self.new.rows ≡ self.old.rows) × (self.new.columns ≡ self.old.columns) }
    {
        let Some(room) = self.packer.next_around(self.ends, into) else {
            unreachable!();
        };
        let place = &mut into[room.from..room.from + room.size];
        self.bytes.read(self.datagrams, place);
    }
}
