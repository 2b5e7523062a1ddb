//! The frames of a service, made one after another where they are wanted.
ghost use Rattle.std.specs.Prelude.{◌≡◌, ◌≤◌};

use crate::left::Left;
use crate::packing::fill;
use crate::pdu::Form;
use addr_rules::RuleList;
use bb_frame::seal;
use byte_slices::array_bytes;
use ip_datagram::DatagramList;
use std::marker::Model;

/// The bytes of a frame's header.
const HEADER: usize = 10;

/// Packs the datagrams of one service, or items of one Protocol Type, into baseband frames, frame by frame; contracts see the frames that are left.
///
/// It takes no memory: each frame is written to a place that the caller has.
#[derive(Drop)]
pub struct Packer<'a> {
    left: Left<'a>,
    isi: u8,
    /// The bytes of each frame.
    size: usize,
}

impl<'a> Model for Packer<'a> {
    ghost use Rattle.std.specs.Prelude.{◌≤◌, ◌-◌};
    ghost use Rattle.gse_pack.specs.Steps.{PackerState, frames_left};

    ghost Value = { PackerState };

    ghost view = { λ p. record { size = p.size; frames = frames_left p.isi (p.size - 10) p.left } };

    ghost invariant = { λ p. (300 ≤ p.size) × (p.size ≤ 7274) };
}

impl<'a> Packer<'a> {
    ghost use Rattle.std.specs.Prelude.{◌≡◌, ◌≤◌, ◌<◌, ◌∷◌, [], true, length, map, nat_lt};
    ghost use Rattle.gse_spec.specs.Sending.{pdu_for, frames_for};
    ghost use Rattle.gse_pack.specs.Offered.{AreShortDatagrams, AreShortItems, pdu_as};
    ghost use Rattle.gse_pack.specs.Steps.{PackerState};

    /// Begins with the datagrams of one service, on an ISI, in frames of `frame_bytes`, 300 to 7,274.
    ///
    /// `urgent`: the rules by which datagrams are urgent; where there are none, all are sent in order.
    /// `address`: each PDU has the address of its group, FF:FF:FF:FF:FF:FF for 255.255.255.255 or, for other destinations, `unicast`;
    /// otherwise it is broadcast. A datagram has at most 65,527 bytes, since Total Length counts Protocol Type and a label beside it.
    pub fn over(
        list: &'a DatagramList,
        urgent: &'a RuleList,
        address: bool,
        unicast: [u8; 6],
        isi: u8,
        frame_bytes: u16,
    ) -> Packer<'a>
        requires least { 300 ≤ frame_bytes }
        requires most { frame_bytes ≤ 7274 }
        requires datagrams { AreShortDatagrams list.now }
        ensures size { result.size ≡ frame_bytes }
        ensures frames { result.frames ≡ frames_for urgent.now isi frame_bytes (map (pdu_for address unicast) list.now) }
    {
        // An address has six bytes.
        array_bytes(&unicast);
        let form = Form::Datagrams {
            address,
            unicast,
            urgent,
        };
        Packer {
            left: Left::over(list, form),
            isi,
            size: usize::from(frame_bytes),
        }
    }

    /// Begins with the items of a list, each a PDU of this Protocol Type for all receivers, all in one class. An item has at most 65,527
    /// bytes.
    pub fn over_as(list: &'a DatagramList, protocol: u16, isi: u8, frame_bytes: u16) -> Packer<'a>
        requires least { 300 ≤ frame_bytes }
        requires most { frame_bytes ≤ 7274 }
        requires items { AreShortItems list.now }
        ensures size { result.size ≡ frame_bytes }
        ensures frames { result.frames ≡ frames_for [] isi frame_bytes (map (pdu_as protocol) list.now) }
    {
        Packer {
            left: Left::over(list, Form::OfType(protocol)),
            isi,
            size: usize::from(frame_bytes),
        }
    }

    /// How many bytes each frame has.
    pub fn frame_bytes(&self) -> usize
        ensures read { result ≡ self.now.size }
        ensures least { 300 ≤ result }
        ensures most { result ≤ 7274 }
    {
        self.size
    }

    /// Whether a frame is left.
    pub fn has_frame(&self) -> bool
        ensures read { result ≡ nat_lt 0 (length self.now.frames) }
    {
        !self.left.is_empty()
    }

    /// Writes the next frame, which has as many bytes as `into`.
    pub fn write_frame(&mut self, into: &mut [u8])
        requires some { 0 < length self.old.frames }
        requires room { length into.old ≡ self.old.size }
        ensures written { self.old.frames ≡ into.new ∷ self.new.frames }
        ensures size { self.new.size ≡ self.old.size }
    {
        let used = fill(&mut self.left, &mut into[HEADER..]);
        seal(self.isi, used, into);
    }
}
