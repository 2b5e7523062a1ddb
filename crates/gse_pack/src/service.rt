//! All frames of a service, or of a list of one Protocol Type.
ghost use Rattle.std.specs.Prelude.{◌≡◌, ◌≤◌, [], map, IfOk};
ghost use Rattle.gse_spec.specs.Sending.{pdu_for, frames_for};
ghost use Rattle.gse_pack.specs.Offered.{AreShortDatagrams, AreShortItems, pdu_as};

use crate::frames::Frames;
use crate::packer::Packer;
use addr_rules::RuleList;
use ip_datagram::DatagramList;
use std::alloc::{AllocError as OutOfMemory, Global};

/// The bytes of the longest frame.
const FRAME: usize = 7274;

/// Packs the datagrams of one service into baseband frames of `frame_bytes`, 300 to 7,274, on an ISI, as a `Packer` does, and holds all
/// of them.
pub fn pack(
    alloc: Global,
    list: &DatagramList,
    address: bool,
    unicast: [u8; 6],
    isi: u8,
    frame_bytes: u16,
) -> Result<Frames, OutOfMemory>
    requires least { 300 ≤ frame_bytes }
    requires most { frame_bytes ≤ 7274 }
    requires datagrams { AreShortDatagrams list.now }
    ensures written { IfOk result (λ frames. frames ≡ record { size = frame_bytes; frames = frames_for [] isi frame_bytes (map (pdu_for address unicast) list.now) }) }
{
    let none = RuleList::new(alloc);
    let mut packer = Packer::over(list, &none, address, unicast, isi, frame_bytes);
    all_frames(alloc, &mut packer, frame_bytes)
}

/// Packs the items of a list as `pack` does, each as a PDU of one Protocol Type without an address, and holds all frames.
pub fn pack_as(
    alloc: Global,
    list: &DatagramList,
    protocol: u16,
    isi: u8,
    frame_bytes: u16,
) -> Result<Frames, OutOfMemory>
    requires least { 300 ≤ frame_bytes }
    requires most { frame_bytes ≤ 7274 }
    requires items { AreShortItems list.now }
    ensures written { IfOk result (λ frames. frames ≡ record { size = frame_bytes; frames = frames_for [] isi frame_bytes (map (pdu_as protocol) list.now) }) }
{
    let mut packer = Packer::over_as(list, protocol, isi, frame_bytes);
    all_frames(alloc, &mut packer, frame_bytes)
}

/// All frames that a packer has left, which have so many bytes.
fn all_frames(
    alloc: Global,
    packer: &mut Packer<'_>,
    frame_bytes: u16,
) -> Result<Frames, OutOfMemory>
    requires most { frame_bytes ≤ 7274 }
    requires size { packer.old.size ≡ frame_bytes }
    ensures written { IfOk result (λ frames. frames ≡ packer.old) }
{
    let mut frames = Frames::new(alloc, frame_bytes);
    let mut place = [0; FRAME];
    let frame = &mut place[..usize::from(frame_bytes)];
    while packer.has_frame() {
        packer.write_frame(frame);
        frames.push(frame)?;
    }
    Ok(frames)
}
