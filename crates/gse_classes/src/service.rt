//! All frames of a service with two classes.
ghost use Rattle.std.specs.Prelude.{◌≡◌, ◌≤◌, map, IfOk};
ghost use Rattle.gse_spec.specs.Sending.{pdu_for, frames_for};
ghost use Rattle.gse_pack.specs.Offered.{AreShortDatagrams};

use addr_rules::RuleList;
use gse_pack::{Frames, Packer};
use ip_datagram::DatagramList;
use std::alloc::{AllocError as OutOfMemory, Global};

/// The bytes of the longest frame.
const FRAME: usize = 7274;

/// Packs the datagrams of one service into baseband frames of `frame_bytes`, 300 to 7,274, on an ISI, and holds all of them. A datagram that
/// is urgent by the rules goes before the rest of a long one that has begun in the frame under way or in the seven before it, and never
/// before one that was offered earlier and has not begun.
///
/// Without rules the frames are those of `gse_pack::pack`.
pub fn pack_classes(
    alloc: Global,
    list: &DatagramList,
    urgent: &RuleList,
    address: bool,
    unicast: [u8; 6],
    isi: u8,
    frame_bytes: u16,
) -> Result<Frames, OutOfMemory>
    requires least { 300 ≤ frame_bytes }
    requires most { frame_bytes ≤ 7274 }
    requires datagrams { AreShortDatagrams list.now }
    ensures written { IfOk result (λ frames. frames ≡ record { size = frame_bytes; frames = frames_for urgent.now isi frame_bytes (map (pdu_for address unicast) list.now) }) }
{
    let mut packer = Packer::over(list, urgent, address, unicast, isi, frame_bytes);
    let mut frames = Frames::new(alloc, frame_bytes);
    let mut place = [0; FRAME];
    let frame = &mut place[..usize::from(frame_bytes)];
    while packer.has_frame() {
        packer.write_frame(frame);
        frames.push(frame)?;
    }
    Ok(frames)
}
