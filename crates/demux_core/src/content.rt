//! What a record holds: a packet that can be read, one without payload, or nothing that can be read.
ghost use Rattle.demux_core.specs.Contents.{Holds, IsInRange};

use ts_packet::{Packet, PacketFault, parse};

/// What a record holds.
#[derive(Clone, Copy, Debug)]
pub(crate) enum Content<'a> {
    /// No moment, or no packet that can be read.
    Unreadable,
    /// A packet with an adaptation field alone.
    WithoutPayload,
    /// A packet, and its moment.
    Packet(Packet<'a>, u64),
}

/// Reads the packet of a record (ISO/IEC 13818-1 clause 2.4.3.2).
#[tactic(auto, unfolding(ts_spec::specs::Packet::is_packet))]
pub(crate) fn content_of(moment: Option<u64>, bytes: &[u8; 188]) -> Content<'_>
    ensures holds { Holds (record { moment = moment; bytes = bytes.now }) result }
    ensures in_range { IsInRange result }
{
    let moment = match moment {
        Some(moment) => moment,
        None => return Content::Unreadable,
    };
    match parse(bytes) {
        Ok(packet) => Content::Packet(packet, moment),
        Err(PacketFault::NoPayload) => Content::WithoutPayload,
        Err(_) => Content::Unreadable,
    }
}
