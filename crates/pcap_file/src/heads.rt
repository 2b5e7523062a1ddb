//! The heads of a written capture and of its records; a record's bytes follow its head.
ghost use Rattle.std.specs.Prelude.{◌≡◌, ℕ, ◌<◌, ◌^◌, length};
ghost use Rattle.pcap_file.specs.Capture.{capture_head, ethernet_head, record_head};

/// The head of each written capture, its numbers least significant byte first.
///
/// Profile: magic 0xA1B2C3D4, version 2.4, time zone and accuracy 0, snapshot length 262,144, link type 101 (raw IP).
const HEAD: [u8; 24] = [
    0xD4, 0xC3, 0xB2, 0xA1, 2, 0, 4, 0, 0, 0, 0, 0, 0, 0, 0, 0, 0, 0, 4, 0, 0x65, 0, 0, 0,
];

/// The place of the link type, and that of Ethernet (its least significant byte).
const LINK: usize = 20;

const ETHERNET: u8 = 1;

/// Writes the head of a capture of raw IP datagrams.
#[tactic(auto, unfolding(crate::specs::Capture::capture_head))]
pub fn write_head(into: &mut [u8; 24])
    ensures written { into.new ≡ capture_head }
{
    *into = HEAD;
}

/// Writes the head of a capture of Ethernet frames: link type 1.
#[tactic(auto, unfolding(crate::specs::Capture::ethernet_head, crate::specs::Capture::capture_head))]
pub fn write_ethernet_head(into: &mut [u8; 24])
    ensures written { into.new ≡ ethernet_head }
{
    let mut head = HEAD;
    head[LINK] = ETHERNET;
    *into = head;
}

/// Writes the head of the record of a datagram of `length` bytes: its time is 0, and it was captured whole.
#[tactic(auto, unfolding(crate::specs::Capture::record_head))]
pub fn record_head(into: &mut [u8; 16], length: u32)
    ensures written { into.new ≡ record_head length }
{
    let [a, b, c, d] = length.to_le_bytes();
    *into = [0, 0, 0, 0, 0, 0, 0, 0, a, b, c, d, a, b, c, d];
}
