//! The fields of the packet at the front of some bytes, by their places.
//!
//! S, E, LT and GSE Length in bytes 0 and 1, then by S and E Frag ID, Total Length, Protocol Type and label.
ghost use Rattle.std.specs.Prelude.{◌≡◌, ◌+◌, ◌≤◌, length};
ghost use Rattle.wire_spec.specs.Bytes.{u16_at, u32_at};
ghost use Rattle.gse_spec.specs.Packet.{has_start as is_start, has_end as is_end, label_type as type_of_label, label_size, label_at, label_of, fields_size, gse_length};

use addr_rules::Label;

/// The bytes of S, E, LT and GSE Length (TS 102 606-1 clause 4.2).
pub(crate) const HEAD: usize = 2;

/// The bytes of a Frag ID.
pub(crate) const FRAG_ID: usize = 1;

/// The bytes of Total Length.
pub(crate) const TOTAL_LENGTH: usize = 2;

/// The bytes of Protocol Type.
pub(crate) const PROTOCOL_TYPE: usize = 2;

/// The bytes of a CRC-32.
pub(crate) const CRC: usize = 4;

/// S, the highest bit of byte 0.
const START: u8 = 0x80;

/// E, in byte 0.
const END: u8 = 0x40;

/// LT stands above the four upper bits of GSE Length, which byte 0 ends with.
const LABEL_TYPE_UNIT: u8 = 16;

/// LT, 2 bits, has so many values.
const LABEL_TYPES: u8 = 4;

/// LT of a packet with a label of 6 bytes.
pub(crate) const SIX: u8 = 0;

/// LT of a packet with a label of 3 bytes.
pub(crate) const THREE: u8 = 1;

/// LT of a packet for all receivers: there is no label.
pub(crate) const BROADCAST: u8 = 2;

/// LT of a packet that re-uses a label.
pub(crate) const REUSED: u8 = 3;

/// GSE Length, 12 bits, has so many values.
const LENGTH_VALUES: usize = 4096;

/// S: a PDU starts here.
pub(crate) fn has_start(bytes: &[u8]) -> bool
    requires { 1 ≤ length bytes.now }
    ensures read { result ≡ is_start bytes.now }
{
    bytes[0] >= START
}

/// E: a PDU ends here.
pub(crate) fn has_end(bytes: &[u8]) -> bool
    requires { 1 ≤ length bytes.now }
    ensures read { result ≡ is_end bytes.now }
{
    bytes[0] & END != 0
}

/// LT: 0 has a label of 6 bytes, 1 of 3 bytes, 2 none (broadcast), 3 re-uses one.
pub(crate) fn label_type(bytes: &[u8]) -> u8
    requires { 1 ≤ length bytes.now }
    ensures read { result ≡ type_of_label bytes.now }
{
    bytes[0] / LABEL_TYPE_UNIT % LABEL_TYPES
}

/// GSE Length: the bytes after it.
pub(crate) fn length_of(bytes: &[u8]) -> usize
    requires { 2 ≤ length bytes.now }
    ensures read { result ≡ gse_length bytes.now }
{
    (usize::from(bytes[0]) * 256 + usize::from(bytes[1])) % LENGTH_VALUES
}

/// The number in two bytes: Total Length, or Protocol Type.
pub(crate) fn number_at(bytes: &[u8], at: usize) -> u16
    requires { at + 2 ≤ length bytes.now }
    ensures read { result ≡ u16_at bytes.now at }
{
    u16::from(bytes[at]) * 256 + u16::from(bytes[at + 1])
}

/// The CRC-32 at a place.
pub(crate) fn crc_at(bytes: &[u8], at: usize) -> u32
    requires { at + 4 ≤ length bytes.now }
    ensures read { result ≡ u32_at bytes.now at }
{
    u32::from_be_bytes([bytes[at], bytes[at + 1], bytes[at + 2], bytes[at + 3]])
}

/// The label bytes that stand in the packet: 6, 3 or 0.
pub(crate) fn size_of_label(bytes: &[u8]) -> u8
    requires { 1 ≤ length bytes.now }
    ensures read { result ≡ label_size bytes.now }
{
    match label_type(bytes) {
        SIX => 6,
        THREE => 3,
        _ => 0,
    }
}

/// The bytes of the fields after GSE Length, without the PDU's.
pub(crate) fn size_of_fields(bytes: &[u8]) -> usize
    requires { 1 ≤ length bytes.now }
    ensures read { result ≡ fields_size bytes.now }
{
    match (has_start(bytes), has_end(bytes)) {
        (true, true) => PROTOCOL_TYPE + usize::from(size_of_label(bytes)),
        (true, false) => {
            FRAG_ID + TOTAL_LENGTH + PROTOCOL_TYPE + usize::from(size_of_label(bytes))
        }
        (false, true) => FRAG_ID + CRC,
        (false, false) => FRAG_ID,
    }
}

/// The label that stands at a place.
fn written_label(bytes: &[u8], at: usize) -> Label
    requires some { 1 ≤ length bytes.now }
    requires room { at + label_size bytes.now ≤ length bytes.now }
    ensures read { result ≡ label_at bytes.now at }
{
    match label_type(bytes) {
        SIX => Label::Six([
            bytes[at],
            bytes[at + 1],
            bytes[at + 2],
            bytes[at + 3],
            bytes[at + 4],
            bytes[at + 5],
        ]),
        THREE => Label::Three([bytes[at], bytes[at + 1], bytes[at + 2]]),
        _ => Label::Broadcast,
    }
}

/// The label of a packet with S = 1, whose own would stand at a place; `before` is the one that it may re-use.
pub(crate) fn read_label(before: Option<Label>, bytes: &[u8], at: usize) -> Label
    requires some { 1 ≤ length bytes.now }
    requires room { at + label_size bytes.now ≤ length bytes.now }
    ensures read { result ≡ label_of before bytes.now at }
{
    if label_type(bytes) != REUSED {
        return written_label(bytes, at);
    }
    match before {
        Some(label) => label,
        None => Label::Broadcast,
    }
}
