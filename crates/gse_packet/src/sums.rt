//! The CRC-32 of a PDU in fragments, taken in pieces: nothing is copied.
ghost use Rattle.std.specs.Prelude.{◌≡◌, ◌++◌, take};
ghost use Rattle.std.specs.Int.{w16, to_be_bytes};
ghost use Rattle.wire_spec.specs.Crc.{crc32_remainder};
ghost use Rattle.gse_spec.specs.Written.{label_bytes};

use crate::label::bytes_of;
use addr_rules::Label;
use crc_unit::{crc32, crc32_step};

/// The CRC-32 of a PDU in fragments: over Total Length, Protocol Type, the label bytes that stand in the first fragment, and all
/// bytes of the fragments.
///
/// `written` is how many bytes of the label stand there.
pub fn check_sum(total: u16, protocol: u16, label: &Label, written: u8, bytes: &[u8]) -> u32
    ensures sum { result ≡ crc32_remainder 0xFFFFFFFF (to_be_bytes w16 total ++ to_be_bytes w16 protocol ++ take written (label_bytes label.now) ++ bytes.now) }
{
    over_pieces(total, protocol, front_of(label, written), bytes)
}

/// The first bytes of a label, all where it has fewer.
fn front_of(label: &Label, size: u8) -> &[u8]
    ensures read { result.now ≡ take size (label_bytes label.now) }
{
    let bytes = bytes_of(label);
    &bytes[..usize::from(size).min(bytes.len())]
}

/// CRC-32 over Total Length, Protocol Type, and two pieces.
fn over_pieces(total: u16, protocol: u16, label: &[u8], bytes: &[u8]) -> u32
    ensures sum { result ≡ crc32_remainder 0xFFFFFFFF (to_be_bytes w16 total ++ to_be_bytes w16 protocol ++ label.now ++ bytes.now) }
{
    let length = crc32(&total.to_be_bytes());
    let fields = crc32_step(length, &protocol.to_be_bytes());
    let head = crc32_step(fields, label);
    crc32_step(head, bytes)
}
