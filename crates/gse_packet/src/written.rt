//! Packets, written to the front of some bytes.
//!
//! Profile: fragments after the first have LT = 3.
ghost use Rattle.std.specs.Prelude.{◌≡◌, ◌+◌, ◌*◌, ◌≤◌, ◌++◌, drop, length};
ghost use Rattle.gse_spec.specs.Written.{label_bytes, written_label, with_length, complete_bytes, start_bytes, middle_bytes, end_bytes};

use crate::fields::{HEAD, REUSED};
use crate::label::{bytes_of, type_of};
use addr_rules::Label;
use byte_slices::put;

/// S and E, of a packet with a whole PDU.
const COMPLETE: u16 = 3;

/// S and E of the first fragment of a PDU.
const FIRST: u16 = 2;

/// S and E of a fragment between the first and the last.
const MIDDLE: u16 = 0;

/// S and E of the last fragment.
const LAST: u16 = 1;

/// S and E stand above LT and the 12 bits of GSE Length.
const MARKS_UNIT: u16 = 16384;

/// LT stands above the 12 bits of GSE Length.
const LABEL_TYPE_UNIT: u16 = 4096;

/// Writes a packet with a whole PDU and answers its length; without a label it re-uses the one before it in the frame.
///
/// What stands after it in `into` stays.
pub fn write_complete(protocol: u16, label: Option<Label>, pdu: &[u8], into: &mut [u8]) -> usize
    requires size { 2 + length (written_label label) + length pdu.now ≤ 4095 }
    requires room { 4 + length (written_label label) + length pdu.now ≤ length into.old }
    ensures size { result ≡ length (complete_bytes protocol label pdu.now) }
    ensures written { into.new ≡ complete_bytes protocol label pdu.now ++ drop result into.old }
{
    let protocol = protocol.to_be_bytes();
    match label {
        None => write_pieces(COMPLETE, u16::from(REUSED), &protocol, &[], pdu, into),
        Some(label) => write_pieces(
            COMPLETE,
            type_of(&label),
            &protocol,
            bytes_of(&label),
            pdu,
            into,
        ),
    }
}

/// Writes the first fragment of a PDU with its label and answers the packet's length.
///
/// What stands after it in `into` stays.
pub fn write_start(
    id: u8,
    total: u16,
    protocol: u16,
    label: Label,
    pdu: &[u8],
    into: &mut [u8],
) -> usize
    requires size { 5 + length (label_bytes label) + length pdu.now ≤ 4095 }
    requires room { 7 + length (label_bytes label) + length pdu.now ≤ length into.old }
    ensures size { result ≡ length (start_bytes id total protocol label pdu.now) }
    ensures written { into.new ≡ start_bytes id total protocol label pdu.now ++ drop result into.old }
{
    let [total_upper, total_lower] = total.to_be_bytes();
    let [upper, lower] = protocol.to_be_bytes();
    write_pieces(
        FIRST,
        type_of(&label),
        &[id, total_upper, total_lower, upper, lower],
        bytes_of(&label),
        pdu,
        into,
    )
}

/// Writes a fragment between the first and the last and answers the packet's length.
///
/// What stands after it in `into` stays.
pub fn write_middle(id: u8, pdu: &[u8], into: &mut [u8]) -> usize
    requires size { 1 + length pdu.now ≤ 4095 }
    requires room { 3 + length pdu.now ≤ length into.old }
    ensures size { result ≡ length (middle_bytes id pdu.now) }
    ensures written { into.new ≡ middle_bytes id pdu.now ++ drop result into.old }
{
    write_pieces(MIDDLE, u16::from(REUSED), &[id], &[], pdu, into)
}

/// Writes the last fragment with the CRC-32 of the PDU and answers the packet's length.
///
/// What stands after it in `into` stays.
pub fn write_end(id: u8, pdu: &[u8], crc: u32, into: &mut [u8]) -> usize
    requires size { 5 + length pdu.now ≤ 4095 }
    requires room { 7 + length pdu.now ≤ length into.old }
    ensures size { result ≡ length (end_bytes id pdu.now crc) }
    ensures written { into.new ≡ end_bytes id pdu.now crc ++ drop result into.old }
{
    write_pieces(
        LAST,
        u16::from(REUSED),
        &[id],
        pdu,
        &crc.to_be_bytes(),
        into,
    )
}

/// Writes S, E, LT and GSE Length, and three pieces after them; answers the packet's length.
fn write_pieces(
    marks: u16,
    label_type: u16,
    front: &[u8],
    middle: &[u8],
    back: &[u8],
    into: &mut [u8],
) -> usize
    requires marks { marks ≤ 3 }
    requires label_type { label_type ≤ 3 }
    requires size { length front.now + length middle.now + length back.now ≤ 4095 }
    requires room { 2 + length front.now + length middle.now + length back.now ≤ length into.old }
    ensures size { result ≡ length (with_length marks label_type (front.now ++ middle.now ++ back.now)) }
    ensures written { into.new ≡ with_length marks label_type (front.now ++ middle.now ++ back.now) ++ drop result into.old }
{
    let length = front.len() + middle.len() + back.len();
    let head = marks * MARKS_UNIT + label_type * LABEL_TYPE_UNIT + length as u16;
    put(into, 0, &head.to_be_bytes());
    put(into, HEAD, front);
    put(into, HEAD + front.len(), middle);
    put(into, HEAD + front.len() + middle.len(), back);
    HEAD + length
}
