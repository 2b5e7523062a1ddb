//! One frame: its header is tested and its data field lent, or the first test that fails is named; frames are written.
//!
//! MATYPE in bytes 0 and 1, UPL in 2 and 3, DFL in 4 and 5, SYNC in 6, SYNCD in 7 and 8, CRC-8 in 9, then the data field.
ghost use Rattle.std.specs.Prelude.{◌≡◌, ◌+◌, ◌-◌, ◌≤◌, ◌++◌, ◌∷◌, [], take, drop, replicate, length, Some, IfOk, IfErr, is_ok};
ghost use Rattle.gse_spec.specs.Frame.{frame_refusal, frame_fields, frame_head, frame_bytes, is_frame};
ghost use Rattle.wire_spec.specs.Crc.{crc8_remainder};
ghost use Rattle.bb_frame.specs.Views.{fields_in, refusal_in};

use byte_slices::put;
use crc_unit::crc8;

/// A frame that can be read, its data field lent out of its bytes.
#[derive(Clone, Copy, Debug)]
pub struct Frame<'a> {
    /// ISI, the input stream. Profile: 0 where SIS/MIS says that there is a single one.
    pub isi: u8,
    /// The data field: the bytes that DFL counts, from byte 10 on.
    pub field: &'a [u8],
}

/// Why bytes are no frame that can be read, in the order of the tests.
#[derive(Clone, Copy, Debug, PartialEq, Eq)]
pub enum FrameFault {
    /// CRC-8 is not that of the nine bytes before it.
    Crc = 1,
    /// TS/GS is not 01: no generic continuous stream.
    Kind = 2,
    /// DFL is no multiple of 8 bits, or passes the frame.
    Dfl = 3,
}

/// The place of DFL, after MATYPE and UPL.
const DFL: usize = 4;

/// Bytes of the header.
const HEADER: usize = 10;

/// The byte of CRC-8, which covers all before it.
const CRC: usize = 9;

/// TS/GS stands above six bits of MATYPE's first byte (EN 302 307-1 clause 5.1.6).
const KIND_UNIT: u8 = 64;

/// TS/GS, the upper two bits of MATYPE: generic continuous.
const GENERIC_CONTINUOUS: u8 = 1;

/// SIS/MIS, the third bit of MATYPE: a single input stream.
const SINGLE: u8 = 0x20;

/// MATYPE's first byte as it is written: generic continuous, several input streams.
const WRITTEN_KIND: u8 = 0x50;

/// Reads a frame, the bytes after its data field included, or names the first test that it fails.
///
/// UPL, SYNC and SYNCD are not tested.
#[tactic(auto, unfolding(gse_spec::specs::Frame::frame_refusal, gse_spec::specs::Frame::frame_fields))]
pub fn parse(bytes: &[u8]) -> Result<Frame<'_>, FrameFault>
    requires { 10 ≤ length bytes.now }
    ensures only { is_ok result ≡ is_frame bytes.now }
    ensures read { IfOk result (λ frame. fields_in frame ≡ frame_fields bytes.now) }
    ensures refused { IfErr result (λ fault. frame_refusal bytes.now ≡ Some (refusal_in fault)) }
    ensures within { IfOk result (λ frame. 10 + length frame.field.now ≤ length bytes.now) }
{
    if crc8(&bytes[..CRC]) != bytes[CRC] {
        return Err(FrameFault::Crc);
    }
    if bytes[0] / KIND_UNIT != GENERIC_CONTINUOUS {
        return Err(FrameFault::Kind);
    }
    let bits = usize::from(bytes[DFL]) * 256 + usize::from(bytes[DFL + 1]);
    if bits % 8 != 0 || HEADER + bits / 8 > bytes.len() {
        return Err(FrameFault::Dfl);
    }
    let isi = if bytes[0] & SINGLE == 0 { bytes[1] } else { 0 };
    Ok(Frame {
        isi,
        field: &bytes[HEADER..HEADER + bits / 8],
    })
}

/// Writes a frame of several input streams: the header, the data field, and zeros up to the end of `into`.
///
/// UPL, SYNC and SYNCD are 0. A data field has at most 7,264 bytes.
pub fn write(isi: u8, field: &[u8], into: &mut [u8])
    requires size { length field.now ≤ 7264 }
    requires room { 10 + length field.now ≤ length into.old }
    ensures written { into.new ≡ frame_bytes isi field.now (length into.old) }
{
    put(into, HEADER, field);
    seal(isi, field.len(), into);
}

/// Makes a frame of several input streams of bytes whose data field stands in place, `used` bytes from byte 10 on: the header goes
/// before it, and zeros from there to the end of `frame`.
///
/// UPL, SYNC and SYNCD are 0. A data field has at most 7,264 bytes.
pub fn seal(isi: u8, used: usize, frame: &mut [u8])
    requires size { used ≤ 7264 }
    requires room { 10 + used ≤ length frame.old }
    ensures sealed { frame.new ≡ frame_bytes isi (take used (drop 10 frame.old)) (length frame.old) }
{
    let head = head_of(isi, used as u16);
    put(frame, 0, &head);
    clear(frame, HEADER + used);
}

/// The header of a data field of so many bytes.
fn head_of(isi: u8, size: u16) -> [u8; 10]
    requires { size ≤ 7264 }
    ensures written { result ≡ frame_head isi size ++ crc8_remainder (frame_head isi size) ∷ [] }
{
    let [high, low] = (8 * size).to_be_bytes();
    let sum = crc8(&[WRITTEN_KIND, isi, 0, 0, high, low, 0, 0, 0]);
    [WRITTEN_KIND, isi, 0, 0, high, low, 0, 0, 0, sum]
}

/// Sets the bytes from a place on to zero.
fn clear(into: &mut [u8], at: usize)
    requires { at ≤ length into.old }
    ensures cleared { into.new ≡ take at into.old ++ replicate (length into.old - at) 0 }
{
    into[at..].fill(0);
}
