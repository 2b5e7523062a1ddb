//! SNDUs (RFC 4326 section 4): the bytes of one, and the fields that they carry.
//!
//! Reading: one whole unit comes in, and its fields go out, or why it is no SNDU.
//! Writing: an address, a Type and a PDU come in, and the unit goes into the caller's bytes.

ghost use Rattle.std.specs.Prelude.{◌≡◌, ◌<◌, ◌≤◌, ◌+◌, ◌++◌, ℕ, List, Option, length, take, drop, true, IfOk, IfSome, is_ok, is_some};
ghost use Rattle.std.specs.Result.{result_err};
ghost use Rattle.ts_spec.specs.Sndu.{is_sndu, sndu_fields, has_right_length, sndu_bytes, sndu_front, address_bytes, head_number};
ghost use Rattle.ule_unit.specs.Views.{fields_in, refusal};
ghost use Rattle.ule_unit.specs.Writable.{IsAddress, sndu_head};

use crate::form::{ADDRESS, CRC, D, HEAD, NO_ADDRESS, TYPE, span_of};
use byte_slices::{as_bytes, put};
use crc_unit::{crc32, crc32_step, ends_with_crc};
use unit_stream::Span;

/// An SNDU: its NPA address, its Type, and what stands after these and before the CRC-32.
#[derive(Clone, Copy, Debug, PartialEq, Eq)]
pub struct Sndu<'a> {
    /// The destination's address, where there is one (RFC 4326 section 4.5).
    pub npa: Option<[u8; 6]>,
    /// Type: an EtherType from 1536 on, below it an extension header's (RFC 4326 section 4.4).
    pub first_type: u16,
    /// The extension headers after the first Type, and the PDU.
    pub bytes: &'a [u8],
}

/// Why bytes are no SNDU, in the order of the tests.
#[derive(Clone, Copy, Debug, PartialEq, Eq)]
pub enum UleFault {
    /// The bytes are not as many as Length says, Length has no room for the address and the
    /// CRC-32, or there is an End Indicator.
    Length = 1,
    /// The CRC-32 differs.
    Crc = 2,
}

/// Whether the bytes are as many as Length says.
fn is_whole(unit: &[u8]) -> bool
    ensures whole { result ≡ has_right_length unit.now }
{
    match span_of(unit) {
        Span::Whole(size) => size == unit.len(),
        _ => false,
    }
}

/// Reads one whole SNDU, from D to the end of its CRC-32.
///
/// `bytes` is lent out of the unit: bytes 4 or, after an address, 10 on, up to the CRC-32.
pub fn read(unit: &[u8]) -> Result<Sndu<'_>, UleFault>
    ensures only { is_ok result ≡ is_sndu unit.now }
    ensures read { IfOk result (λ s. fields_in s ≡ sndu_fields unit.now) }
    ensures refused { refusal unit.now ≡ result_err result }
    ensures within { IfOk result (λ s. length s.bytes.now ≤ length unit.now) }
{
    if !is_whole(unit) {
        return Err(UleFault::Length);
    }
    if !ends_with_crc(unit) {
        return Err(UleFault::Crc);
    }
    Ok(fields_of(unit))
}

/// Reads one whole SNDU whose CRC-32 was compared before, as that of each unit is that reassembly gives: it is not
/// compared again.
///
/// None: the bytes are not as many as Length says, Length has no room for the address and the CRC-32, or there is an
/// End Indicator.
pub fn read_checked(unit: &[u8]) -> Option<Sndu<'_>>
    ensures only { is_some result ≡ has_right_length unit.now }
    ensures read { IfSome result (λ s. fields_in s ≡ sndu_fields unit.now) }
    ensures within { IfSome result (λ s. length s.bytes.now ≤ length unit.now) }
{
    if is_whole(unit) {
        Some(fields_of(unit))
    } else {
        None
    }
}

/// The fields of bytes that are as many as Length says.
fn fields_of(unit: &[u8]) -> Sndu<'_>
    requires { has_right_length unit.now ≡ true }
    ensures read { fields_in result ≡ sndu_fields unit.now }
    ensures within { length result.bytes.now ≤ length unit.now }
{
    let end = unit.len() - CRC;
    let first_type = u16::from(unit[TYPE]) * 256 + u16::from(unit[TYPE + 1]);
    if unit[0] >= NO_ADDRESS {
        return Sndu {
            npa: None,
            first_type,
            bytes: &unit[HEAD..end],
        };
    }
    let mut npa = [0; ADDRESS];
    npa.copy_from_slice(&unit[HEAD..HEAD + ADDRESS]);
    Sndu {
        npa: Some(npa),
        first_type,
        bytes: &unit[HEAD + ADDRESS..end],
    }
}

/// Writes the SNDU with this address, Type and datagram to the front of `into`; answers its length.
///
/// A datagram has at most 32,757 bytes, since Length counts an address and the CRC-32 beside it
/// (RFC 4326 section 4.2). No extension header is written. What stands after in `into` stays.
pub fn write(npa: Option<[u8; 6]>, ether_type: u16, datagram: &[u8], into: &mut [u8]) -> usize
    requires size { length datagram.now ≤ 32757 }
    requires room { length datagram.now + 14 ≤ length into.old }
    ensures size { result ≡ length (sndu_bytes npa ether_type datagram.now) }
    ensures written { into.new ≡ sndu_bytes npa ether_type datagram.now ++ drop result into.old }
{
    let end = write_front(npa, ether_type, datagram, into);
    let sum = crc32(&into[..end]);
    put(into, end, &sum.to_be_bytes());
    end + CRC
}

/// Writes the SNDU as `write` does, but without its datagram: what stands before it and, right after that, the CRC-32; answers
/// how many bytes stand before it.
///
/// The SNDU's bytes are these, then those of the datagram, then the four of the CRC-32.
pub fn write_around(
    npa: Option<[u8; 6]>,
    ether_type: u16,
    datagram: &[u8],
    into: &mut [u8],
) -> usize
    requires size { length datagram.now ≤ 32757 }
    requires room { 14 ≤ length into.old }
    ensures most { result ≤ 10 }
    ensures written { sndu_bytes npa ether_type datagram.now ≡ take result into.new ++ (datagram.now ++ take 4 (drop result into.new)) }
{
    let start = write_head(npa, ether_type, datagram.len(), into);
    let head = crc32(as_bytes(&into[..start]));
    let sum = crc32_step(head, as_bytes(datagram));
    put(into, start, &sum.to_be_bytes());
    start
}

/// Bytes of the SNDU of so many bytes of a datagram, 32,757 at most: those that `write` writes.
pub fn size(has_address: bool, datagram: usize) -> usize
    requires { datagram ≤ 32757 }
    ensures size { (npa : Option (List ℕ)) (ether_type : ℕ) (bytes : List ℕ) → IsAddress npa → is_some npa ≡ has_address → length bytes ≡ datagram
        → result ≡ length (sndu_bytes npa ether_type bytes) }
    ensures most { result ≤ datagram + 14 }
{
    let address = if has_address { ADDRESS } else { 0 };
    HEAD + address + datagram + CRC
}

/// Writes all before the CRC-32; answers where it ends.
fn write_front(npa: Option<[u8; 6]>, ether_type: u16, datagram: &[u8], into: &mut [u8]) -> usize
    requires size { length datagram.now ≤ 32757 }
    requires room { length datagram.now + 14 ≤ length into.old }
    ensures size { result ≡ length (sndu_front npa ether_type datagram.now) }
    ensures most { result ≤ length datagram.now + 10 }
    ensures written { into.new ≡ sndu_front npa ether_type datagram.now ++ drop result into.old }
{
    let start = write_head(npa, ether_type, datagram.len(), into);
    put(into, start, datagram);
    start + datagram.len()
}

/// Writes all before a datagram of so many bytes; answers where it ends.
fn write_head(npa: Option<[u8; 6]>, ether_type: u16, datagram: usize, into: &mut [u8]) -> usize
    requires size { datagram ≤ 32757 }
    requires room { 10 ≤ length into.old }
    ensures size { result ≡ length (sndu_head npa ether_type datagram) }
    ensures most { result ≤ 10 }
    ensures written { into.new ≡ sndu_head npa ether_type datagram ++ drop result into.old }
{
    let head = first_number(&npa, datagram as u16);
    put(into, 0, &head.to_be_bytes());
    put(into, TYPE, &ether_type.to_be_bytes());
    let address = bytes_of(&npa);
    put(into, HEAD, address);
    HEAD + address.len()
}

/// D and Length, as the number that the first two bytes are.
fn first_number(npa: &Option<[u8; 6]>, size: u16) -> u16
    requires { size ≤ 32757 }
    ensures head { result ≡ head_number npa.now size }
{
    let length = bytes_of(npa).len() as u16 + size + CRC as u16;
    match npa {
        None => D + length,
        Some(_) => length,
    }
}

/// The bytes of an address, where there is one.
fn bytes_of(npa: &Option<[u8; 6]>) -> &[u8]
    ensures address { result.now ≡ address_bytes npa.now }
    ensures most { length result.now ≤ 6 }
{
    match npa {
        None => &[],
        Some(npa) => npa,
    }
}
