//! Sections (ISO/IEC 13818-1 clause 2.4.4): the bytes of one, its table_id and its body.
//!
//! Reading: one whole unit comes in, and its fields go out, or why it is no section.
//! Writing: a table_id, the upper half of byte 1 and a body come in, and the section goes into the caller's bytes.

ghost use Rattle.std.specs.Prelude.{◌≡◌, ◌≤◌, ◌+◌, ◌%◌, ◌++◌, ℕ, List, true, length, take, drop, nat_lt, IfOk, IfSome, is_ok, is_some};
ghost use Rattle.std.specs.Result.{result_err};
ghost use Rattle.section_spec.specs.Section.{IsWritableSection, is_section, has_right_length, section_bytes, section_fields, section_front};
ghost use Rattle.section_codec.specs.Heads.{section_head};
ghost use Rattle.section_codec.specs.Views.{fields_in, refusal};

use crate::form::{CRC, HEAD, LEAST, LENGTH, MOST, SYNTAX, TABLE_ID, length_of};
use byte_slices::{as_bytes, put};
use crc_unit::{crc32, crc32_step, ends_with_crc};

/// A section: its table_id, and what stands between section_length and the CRC_32.
#[derive(Clone, Copy, Debug, PartialEq, Eq)]
pub struct SectionRef<'a> {
    /// Which table the section is of.
    pub table_id: u8,
    /// Byte 3 of the section up to its CRC_32; of a section that was read, 5 to 4,089 bytes.
    pub body: &'a [u8],
}

/// Why bytes are no section, in the order of the tests.
#[derive(Clone, Copy, Debug, PartialEq, Eq)]
pub enum SectionFault {
    /// Fewer than the 3 bytes up to section_length.
    Short = 1,
    /// section_length is below 9 or above 4,093, or the bytes are not as many as it says.
    Length = 2,
    /// section_syntax_indicator is 0: there is no CRC_32.
    Syntax = 3,
    /// The CRC_32 differs.
    Crc = 4,
}

/// Whether the bytes are as many as section_length says, and a section can have so many.
fn is_whole(bytes: &[u8]) -> bool
    requires { 3 ≤ length bytes.now }
    ensures whole { result ≡ has_right_length bytes.now }
{
    let length = length_of(bytes);
    LEAST <= length && length <= MOST && bytes.len() == HEAD + length
}

/// Reads one whole section, from its table_id to the end of its CRC_32.
pub fn parse(bytes: &[u8]) -> Result<SectionRef<'_>, SectionFault>
    ensures only { is_ok result ≡ is_section bytes.now }
    ensures read { IfOk result (λ s. fields_in s ≡ section_fields bytes.now) }
    ensures refused { refusal bytes.now ≡ result_err result }
    ensures within { IfOk result (λ s. length s.body.now + 7 ≡ length bytes.now) }
{
    if bytes.len() < HEAD {
        return Err(SectionFault::Short);
    }
    if !is_whole(bytes) {
        return Err(SectionFault::Length);
    }
    if bytes[LENGTH] < SYNTAX {
        return Err(SectionFault::Syntax);
    }
    if !ends_with_crc(bytes) {
        return Err(SectionFault::Crc);
    }
    Ok(fields_of(bytes))
}

/// Reads one whole section whose section_syntax_indicator and CRC_32 were tested before, as those of each unit are that
/// reassembly gives: they are not tested again.
///
/// None: section_length is below 9 or above 4,093, or the bytes are not as many as it says.
#[tactic(auto, using(crate::proofs::Lengths::short_has_no_right_length))]
pub fn parse_checked(bytes: &[u8]) -> Option<SectionRef<'_>>
    ensures only { is_some result ≡ has_right_length bytes.now }
    ensures read { IfSome result (λ s. fields_in s ≡ section_fields bytes.now) }
    ensures within { IfSome result (λ s. length s.body.now + 7 ≡ length bytes.now) }
{
    if bytes.len() < HEAD {
        return None;
    }
    if is_whole(bytes) {
        Some(fields_of(bytes))
    } else {
        None
    }
}

/// The fields of bytes that are as many as section_length says.
fn fields_of(bytes: &[u8]) -> SectionRef<'_>
    requires { has_right_length bytes.now ≡ true }
    ensures read { fields_in result ≡ section_fields bytes.now }
    ensures within { length result.body.now + 7 ≡ length bytes.now }
{
    SectionRef {
        table_id: bytes[TABLE_ID],
        body: &bytes[HEAD..bytes.len() - CRC],
    }
}

/// table_id of the section at the front of some bytes; None where there are none.
pub fn table_id(bytes: &[u8]) -> Option<u8>
    ensures only { is_some result ≡ nat_lt 0 (length bytes.now) }
    ensures read { IfSome result (λ id. id ≡ (section_fields bytes.now).table_id) }
{
    if bytes.is_empty() {
        None
    } else {
        Some(bytes[TABLE_ID])
    }
}

/// Bytes of a section whose body has so many, 4,089 at most: those that `write` writes.
pub fn size(body: usize) -> usize
    requires { body ≤ 4089 }
    ensures size { (table_id top : ℕ) (bytes : List ℕ) → length bytes ≡ body → result ≡ length (section_bytes table_id top bytes) }
    ensures sum { result ≡ body + 7 }
{
    HEAD + body + CRC
}

/// Writes the section with this table_id, upper half of byte 1 and body to the front of `into`; answers its length.
///
/// `top` has section_syntax_indicator and the three bits after it, and four bits 0. A body has 5 to 4,089 bytes.
/// What stands after in `into` stays.
pub fn write(table_id: u8, top: u8, body: &[u8], into: &mut [u8]) -> usize
    requires writable { IsWritableSection table_id top body.now }
    requires room { length body.now + 7 ≤ length into.old }
    ensures size { result ≡ length (section_bytes table_id top body.now) }
    ensures written { into.new ≡ section_bytes table_id top body.now ++ drop result into.old }
{
    write_in_two(table_id, top, &[], body, into)
}

/// The same for a body that stands in two pieces.
pub fn write_in_two(table_id: u8, top: u8, head: &[u8], rest: &[u8], into: &mut [u8]) -> usize
    requires writable { IsWritableSection table_id top (head.now ++ rest.now) }
    requires room { length head.now + length rest.now + 7 ≤ length into.old }
    ensures size { result ≡ length (section_bytes table_id top (head.now ++ rest.now)) }
    ensures written { into.new ≡ section_bytes table_id top (head.now ++ rest.now) ++ drop result into.old }
{
    let end = write_front(table_id, top, head, rest, into);
    let sum = crc32(&into[..end]);
    put(into, end, &sum.to_be_bytes());
    end + CRC
}

/// Writes the section as `write_in_two` does, but without the second piece: what stands before it and, right after that, the
/// CRC_32; answers how many bytes stand before it.
///
/// The section's bytes are these, then those of `rest`, then the four of the CRC_32.
pub fn write_around(table_id: u8, top: u8, head: &[u8], rest: &[u8], into: &mut [u8]) -> usize
    requires writable { IsWritableSection table_id top (head.now ++ rest.now) }
    requires room { length head.now + 7 ≤ length into.old }
    ensures size { result ≡ length head.now + 3 }
    ensures written { section_bytes table_id top (head.now ++ rest.now) ≡ take result into.new ++ (rest.now ++ take 4 (drop result into.new)) }
{
    let start = write_head(table_id, top, head, rest.len(), into);
    let before = crc32(as_bytes(&into[..start]));
    let sum = crc32_step(before, as_bytes(rest));
    put(into, start, &sum.to_be_bytes());
    start
}

/// Writes all before the CRC_32; answers where it ends.
fn write_front(table_id: u8, top: u8, head: &[u8], rest: &[u8], into: &mut [u8]) -> usize
    requires writable { IsWritableSection table_id top (head.now ++ rest.now) }
    requires room { length head.now + length rest.now + 7 ≤ length into.old }
    ensures size { result ≡ length (section_front table_id top (head.now ++ rest.now)) }
    ensures most { result ≡ length head.now + length rest.now + 3 }
    ensures written { into.new ≡ section_front table_id top (head.now ++ rest.now) ++ drop result into.old }
{
    let start = write_head(table_id, top, head, rest.len(), into);
    put(into, start, rest);
    start + rest.len()
}

/// Writes all before the second piece of a body, which has so many bytes; answers where it ends.
fn write_head(table_id: u8, top: u8, head: &[u8], rest: usize, into: &mut [u8]) -> usize
    requires most { length head.now + rest ≤ 4089 }
    requires upper_half { top % 16 ≡ 0 }
    requires room { length head.now + 3 ≤ length into.old }
    ensures size { result ≡ length head.now + 3 }
    ensures written { into.new ≡ section_head table_id top head.now rest ++ drop result into.old }
{
    let length = head.len() + rest + CRC;
    let number = u16::from(top) * 256 + length as u16;
    put(into, TABLE_ID, &[table_id]);
    put(into, LENGTH, &number.to_be_bytes());
    put(into, HEAD, head);
    HEAD + head.len()
}
