//! What both kinds of section have in their bodies: a head of nine bytes, and what stands after it.
//!
//! Byte 0 of a body is byte 3 of its section. A body that is shorter than its head reads as if zeros followed it.

ghost use Rattle.std.specs.Prelude.{◌≡◌, ◌≤◌, length, slice_index, drop};
ghost use Rattle.section_spec.specs.Mpe.{is_current};

/// Bytes of a body before its datagram or column.
pub(crate) const HEAD: usize = 9;

/// The place of the byte that ends with current_next_indicator.
pub(crate) const FLAGS: usize = 2;

/// The place of section_number.
pub(crate) const NUMBER: usize = 3;

/// The place of last_section_number.
pub(crate) const LAST: usize = 4;

/// The places of MAC_address_1 to MAC_address_6 (EN 301 192 clause 7.1).
pub(crate) const MAC: [usize; 6] = [8, 7, 6, 5, 1, 0];

/// The place of real_time_parameters, which stand where MAC_address_4 to _1 do (EN 301 192 clause 9).
pub(crate) const REAL_TIME: usize = 5;

/// The place of padding_columns (EN 301 192 clause 9).
pub(crate) const PADDING: usize = 0;

/// The upper half of byte 1 of a section: section_syntax_indicator, a private bit of 0, and two reserved bits.
pub(crate) const TOP: u8 = 0xB0;

/// The byte at a place of a body.
pub(crate) fn byte_at(body: &[u8], place: usize) -> u8
    ensures { result ≡ slice_index body.now place }
{
    if place < body.len() { body[place] } else { 0 }
}

/// The bytes after the head.
pub(crate) fn behind_head(body: &[u8]) -> &[u8]
    ensures behind { result.now ≡ drop 9 body.now }
    ensures within { length result.now ≤ length body.now }
{
    if body.len() < HEAD {
        return &[];
    }
    &body[HEAD..]
}

/// Whether current_next_indicator is 1.
pub(crate) fn current_next_indicator(body: &[u8]) -> bool
    ensures { result ≡ is_current body.now }
{
    byte_at(body, FLAGS) % 2 == 1
}
