//! The form of sections: what their first bytes tell of their length, and their check.
//!
//! The front of some bytes comes in, and how long the section there is goes out.

ghost use Rattle.std.specs.Prelude.{◌≡◌, ◌≤◌, length};
ghost use Rattle.section_spec.specs.Section.{section_length, section_span, section_check};
ghost use Rattle.unit_stream.specs.Form.{span_told};

use crc_unit::ends_with_crc;
use unit_stream::{Span, UnitForm};

/// Bytes before the body: table_id, then section_length and the four bits before it (ISO/IEC 13818-1 clause 2.4.4).
pub(crate) const HEAD: usize = 3;

/// The place of table_id.
pub(crate) const TABLE_ID: usize = 0;

/// The place of the two bytes with section_syntax_indicator and section_length.
pub(crate) const LENGTH: usize = 1;

/// Bytes of the CRC_32 at the end.
pub(crate) const CRC: usize = 4;

/// section_syntax_indicator in the second byte.
pub(crate) const SYNTAX: u8 = 0x80;

/// The greatest section_length: a section has at most 4,096 bytes.
pub(crate) const MOST: usize = 4093;

/// The least section_length beside section_syntax_indicator 1: a head of 5 bytes and the CRC_32.
pub(crate) const LEAST: usize = 9;

/// section_length is the lower 12 bits of the second and third byte.
const LENGTH_VALUES: usize = 0x1000;

/// A byte in the place of a table_id, up to the end of the packet.
const STUFFING: u8 = 0xFF;

/// section_length of bytes that hold it.
pub(crate) fn length_of(prefix: &[u8]) -> usize
    requires { 3 ≤ length prefix.now }
    ensures { result ≡ section_length prefix.now }
{
    (usize::from(prefix[LENGTH]) * 256 + usize::from(prefix[LENGTH + 1])) % LENGTH_VALUES
}

/// What `prefix` tells of the section at its front.
pub(crate) fn span_of(prefix: &[u8]) -> Span
    ensures told { span_told result ≡ section_span prefix.now }
{
    if prefix.is_empty() {
        return Span::More;
    }
    if prefix[TABLE_ID] == STUFFING {
        return Span::Stuffing;
    }
    if prefix.len() < HEAD {
        return Span::More;
    }
    let length = length_of(prefix);
    if length > MOST || prefix[LENGTH] >= SYNTAX && length < LEAST {
        Span::Bad
    } else {
        Span::Whole(HEAD + length)
    }
}

/// Whether section_syntax_indicator is 1 and the CRC_32 is right.
#[tactic(auto, using(crate::proofs::CheckSum::section_check_short))]
pub(crate) fn is_checked(unit: &[u8]) -> bool
    ensures checked { result ≡ section_check unit.now }
{
    if unit.len() < HEAD || unit[LENGTH] < SYNTAX {
        return false;
    }
    ends_with_crc(unit)
}

/// Sections as units of a transport stream: the table_id alone stands in the first packet, and the longest has 4,096 bytes
/// (ISO/IEC 13818-1 clause 2.4.4).
pub struct SectionForm;

impl UnitForm for SectionForm {
    ghost use Rattle.std.specs.Prelude.{refl};
    ghost use Rattle.section_spec.specs.Section.{section_form};
    ghost use Rattle.section_codec.specs.Spans.{section_lawful};

    ghost form = { section_form };

    ghost START = { 1 };

    ghost LONGEST = { 4096 };

    const START: usize = 1;

    const LONGEST: usize = 4096;

    fn span(prefix: &[u8]) -> Span {
        span_of(prefix)
    }

    fn check(unit: &[u8]) -> bool {
        is_checked(unit)
    }

    ghost lawful = { section_lawful };

    ghost start_is = { refl };

    ghost longest_is = { refl };
}
