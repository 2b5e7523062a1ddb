//! The form of SNDUs: what their first bytes tell of their length, and their check.
//!
//! The front of some bytes comes in, and how long the SNDU there is goes out.

ghost use Rattle.std.specs.Prelude.{◌≡◌};
ghost use Rattle.ts_spec.specs.Sndu.{sndu_span};
ghost use Rattle.unit_stream.specs.Form.{span_told};

use crc_unit::ends_with_crc;
use unit_stream::{Span, UnitForm};

/// Bytes before the NPA address or the PDU: D and Length, then Type (RFC 4326 section 4).
pub(crate) const HEAD: usize = 4;

/// The place of Type, after D and Length (RFC 4326 section 4).
pub(crate) const TYPE: usize = 2;

/// Bytes of an NPA address (RFC 4326 section 4.5).
pub(crate) const ADDRESS: usize = 6;

/// Bytes of the CRC-32 at the end (RFC 4326 section 4.6).
pub(crate) const CRC: usize = 4;

/// D in the first byte: there is no NPA address (RFC 4326 section 4.1).
pub(crate) const NO_ADDRESS: u8 = 0x80;

/// D in the number that the first two bytes are.
pub(crate) const D: u16 = 0x8000;

/// Length is the lower 15 bits of the first two bytes, under D (RFC 4326 section 4.2).
const LENGTH_VALUES: usize = 0x8000;

/// Each of the two bytes of an End Indicator (RFC 4326 section 4.3).
const END_INDICATOR: u8 = 0xFF;

/// What `prefix` tells of the SNDU at its front (RFC 4326 sections 4.1 to 4.3).
pub(crate) fn span_of(prefix: &[u8]) -> Span
    ensures told { span_told result ≡ sndu_span prefix.now }
{
    if prefix.len() < TYPE {
        return Span::More;
    }
    if prefix[0] == END_INDICATOR && prefix[1] == END_INDICATOR {
        return Span::Stuffing;
    }
    let length = (usize::from(prefix[0]) * 256 + usize::from(prefix[1])) % LENGTH_VALUES;
    let least = if prefix[0] >= NO_ADDRESS {
        CRC
    } else {
        ADDRESS + CRC
    };
    if length < least {
        Span::Bad
    } else {
        Span::Whole(HEAD + length)
    }
}

/// SNDUs as units of a transport stream: D and Length, 2 bytes, stand in the first packet (RFC 4326 section 6), and the
/// longest has 32,767 bytes after its Type (section 4.2).
pub struct UleForm;

impl UnitForm for UleForm {
    ghost use Rattle.std.specs.Prelude.{refl};
    ghost use Rattle.ts_spec.specs.Sndu.{sndu_form};
    ghost use Rattle.ule_unit.specs.Spans.{sndu_lawful};

    ghost form = { sndu_form };

    ghost START = { 2 };

    ghost LONGEST = { 32771 };

    const START: usize = 2;

    const LONGEST: usize = 32_771;

    fn span(prefix: &[u8]) -> Span {
        span_of(prefix)
    }

    fn check(unit: &[u8]) -> bool {
        ends_with_crc(unit)
    }

    ghost lawful = { sndu_lawful };

    ghost start_is = { refl };

    ghost longest_is = { refl };
}
