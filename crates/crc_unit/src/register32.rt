//! CRC-32 of sections, SNDUs and PDUs (ISO/IEC 13818-1 annex A, RFC 4326 section 4.6).
//!
//! Bytes come in, their CRC-32 goes out: most significant bit first, no final inversion.
//! Few bytes go through tables alone; many are first divided by a multiple of five terms.

ghost use Rattle.std.specs.Prelude.{◌≡◌};
ghost use Rattle.wire_spec.specs.Crc as crc;
ghost use Rattle.wire_spec.specs.Crc.{crc32_remainder};

use crate::five_terms::{self, LONGEST};
use crate::sixteens;

/// The register before the first byte: each bit is 1 (ISO/IEC 13818-1 annex A).
const START: u32 = 0xFFFF_FFFF;

/// How many bytes a CRC-32 has.
const SIZE: usize = 4;

/// The fewest bytes for which the division by five terms is the faster way.
const MANY: usize = 512;

/// The register of CRC-32 after `bytes`, where it stood at `register` before them.
///
/// A unit may be given in pieces: the result for one is the register for the next.
pub fn crc32_step(register: u32, bytes: &[u8]) -> u32
    ensures { result ≡ crc32_remainder register bytes.now }
{
    if bytes.len() < MANY {
        return sixteens::crc32_step(register, bytes);
    }
    let (pieces, rest) = bytes.as_chunks::<LONGEST>();
    let mut running = register;
    for piece in pieces {
        running = five_terms::crc32_step(running, piece);
    }
    five_terms::crc32_step(running, rest)
}

/// The CRC-32 of `bytes`, as it stands in the four bytes after them, the most significant first.
///
/// The register starts at 0xFFFFFFFF, and its last value is not inverted.
pub fn crc32(bytes: &[u8]) -> u32
    ensures { result ≡ crc32_remainder 0xFFFF_FFFF bytes.now }
{
    crc32_step(START, bytes)
}

/// Whether the last four bytes are the CRC-32 of all before them, as in a whole unit. Fewer than four have none.
#[tactic(auto, using(crc_law::proofs::CheckSum::short_has_no_crc))]
pub fn ends_with_crc(bytes: &[u8]) -> bool
    ensures { result ≡ crc.ends_with_crc bytes.now }
{
    if bytes.len() < SIZE {
        return false;
    }
    let end = bytes.len() - SIZE;
    let told = u32::from_be_bytes([bytes[end], bytes[end + 1], bytes[end + 2], bytes[end + 3]]);
    crc32(&bytes[..end]) == told
}
