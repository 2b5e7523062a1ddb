//! Laws of CRC-32: over bytes in pieces, and over a unit with its CRC-32 after it.
//!
//! Statements over the definitions of wire_spec, and no code. Above: what reads units or assembles them from pieces.
//! Begin with `whole_unit`.
#![tactic(auto)]

ghost use Rattle.crc_law.specs.Whole.{four_bytes};
ghost use Rattle.std.specs.Int.{w32, to_be_bytes};
ghost use Rattle.std.specs.Prelude.{◌++◌, ◌<◌, ◌^◌, ◌≡◌, List, ℕ, false, length, true};
ghost use Rattle.wire_spec.specs.Bytes.{AreBytes};
ghost use Rattle.wire_spec.specs.Crc.{crc32_remainder, ends_with_crc};

/// Bytes in pieces have the CRC-32 that they have in one, and the register ends at 0 where the last four bytes are the CRC-32
/// of those before them, and only there: the decoder's test of ISO/IEC 13818-1 annex A. A CRC-32 fits four bytes; bytes with
/// their CRC-32 after them pass the comparison of the last four bytes, and fewer than four bytes never do.
pub fn whole_unit()
    ensures pieces { (start : ℕ) (front back : List ℕ) → start < 2 ^ 32 → AreBytes front → AreBytes back → crc32_remainder start (front ++ back) ≡ crc32_remainder (crc32_remainder start front) back }
    ensures zero { (start : ℕ) (bytes : List ℕ) → start < 2 ^ 32 → AreBytes bytes → crc32_remainder start (bytes ++ four_bytes (crc32_remainder start bytes)) ≡ 0 }
    ensures only { (start last : ℕ) (bytes : List ℕ) → start < 2 ^ 32 → last < 2 ^ 32 → AreBytes bytes → crc32_remainder start (bytes ++ four_bytes last) ≡ 0 → last ≡ crc32_remainder start bytes }
    ensures fits { (start : ℕ) (bytes : List ℕ) → crc32_remainder start bytes < 2 ^ 32 }
    ensures compared { (bytes : List ℕ) → ends_with_crc (bytes ++ to_be_bytes w32 (crc32_remainder 0xFFFF_FFFF bytes)) ≡ true }
    ensures short { (bytes : List ℕ) → length bytes < 4 → ends_with_crc bytes ≡ false }
{}
