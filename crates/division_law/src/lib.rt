//! The law of check sums: the shift register that computes one ends at the remainder of long division.
//!
//! Statements over the definitions of wire_spec, and no code. Above: crc_unit, crc_law and the laws of the field.
//! Begin with `register_is_remainder`.
#![tactic(auto)]

ghost use Rattle.std.specs.Prelude.{◌≡◌, ◌<◌, ◌^◌, List, ℕ};
ghost use Rattle.wire_spec.specs.Bytes.{AreBytes};
ghost use Rattle.wire_spec.specs.Crc.{crc32_remainder, crc8_remainder};
ghost use Rattle.division_law.specs.Registers.{crc32_run, crc8_run};

/// From any start value, the register after bytes is the remainder of the message.
pub fn register_is_remainder()
    ensures long { (start : ℕ) (bytes : List ℕ) → start < 2 ^ 32 → AreBytes bytes → crc32_run start bytes ≡ crc32_remainder start bytes }
    ensures short { (bytes : List ℕ) → AreBytes bytes → crc8_run 0 bytes ≡ crc8_remainder bytes }
{}
