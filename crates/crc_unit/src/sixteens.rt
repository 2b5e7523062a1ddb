//! CRC-32 sixteen bytes at a time, by sixteen tables.
//!
//! A register and bytes come in, the register after them goes out.
//! Of a step's sixteen look-ups twelve wait for nothing, and only four for the register.

ghost use Rattle.crc_unit.specs.Entry.{entries};
ghost use Rattle.division_law.specs.Registers.{crc32_run};
ghost use Rattle.std.specs.Prelude.{◌≡◌, ◌+◌, ◌≤◌, drop};
ghost use Rattle.wire_spec.specs.Bytes.{four_at};
ghost use Rattle.wire_spec.specs.Crc.{crc32_remainder};

use crate::eights;
use crate::table::{TABLES, entry_of};

/// Four bytes from a place on, read as one word: one load in place of four.
fn four_of(sixteen: &[u8; 16], at: usize) -> [u8; 4]
    requires { at + 4 ≤ 16 }
    ensures { result ≡ four_at sixteen.now at }
{
    let word = u32::from_le_bytes([
        sixteen[at],
        sixteen[at + 1],
        sixteen[at + 2],
        sixteen[at + 3],
    ]);
    word.to_le_bytes()
}

/// What the last twelve bytes of sixteen add to the register after them.
///
/// Eight of them come by two words, four by themselves: all by words would take more shifts, and all by themselves more loads.
fn last_twelve(sixteen: &[u8; 16]) -> u32
    ensures { result ≡ entries (drop 4 sixteen.now) }
{
    let second = four_of(sixteen, 4);
    let third = four_of(sixteen, 8);
    entry_of(&TABLES[11], second[0])
        ^ entry_of(&TABLES[10], second[1])
        ^ entry_of(&TABLES[9], second[2])
        ^ entry_of(&TABLES[8], second[3])
        ^ entry_of(&TABLES[7], third[0])
        ^ entry_of(&TABLES[6], third[1])
        ^ entry_of(&TABLES[5], third[2])
        ^ entry_of(&TABLES[4], third[3])
        ^ entry_of(&TABLES[3], sixteen[12])
        ^ entry_of(&TABLES[2], sixteen[13])
        ^ entry_of(&TABLES[1], sixteen[14])
        ^ entry_of(&TABLES[0], sixteen[15])
}

/// The register after sixteen bytes, of which the first four are added to its own.
///
/// The look-ups that don't wait for the register stand first, so that its own are added last.
fn sixteen_step(register: u32, sixteen: &[u8; 16]) -> u32
    ensures { result ≡ crc32_run register sixteen.now }
{
    let behind = last_twelve(sixteen);
    let own = register.to_be_bytes();
    let first = four_of(sixteen, 0);
    let upper = entry_of(&TABLES[15], own[0] ^ first[0]) ^ entry_of(&TABLES[14], own[1] ^ first[1]);
    let lower = entry_of(&TABLES[13], own[2] ^ first[2]) ^ entry_of(&TABLES[12], own[3] ^ first[3]);
    behind ^ upper ^ lower
}

/// The register after bytes.
pub(crate) fn crc32_step(register: u32, bytes: &[u8]) -> u32
    ensures { result ≡ crc32_remainder register bytes.now }
{
    let (sixteens, rest) = bytes.as_chunks::<16>();
    let mut running = register;
    for sixteen in sixteens {
        running = sixteen_step(running, sixteen);
    }
    eights::crc32_step(running, rest)
}
