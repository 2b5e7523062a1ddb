//! CRC-32 one byte at a time, by one table: the plain body of `crc32_step`.
//!
//! A register and bytes come in, the register after them goes out.

ghost use Rattle.division_law.specs.Registers.{crc32_byte};
ghost use Rattle.std.specs.Prelude.{◌≡◌};
ghost use Rattle.wire_spec.specs.Crc.{crc32_remainder};

use crate::table::{TABLES, entry_of};

/// The register after one byte.
pub(crate) fn byte_step(register: u32, byte: u8) -> u32
    ensures { result ≡ crc32_byte register byte }
{
    let index = (register >> 24) as u8 ^ byte;
    (register << 8) ^ entry_of(&TABLES[0], index)
}

/// The register after bytes.
pub(crate) fn crc32_step(register: u32, bytes: &[u8]) -> u32
    ensures { result ≡ crc32_remainder register bytes.now }
{
    let mut running = register;
    for byte in bytes {
        running = byte_step(running, *byte);
    }
    running
}
