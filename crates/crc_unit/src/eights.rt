//! CRC-32 eight bytes at a time, by eight tables; the rest byte by byte.
//!
//! A register and bytes come in, the register after them goes out.

ghost use Rattle.division_law.specs.Registers.{crc32_run};
ghost use Rattle.std.specs.Prelude.{◌≡◌};
ghost use Rattle.wire_spec.specs.Crc.{crc32_remainder};

use crate::plain;
use crate::table::{TABLES, entry_of};

/// The register after eight bytes, of which the first four are added to its own.
fn eight_step(register: u32, eight: &[u8; 8]) -> u32
    ensures { result ≡ crc32_run register eight.now }
{
    let own = register.to_be_bytes();
    entry_of(&TABLES[7], own[0] ^ eight[0])
        ^ entry_of(&TABLES[6], own[1] ^ eight[1])
        ^ entry_of(&TABLES[5], own[2] ^ eight[2])
        ^ entry_of(&TABLES[4], own[3] ^ eight[3])
        ^ entry_of(&TABLES[3], eight[4])
        ^ entry_of(&TABLES[2], eight[5])
        ^ entry_of(&TABLES[1], eight[6])
        ^ entry_of(&TABLES[0], eight[7])
}

/// The register after bytes.
pub(crate) fn crc32_step(register: u32, bytes: &[u8]) -> u32
    ensures { result ≡ crc32_remainder register bytes.now }
{
    let (eights, rest) = bytes.as_chunks::<8>();
    let mut running = register;
    for eight in eights {
        running = eight_step(running, eight);
    }
    plain::crc32_step(running, rest)
}
