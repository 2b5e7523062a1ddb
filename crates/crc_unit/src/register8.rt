//! CRC-8 of baseband headers (EN 302 307-1 clauses 5.1.4 and 5.1.6).
//!
//! The header's first nine bytes come in, its tenth goes out. Nine bytes a frame need no table.

ghost use Rattle.division_law.specs.Registers.{crc8_byte, register_step};
ghost use Rattle.std.specs.Prelude.{◌≡◌};
ghost use Rattle.wire_spec.specs.Crc.{crc8_remainder};

/// x^7+x^6+x^4+x^2+1: the generator polynomial without x^8 (EN 302 307-1 clause 5.1.4).
const POLYNOMIAL: u8 = 0xD5;

/// The register before the first byte.
const START: u8 = 0;

/// The register after one shift.
fn shift(register: u8) -> u8
    ensures { result ≡ register_step 7 0xD5 register }
{
    if register < 128 {
        register * 2
    } else {
        (register << 1) ^ POLYNOMIAL
    }
}

/// The register after one byte.
fn byte_step(register: u8, byte: u8) -> u8
    ensures { result ≡ crc8_byte register byte }
{
    let mut running = register ^ byte;
    for _ in 0..u8::BITS {
        running = shift(running);
    }
    running
}

/// The CRC-8 of `bytes`, as it stands in the byte after them: from 0, most significant bit first.
pub fn crc8(bytes: &[u8]) -> u8
    ensures { result ≡ crc8_remainder bytes.now }
{
    let mut running = START;
    for byte in bytes {
        running = byte_step(running, *byte);
    }
    running
}
