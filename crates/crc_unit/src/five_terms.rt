//! CRC-32 of many bytes: first divided by a multiple of its polynomial that has five terms, the rest by tables.
//!
//! A register and bytes come in, the register after them goes out.
//! x^2400+x^1240+x^936+x^712+1 is a multiple of the generator polynomial, so what it leaves of the bytes has their CRC-32.
//! A byte of its quotient waits for none that is nearer than 145 bytes: many are computed at once.

ghost use Rattle.crc_unit.specs.FiveTerms.{IsWindow, left_at};
ghost use Rattle.division_law.specs.Registers.{crc32_run};
ghost use Rattle.std.specs.Prelude.{◌≡◌, ◌+◌, ◌<◌, ◌≤◌, ℕ, length, slice_index};

use crate::sixteens;

/// The 2,400 bits of the multiple's degree, in bytes.
const DEGREE: usize = 300;

/// How many of the last bytes are not divided: 300 are needed, and 304 are whole steps of sixteen.
const REST: usize = 304;

/// The most bytes that are divided at once: a datagram of 1,500 bytes in its unit.
pub(crate) const LONGEST: usize = 1536;

/// How many bytes before it the nearest term of the quotient stands that falls on a byte.
const NEAREST: usize = 145;

/// 300 bytes before the quotient, the quotient, and those zeros after it that are read when the rest is subtracted.
const WINDOW: usize = LONGEST + DEGREE - NEAREST;

/// What is left of a message's byte when the terms of the quotient are subtracted that fall on it.
///
/// They are of its bytes 145, 183, 211 and 300 places earlier: x^1240 stands 145 bytes after x^2400.
fn byte_left(window: &[u8; WINDOW], place: usize, byte: u8) -> u8
    requires { place + 155 < WINDOW }
    ensures { result ≡ left_at window.now place byte }
{
    byte ^ window[place + 155] ^ window[place + 117] ^ window[place + 89] ^ window[place]
}

/// Makes a window of zeros that of bytes: their quotient, after the register before them.
fn divide(register: u32, bytes: &[u8], window: &mut [u8; WINDOW])
    requires room { length bytes.now + REST ≤ LONGEST }
    requires zeros { (i : ℕ) → slice_index window.old i ≡ 0 }
    ensures { IsWindow register bytes.now window.new }
{
    window[..4].copy_from_slice(&register.to_be_bytes());
    for place in 0..bytes.len() {
        let left = byte_left(window, place, bytes[place]);
        window[place + DEGREE] = left;
    }
}

/// Writes what the quotient leaves of the bytes after those that were divided.
fn subtract(window: &[u8; WINDOW], count: usize, behind: &[u8; REST], rest: &mut [u8; REST])
    requires { count + REST ≤ LONGEST }
    ensures { (i : ℕ) → i < REST → slice_index rest.new i ≡ left_at window.now (count + i) (slice_index behind.now i) }
{
    for place in 0..REST {
        rest[place] = byte_left(window, count + place, behind[place]);
    }
}

/// The register after bytes.
///
/// It is not inlined, so that no caller's frame holds the window.
#[inline(never)]
pub(crate) fn crc32_step(register: u32, bytes: &[u8]) -> u32
    requires { length bytes.now ≤ LONGEST }
    ensures { result ≡ crc32_run register bytes.now }
{
    let Some((front, behind)) = bytes.split_last_chunk::<REST>() else {
        return sixteens::crc32_step(register, bytes);
    };
    let mut window = [0; WINDOW];
    divide(register, front, &mut window);
    let mut rest = [0; REST];
    subtract(&window, front.len(), behind, &mut rest);
    sixteens::crc32_step(0, &rest)
}
