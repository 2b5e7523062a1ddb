//! One row: 191 data bytes come in, 64 parity bytes go out.
ghost use Rattle.std.specs.Prelude.{◌+◌, ◌++◌, ◌<◌, ◌≡◌, slice_index};
ghost use Rattle.fec_spec.specs.Codeword.{IsCodeword};
ghost use Rattle.rs_encode.specs.Division.{IsNext};

use crate::generator::{GENERATOR, PARITY};
use gf256::Gf;

/// Completes the codeword of 191 data bytes (EN 301 192 clause 9).
///
/// The parity is what the division by the generator polynomial leaves.
pub fn encode_row(given: &[u8; 191], parity: &mut [u8; 64])
    ensures written { IsCodeword (given.now ++ parity.new) }
{
    let mut state = [0u8; PARITY];
    for byte in given {
        state = next_state(&GENERATOR, &state, *byte);
    }
    *parity = state;
}

/// What is left with a data byte more.
fn next_state(generator: &[u8; PARITY], state: &[u8; PARITY], byte: u8) -> [u8; PARITY]
    ensures { IsNext generator.now state.now byte result }
{
    let factor = Gf(byte ^ state[0]);
    let mut next = [0u8; PARITY];
    for k in 0..PARITY {
        next[k] = factor.mul(Gf(generator[k])).0 ^ byte_behind(state, k);
    }
    next
}

/// The byte after a place, or 0 after the last.
fn byte_behind(state: &[u8; PARITY], place: usize) -> u8
    requires { place < 64 }
    ensures { result ≡ slice_index state.now (place + 1) }
{
    if place + 1 < PARITY {
        state[place + 1]
    } else {
        0
    }
}
