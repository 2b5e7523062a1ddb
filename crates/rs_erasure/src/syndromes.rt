//! The syndromes of a row, which are its values at powers of 2, and the powers of places.

ghost use Rattle.erasure_law.specs.Roots.{place_power};
ghost use Rattle.fec_spec.specs.Codeword.{row_value};
ghost use Rattle.fec_spec.specs.Field.{field_power};
ghost use Rattle.std.specs.Prelude.{◌<◌, ◌≡◌, ◌≢◌, ℕ, false, slice_index, true};

use crate::powers::POWERS;
use gf256::Gf;

/// The value of a row, by Horner's rule.
pub fn value_at(row: &[u8], z: Gf) -> Gf
    ensures { result.0 ≡ row_value z.0 row.now }
{
    let mut value = Gf(0);
    for byte in row {
        value = value.mul(z).add(Gf(*byte));
    }
    value
}

/// The power of a place.
pub fn locator_of(place: u8) -> Gf
    requires { place < 255 }
    ensures { result.0 ≡ place_power place }
{
    Gf(POWERS[usize::from(place)])
}

/// The syndromes of a row at the powers 0 to 63 of 2.
pub fn syndromes_of(row: &[u8]) -> [u8; 64]
    ensures { (m : ℕ) → m < 64 → slice_index result m ≡ row_value (field_power 2 m) row.now }
{
    let mut syndromes = [0u8; 64];
    for m in 0..64u8 {
        syndromes[usize::from(m)] = value_at(row, Gf(2).power(u32::from(m))).0;
    }
    syndromes
}

/// Whether the syndromes of a row at the powers 0 to 63 of 2 are all 0.
pub fn has_zeros(row: &[u8]) -> bool
    ensures yes { result ≡ true → (m : ℕ) → m < 64 → row_value (field_power 2 m) row.now ≡ 0 }
    ensures no { result ≡ false → (m : ℕ) × (m < 64) × (row_value (field_power 2 m) row.now ≢ 0) }
{
    for m in 0..64u8 {
        if value_at(row, Gf(2).power(u32::from(m))).0 != 0 {
            return false;
        }
    }
    true
}
