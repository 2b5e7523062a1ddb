//! The bytes at unknown places, each by the polynomial whose roots are the powers of the other unknown places.

ghost use Rattle.arrayvec.specs.ArrayVec.{array_vec_len};
ghost use Rattle.erasure_law.specs.Roots.{combined, differences, place_power, root_polynomial, times_root, without};
ghost use Rattle.fec_spec.specs.Field.{field_product, field_sum};
ghost use Rattle.fec_spec.specs.Row.{is_among};
ghost use Rattle.rs_erasure.specs.Fill.{Fills};
ghost use Rattle.std.specs.List.{All};
ghost use Rattle.std.specs.Prelude.{◌<◌, ◌==◌, ◌≡◌, ◌≤◌, ℕ, false, if◌then◌else◌, length, map, slice_index, true};

use crate::syndromes::locator_of;
use arrayvec::ArrayVec;
use gf256::Gf;

/// A polynomial times x + root.
fn product_with_root(polynomial: &[u8], root: Gf) -> ArrayVec<u8, 65>
    requires { length polynomial.now < 65 }
    ensures { result.items ≡ times_root root.0 0 polynomial.now }
{
    let mut product = ArrayVec::new();
    let mut carried = Gf(0);
    for coefficient in polynomial {
        product.push(carried.add(root.mul(Gf(*coefficient))).0);
        carried = Gf(*coefficient);
    }
    product.push(carried.0);
    product
}

/// A polynomial with another place's root, where that is another place.
fn with_root(polynomial: ArrayVec<u8, 65>, other: u8, place: u8) -> ArrayVec<u8, 65>
    requires room { array_vec_len polynomial < 65 }
    requires low { other < 255 }
    ensures { result.items ≡ (if place == other then polynomial.items else times_root (place_power other) 0 polynomial.items) }
{
    if place == other {
        polynomial
    } else {
        product_with_root(polynomial.as_slice(), locator_of(other))
    }
}

/// The polynomial whose roots are the powers of the other unknown places.
fn others_polynomial(unknown: &[u8], place: u8) -> ArrayVec<u8, 65>
    requires low { All (λ p. p < 255) unknown.now }
    requires few { length unknown.now ≤ 64 }
    ensures { result.items ≡ root_polynomial (map place_power (without place unknown.now)) }
{
    let mut polynomial = ArrayVec::new();
    polynomial.push(1u8);
    let mut left = unknown.len();
    while left > 0 {
        left -= 1;
        polynomial = with_root(polynomial, unknown[left], place);
    }
    polynomial
}

/// A product with another place's difference, where that is another place.
fn with_difference(value: Gf, other: u8, place: u8) -> Gf
    requires other_low { other < 255 }
    requires low { place < 255 }
    ensures { result.0 ≡ (if place == other then value.0 else field_product (field_sum (place_power other) (place_power place)) value.0) }
{
    if place == other {
        value
    } else {
        locator_of(other).add(locator_of(place)).mul(value)
    }
}

/// That polynomial's value at the place's own power.
fn others_value(unknown: &[u8], place: u8) -> Gf
    requires all_low { All (λ p. p < 255) unknown.now }
    requires low { place < 255 }
    ensures { result.0 ≡ differences (map place_power (without place unknown.now)) (place_power place) }
{
    let mut value = Gf(1);
    let mut left = unknown.len();
    while left > 0 {
        left -= 1;
        value = with_difference(value, unknown[left], place);
    }
    value
}

/// The syndromes times the coefficients, added.
fn combine(polynomial: &[u8], syndromes: &[u8; 64]) -> Gf
    requires { length polynomial.now ≤ 64 }
    ensures { result.0 ≡ combined polynomial.now (λ m. slice_index syndromes.now m) 0 }
{
    let mut sum = Gf(0);
    for m in 0..polynomial.len() {
        sum = sum.add(Gf(polynomial[m]).mul(Gf(syndromes[m])));
    }
    sum
}

/// The byte of a codeword at an unknown place, from the syndromes of the row with zeros at the unknown places.
fn unknown_byte(syndromes: &[u8; 64], unknown: &[u8], place: u8) -> u8
    requires all_low { All (λ p. p < 255) unknown.now }
    requires few { length unknown.now ≤ 64 }
    requires among { is_among place unknown.now ≡ true }
    requires low { place < 255 }
    ensures { Fills (λ m. slice_index syndromes.now m) unknown.now place result }
{
    let polynomial = others_polynomial(unknown, place);
    let sum = combine(polynomial.as_slice(), syndromes);
    let value = others_value(unknown, place);
    sum.mul(value.inverse()).0
}

/// A row with its unknown places filled.
pub fn filled(clear: &[u8; 255], syndromes: &[u8; 64], unknown: &[u8]) -> [u8; 255]
    requires all_low { All (λ p. p < 255) unknown.now }
    requires few { length unknown.now ≤ 64 }
    ensures known { (i : ℕ) → i < 255 → is_among i unknown.now ≡ false → slice_index result i ≡ slice_index clear.now i }
    ensures found { (i : ℕ) → i < 255 → is_among i unknown.now ≡ true → Fills (λ m. slice_index syndromes.now m) unknown.now i (slice_index result i) }
    ensures long { length result ≡ 255 }
    ensures bytes { All (λ b. b < 256) result }
{
    let mut row = *clear;
    for place in unknown {
        row[usize::from(*place)] = unknown_byte(syndromes, unknown, *place);
    }
    row
}
