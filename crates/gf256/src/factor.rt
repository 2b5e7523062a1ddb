//! A factor with the tables of its products, and its products with 16 bytes at once.
//!
//! The product with a byte is the sum of those with its two halves, four bits each: two tables of 16 products are enough.
ghost use Rattle.std.specs.Prelude.{◌*◌, ◌≡◌, ◌<◌, ◌≤◌, ℕ, map, slice_index};
ghost use Rattle.fec_spec.specs.Field.{field_product, field_sum};

use crate::element::Gf;
use crate::halves::{HIGH_HIGH, HIGH_LOW, LOW_LOW};
use std::simd::prelude::*;

/// How far the higher half of a byte is shifted.
const HALF: u8 = 4;
/// The lower half of a byte.
const LOW_HALF: u8 = 0x0F;

/// A factor; its products with 0 to 15, and with 0, 16, 32 and so on to 240.
#[derive(Drop)]
pub(crate) struct Factor {
    value: Gf,
    low: u8x16,
    high: u8x16,
    ghost low_products: { (i : ℕ) → i < 16 → slice_index low i ≡ field_product value.0 i },
    ghost high_products: { (i : ℕ) → i < 16 → slice_index high i ≡ field_product value.0 (i * 16) },
}

/// The sums of the bytes at each place.
#[inline(always)]
fn sums(one: &[u8; 16], other: &[u8; 16]) -> [u8; 16]
    ensures { (i : ℕ) → i < 16 → slice_index result i ≡ field_sum (slice_index one.now i) (slice_index other.now i) }
{
    let mut table = [0u8; 16];
    for i in 0..16usize {
        table[i] = one[i] ^ other[i];
    }
    table
}

impl Factor {
    /// The factor with its tables.
    pub(crate) fn of(value: Gf) -> Factor
        ensures { result.value.0 ≡ value.0 }
    {
        let low_half = usize::from(value.0 % 16);
        let high_half = usize::from(value.0 / 16);
        let low = u8x16::from_array(sums(&HIGH_LOW[high_half], &LOW_LOW[low_half]));
        let high = u8x16::from_array(sums(&HIGH_HIGH[high_half], &HIGH_LOW[low_half]));
        Factor { value, low, high }
    }

    /// The products with 16 bytes.
    pub(crate) fn times(&self, bytes: u8x16) -> u8x16
        ensures { result ≡ map (field_product self.now.value.0) bytes }
    {
        let by_high = self
            .high
            .swizzle_dyn_within::<16>(bytes >> u8x16::splat(HALF));
        let by_low = self
            .low
            .swizzle_dyn_within::<16>(bytes & u8x16::splat(LOW_HALF));
        by_high ^ by_low
    }
}
