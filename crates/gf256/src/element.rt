//! Elements of the field: bytes as polynomials over bits, modulo x^8+x^4+x^3+x^2+1 (EN 301 192 clause 9).
ghost use Rattle.std.specs.Prelude.{◌≡◌, ◌≢◌, if◌then◌else◌};
ghost use Rattle.fec_spec.specs.Field.{field_power, field_product, field_sum};

use crate::halves::{HIGH_HIGH, HIGH_LOW, LOW_LOW};

/// An element of the field; bit 7 is the coefficient of x^7.
#[derive(Clone, Copy, Debug, PartialEq, Eq)]
pub struct Gf(pub u8);

/// The product where it is wanted, otherwise the first element.
fn multiplied(done: Gf, base: Gf, is_wanted: bool) -> Gf
    ensures { result.0 ≡ (if is_wanted then field_product done.0 base.0 else done.0) }
{
    if is_wanted { done.mul(base) } else { done }
}

impl Gf {
    /// The sum, bit by bit.
    pub fn add(self, other: Gf) -> Gf
        ensures { result.0 ≡ field_sum self.0 other.0 }
    {
        Gf(self.0 ^ other.0)
    }

    /// The product of the polynomials, modulo x^8+x^4+x^3+x^2+1, as the sum of the products of the halves.
    pub fn mul(self, other: Gf) -> Gf
        ensures { result.0 ≡ field_product self.0 other.0 }
    {
        let low = usize::from(self.0 % 16);
        let high = usize::from(self.0 / 16);
        let by_low = usize::from(other.0 % 16);
        let by_high = usize::from(other.0 / 16);
        let first = HIGH_HIGH[high][by_high] ^ HIGH_LOW[low][by_high];
        let second = HIGH_LOW[high][by_low] ^ LOW_LOW[low][by_low];
        Gf(first ^ second)
    }

    /// The product of `exponent` times the element; 1 for no time.
    pub fn power(self, exponent: u32) -> Gf
        ensures { result.0 ≡ field_power self.0 exponent }
    {
        let mut done = Gf(1);
        let mut base = self;
        let mut rest = exponent;
        while rest > 0 {
            done = multiplied(done, base, rest % 2 == 1);
            base = base.mul(base);
            rest /= 2;
        }
        done
    }

    /// The element whose product with this one is 1: the power 254, since the power 255 is 1.
    pub fn inverse(self) -> Gf
        requires { self.0 ≢ 0 }
        ensures { field_product self.0 result.0 ≡ 1 }
    {
        self.power(254)
    }
}
