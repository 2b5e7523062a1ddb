//! Laws of the field of MPE-FEC (EN 301 192 clause 9): what its sums, products and powers obey.
//!
//! Statements over the definitions of fec_spec, and no code. Above: erasure_law and gf256.
//! Begin with `product_laws`.
#![tactic(auto)]

ghost use Rattle.std.specs.Prelude.{◌≡◌, ◌<◌, ◌^◌, ◌≢◌, ◌*◌, ◌/◌, ◌%◌, ℕ};
ghost use Rattle.fec_spec.specs.Field.{field_power, field_product, field_sum};

/// The product is commutative and associative, and distributes over the sum; 1 changes no byte.
pub fn product_laws()
    ensures commutes { (a b : ℕ) → field_product a b ≡ field_product b a }
    ensures associates { (a b c : ℕ) → field_product (field_product a b) c ≡ field_product a (field_product b c) }
    ensures distributes { (a b c : ℕ) → field_product (field_sum a b) c ≡ field_sum (field_product a c) (field_product b c) }
    ensures one { (a : ℕ) → a < 2 ^ 8 → field_product 1 a ≡ a }
    ensures inverse { (a : ℕ) → a < 2 ^ 8 → a ≢ 0 → (b : ℕ) × (b < 2 ^ 8) × (field_product a b ≡ 1) }
    ensures divisors { (a b : ℕ) → a < 2 ^ 8 → b < 2 ^ 8 → field_product a b ≡ 0 → b ≢ 0 → a ≡ 0 }
{}

/// The powers 0 to 254 of 2 differ, and are all bytes but 0.
pub fn powers_of_two()
    ensures differ { (n m : ℕ) → n < 255 → m < 255 → field_power 2 n ≡ field_power 2 m → n ≡ m }
    ensures all { (a : ℕ) → a < 2 ^ 8 → a ≢ 0 → (n : ℕ) × (n < 255) × (field_power 2 n ≡ a) }
    ensures not_zero { (n : ℕ) → field_power 2 n ≢ 0 }
{}

/// A product by the two halves of a byte, four bits each: two tables of 16 products are enough.
pub fn products_by_halves()
    ensures halves { (a b : ℕ) → field_product a b ≡ field_sum (field_product a (b / 16 * 16)) (field_product a (b % 16)) }
{}
