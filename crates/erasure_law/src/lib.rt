//! Laws of codewords: bytes at 191 places tell a codeword, and how its other bytes are found.
//!
//! Statements over the definitions of fec_spec, and no code.
#![tactic(auto)]

ghost use Rattle.std.specs.Prelude.{◌∷◌, ◌≡◌, ◌+◌, ◌-◌, ◌<◌, ◌≤◌, ◌≢◌, ℕ, List, drop, length, map, slice_index, suc, true};
ghost use Rattle.wire_spec.specs.Bytes.{AreBytes};
ghost use Rattle.erasure_law.specs.Roots.{combined, differences, eliminated, place_power, syndromes_of, polynomial_value, root_polynomial, without};
ghost use Rattle.fec_spec.specs.Codeword.{IsCodeword, row_value};
ghost use Rattle.fec_spec.specs.Field.{field_power, field_product, field_sum};
ghost use Rattle.fec_spec.specs.Row.{Agrees, is_among, same_places};

/// Two codewords that agree at 191 places or more are equal.
pub fn codewords_differ_at_65_places()
    ensures { (c d : List ℕ) → IsCodeword c → IsCodeword d → 191 ≤ same_places c d → c ≡ d }
{}

/// Two codewords that agree but at 64 given places or fewer are equal.
pub fn one_codeword_agrees()
    ensures { (unknown c d : List ℕ) → IsCodeword c → IsCodeword d → ((j : ℕ) → is_among j unknown ≡ true → j < 255) → length unknown ≤ 64 → Agrees unknown c d → c ≡ d }
{}

/// The byte of a codeword at one of at most 64 unknown places, where the row has 0. Let p be the polynomial whose roots are the powers of the
/// other unknown places: the byte times p at the place's power, which is not 0, is the sum of p's coefficients times the row's syndromes.
pub fn unknown_byte_is()
    ensures { (unknown row code : List ℕ) (i : ℕ) → IsCodeword code → length row ≡ 255 → i < 255 → ((j : ℕ) → is_among j unknown ≡ true → j < 255) → length unknown ≤ 64 → is_among i unknown ≡ true → Agrees unknown row code → slice_index row i ≡ 0 → (let p = root_polynomial (map place_power (without i unknown)) in (field_product (slice_index code i) (polynomial_value p (place_power i)) ≡ combined p (λ m. row_value (field_power 2 m) row) 0) × (polynomial_value p (place_power i) ≢ 0)) }
{}

/// With one place more, what is left at m is what is left without it at m + 1, plus the place's power times what is left without it at m.
pub fn one_place_is_eliminated()
    ensures { (place : ℕ) (places : List ℕ) (values : ℕ → ℕ) (m : ℕ) → eliminated (place ∷ places) values m ≡ field_sum (eliminated places values (suc m)) (field_product (place_power place) (eliminated places values m)) }
{}

/// Of a row that agrees with a codeword but at the unknown places nothing is left when these are eliminated.
pub fn nothing_is_left_of_a_codeword()
    ensures { (unknown row code : List ℕ) (m : ℕ) → IsCodeword code → length row ≡ 255 → Agrees unknown row code → m + length unknown < 64 → eliminated unknown (syndromes_of row) m ≡ 0 }
{}

/// A row of which nothing is left, with no unknown place eliminated, with one, and so on, is a codeword.
pub fn what_leaves_nothing_is_a_codeword()
    ensures { (unknown row : List ℕ) → length row ≡ 255 → AreBytes row → ((j : ℕ) → j < 64 → eliminated (drop (length unknown - j) unknown) (syndromes_of row) (j - length unknown) ≡ 0) → IsCodeword row }
{}

/// A byte that is added at a place adds to what is left that byte times the product of the differences to the places.
pub fn an_added_byte_adds()
    ensures { (places row new : List ℕ) (i e : ℕ) → length row ≡ 255 → length new ≡ 255 → i < 255 → ((j : ℕ) → j < 255 → j ≢ i → slice_index row j ≡ slice_index new j) → slice_index new i ≡ field_sum (slice_index row i) e → eliminated places (syndromes_of new) 0 ≡ field_sum (eliminated places (syndromes_of row) 0) (field_product e (differences (map place_power places) (place_power i))) }
{}
