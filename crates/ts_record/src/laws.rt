//! Laws of the definitions.
ghost use Rattle.std.specs.Prelude.{◌≡◌, ℕ, List};
ghost use Rattle.wire_spec.specs.Lists.{IsCut};

/// Bytes are cut into pieces of one size in one way.
pub fn cuts_are_unique()
    ensures pieces { (size : ℕ) (bytes : List ℕ) (xs ys : List (List ℕ)) (s t : List ℕ)
        → IsCut size bytes xs s → IsCut size bytes ys t → xs ≡ ys }
    ensures tail { (size : ℕ) (bytes : List ℕ) (xs ys : List (List ℕ)) (s t : List ℕ)
        → IsCut size bytes xs s → IsCut size bytes ys t → s ≡ t }
{}
