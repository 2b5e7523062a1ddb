//! Laws of the definitions that this crate's contracts cite.
ghost use Rattle.std.specs.Prelude.{◌≡◌, ◌≢◌, ◌⊎◌, ◌↔◌, ℕ, ◌<◌, ◌≤◌, List, ◌++◌, length, Some, None};
ghost use Rattle.wire_spec.specs.Datagram.{IsFront, front_length};
ghost use Rattle.ip_datagram.specs.Hint.{hint_of};
ghost use Rattle.ip_datagram.specs.declared.hint.Hint.TheVariants as hint;

/// Where bytes begin with a datagram it is one of one length, which its header tells.
pub fn a_front_is_one_datagram()
    ensures front { (b : List ℕ) (n : ℕ) → (front_length b ≡ Some n) ↔ IsFront b n }
    ensures one { (b : List ℕ) (m n : ℕ) → IsFront b m → IsFront b n → m ≡ n }
{}

/// What a prefix tells is what the whole bytes say.
pub fn hints_agree_with_fronts()
    ensures stays { (prefix rest : List ℕ) → hint_of prefix ≢ hint.More → hint_of (prefix ++ rest) ≡ hint_of prefix }
    ensures more { (prefix : List ℕ) → hint_of prefix ≡ hint.More → length prefix < 7 }
    ensures whole { (prefix rest : List ℕ) (n : ℕ) → hint_of prefix ≡ hint.Length n → n ≤ length (prefix ++ rest) → front_length (prefix ++ rest) ≡ Some n }
    ensures cut { (prefix rest : List ℕ) (n : ℕ) → hint_of prefix ≡ hint.Length n → length (prefix ++ rest) < n → front_length (prefix ++ rest) ≡ None }
    ensures padding { (prefix rest : List ℕ) → hint_of prefix ≡ hint.Padding → front_length (prefix ++ rest) ≡ None }
    ensures bad { (prefix rest : List ℕ) → hint_of prefix ≡ hint.Bad → front_length (prefix ++ rest) ≡ None }
    ensures told { (prefix rest : List ℕ) (n : ℕ) → front_length (prefix ++ rest) ≡ Some n → (hint_of prefix ≡ hint.Length n) ⊎ (hint_of prefix ≡ hint.More) }
{}
