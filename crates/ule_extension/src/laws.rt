//! The law of chains: optional headers lead to one end, and that is the end that is read.
//!
//! A statement over the definitions, and no code.

ghost use Rattle.std.specs.Prelude.{◌≡◌, ℕ, ◌<◌, ◌^◌, List};
ghost use Rattle.ts_spec.specs.Chain.{ChainEnd, IsEnd, chain_end};
ghost use Rattle.wire_spec.specs.Bytes.{AreBytes};

/// From each Type and bytes on there is one end of the chain.
pub fn a_chain_has_one_end()
    ensures end { (first_type : ℕ) (bytes : List ℕ) → first_type < 2 ^ 16 → AreBytes bytes → IsEnd first_type bytes (chain_end first_type bytes) }
    ensures only { (first_type : ℕ) (bytes : List ℕ) (end : ChainEnd) → IsEnd first_type bytes end → chain_end first_type bytes ≡ end }
{}
