//! Definitions over a whole transmission: the channel, what arrived intact, and what a recording delivers.
//!
//! Words for contracts, and no code but examples of them. They stand on ts_spec.
#![tactic(auto)]

ghost use Rattle.std.specs.Prelude.{◌≡◌, ℕ, []};
ghost use Rattle.channel_spec.specs.Delivered.{delivered_by_ule};

/// An empty recording delivers nothing.
pub fn nothing_is_delivered_of_nothing()
    ensures { (pid : ℕ) → delivered_by_ule pid [] ≡ [] }
{}
