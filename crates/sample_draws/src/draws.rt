//! A number -> its draws.
ghost use Rattle.std.specs.Prelude.{◌≡◌, ℕ, ◌+◌};
ghost use Rattle.sample_spec.specs.Draws.{next_state, state_after, draw_at};

use std::marker::Model;

/// Profile: the multiplier of the generator.
const MULTIPLIER: u64 = 6_364_136_223_846_793_005;

/// Profile: its increment.
const INCREMENT: u64 = 1_442_695_040_888_963_407;

/// The draws of a number, one after another. Contracts see the state.
#[derive(Drop)]
pub struct Draws {
    state: u64,
}

impl Model for Draws {
    ghost use Rattle.std.specs.Prelude.{ℕ};

    ghost Value = { ℕ };

    ghost view = { λ draws. draws.state };
}

impl Draws {
    /// No draw was made.
    pub fn new(number: u32) -> Draws
        ensures { result ≡ state_after number 0 }
    {
        Draws {
            state: u64::from(number),
        }
    }

    /// The next draw.
    pub fn next(&mut self) -> u32
        ensures drawn { (number count : ℕ) → self.old ≡ state_after number count → result ≡ draw_at number count }
        ensures state { (number count : ℕ) → self.old ≡ state_after number count → self.new ≡ state_after number (count + 1) }
    {
        self.state = state_after_one(self.state);
        (self.state >> 32) as u32
    }
}

/// The state after one more draw.
fn state_after_one(state: u64) -> u64
    ensures { result ≡ next_state state }
{
    state.wrapping_mul(MULTIPLIER).wrapping_add(INCREMENT)
}
