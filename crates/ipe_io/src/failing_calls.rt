//! The numbers of an object's calls, and which of them are to fail.
ghost use Rattle.std.specs.Prelude.{◌≡◌, ◌↔◌, ℕ, ◌+◌, ◌^◌, ◌<◌, ◌≤◌, min, IfOk, IsTrue, Contains};
ghost use Rattle.ipe_io.specs.Memory.{IsListed, first_call, next_call};

use std::alloc::{AllocError as OutOfMemory, Global};
use std::marker::Model;

// No listed number is this large.
const BEYOND: u64 = 1 << 32;

/// Counts an object's calls, and knows which of them are to fail.
#[derive(Drop)]
pub struct FailingCalls {
    listed: Vec<u32>,
    next: u64,
}

impl Model for FailingCalls {
    ghost use Rattle.std.specs.Prelude.{◌^◌, ◌≤◌};
    ghost use Rattle.ipe_io.specs.Memory.{Calls};

    ghost Value = { Calls };

    ghost view = { λ c. record { failing = c.listed.items; next = c.next } };

    ghost invariant = { λ c. c.next ≤ 2 ^ 32 };
}

impl FailingCalls {
    pub fn new(alloc: Global, fails: &[u32]) -> Result<FailingCalls, OutOfMemory>
        ensures { IfOk result (λ calls. calls ≡ first_call fails.now) }
    {
        Ok(FailingCalls {
            listed: Vec::from_slice(alloc, fails)?,
            next: 0,
        })
    }

    /// Numbers one call, and answers whether it is to fail.
    pub fn count(&mut self) -> bool
        ensures listed { IsTrue result ↔ IsListed self.old }
        ensures next { self.new ≡ next_call self.old }
        ensures below { IsTrue result → self.old.next < 2 ^ 32 }
    {
        let fails = is_listed(&self.listed, self.next);
        self.next = (self.next + 1).min(BEYOND);
        fails
    }
}

// Whether a call's number is among those that fail.
fn is_listed(listed: &[u32], number: u64) -> bool
    ensures listed { IsTrue result ↔ Contains listed.now number }
    ensures below { IsTrue result → number < 2 ^ 32 }
{
    match u32::try_from(number) {
        Ok(number) => listed.contains(&number),
        Err(_) => false,
    }
}
