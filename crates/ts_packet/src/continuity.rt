//! How a packet of a PID follows the one received before it.
ghost use Rattle.std.specs.Prelude.{◌≡◌, ℕ, List, [], ◌∷◌, ◌++◌, Some, None};
ghost use Rattle.ts_spec.specs.Packet.{fields_of};
ghost use Rattle.ts_packet.specs.Fields.{fields_in};
ghost use Rattle.ts_packet.specs.Links.{link_of, last_of, IsLastOf};

use crate::packet::{COUNTER, Packet};
use std::marker::Model;

/// How a packet follows the packet of its PID that was received last.
#[derive(Clone, Copy, Debug, PartialEq, Eq)]
pub enum Link {
    /// None was received before it.
    First,
    /// It is continuous: it has the next counter, and no discontinuity_indicator.
    Next,
    /// It is a duplicate: the same 188 bytes. Profile: also the third time and later.
    Repeat,
    /// A discontinuity: packets may be lost before it.
    Gap,
}

/// The packet of one PID that was received last.
#[derive(Drop)]
pub struct Continuity {
    last: Option<[u8; 188]>,
}

impl Model for Continuity {
    ghost use Rattle.std.specs.Prelude.{ℕ, List, Option};

    ghost Value = { Option (List ℕ) };

    ghost view = { λ c. c.last };
}

impl Continuity {
    /// No packet was received.
    pub fn new() -> Continuity
        ensures none { result ≡ None }
        ensures stands { IsLastOf result [] }
    {
        Continuity { last: None }
    }

    /// Takes the next packet of the PID, which `parse` read from `bytes`, and says how it follows
    /// (ISO/IEC 13818-1 clause 2.4.3.3: continuity_counter, duplicate packets).
    #[inline(always)]
    #[tactic(auto, using(crate::proofs::LinksLemmas::last_of_push))]
    pub fn see(&mut self, bytes: &[u8; 188], packet: &Packet<'_>) -> Link
        requires { fields_in packet.now ≡ fields_of bytes.now }
        ensures link { result ≡ link_of self.old bytes.now }
        ensures last { self.new ≡ Some bytes.now }
        ensures followed { (seen : List (List ℕ)) → IsLastOf self.old seen
            → result ≡ link_of (last_of seen) bytes.now }
        ensures stands { (seen : List (List ℕ)) → IsLastOf self.old seen
            → IsLastOf self.new (seen ++ bytes.now ∷ []) }
    {
        let link = match &self.last {
            None => Link::First,
            Some(last) => link_behind(last, bytes, packet),
        };
        match &mut self.last {
            None => self.last = Some(*bytes),
            Some(last) => last.copy_from_slice(bytes),
        }
        link
    }
}

/// continuity_counter has 4 bits (clause 2.4.3.3).
const COUNTERS: u8 = 16;

/// How `packet`, read from `bytes`, follows the packet `last`.
///
/// The bytes are compared only where the counters are equal: a duplicate has the same.
#[inline(always)]
#[tactic(auto, unfolding(ts_spec::specs::Packet::fields_of))]
fn link_behind(last: &[u8; 188], bytes: &[u8; 188], packet: &Packet<'_>) -> Link
    requires { fields_in packet.now ≡ fields_of bytes.now }
    ensures { result ≡ link_of (Some last.now) bytes.now }
{
    let counter = last[3] & COUNTER;
    if packet.counter == counter && last == bytes {
        Link::Repeat
    } else if packet.counter == (counter + 1) % COUNTERS && !packet.broken {
        Link::Next
    } else {
        Link::Gap
    }
}
