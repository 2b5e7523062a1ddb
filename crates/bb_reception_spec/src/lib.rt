//! Definitions of a reception of baseband frames: what a recording delivers of each service of a plan, and every number that is counted of it.
//!
//! Words for contracts, and no code but examples of them. They stand on gse_spec and plan_spec.
//! Standards: EN 302 307-1 clause 5.1.6, TS 102 606-1 clauses 4.2 and 4.4.
#![tactic(auto)]

ghost use Rattle.std.specs.Prelude.{◌≡◌, ℕ, [], ◌∷◌, List};
ghost use Rattle.wire_spec.specs.Examples.{small_ipv4};
ghost use Rattle.plan_spec.specs.Plan.{PlanFields};
ghost use Rattle.bb_reception_spec.specs.Delivered.{delivered_of, delivered_pairs};
ghost use Rattle.bb_reception_spec.specs.Numbers.{recording_numbers, numbers_of, pdu_numbers_of};
ghost use Rattle.bb_reception_spec.specs.Examples.{small_plan, small_recording, mixed_recording};

/// An empty recording delivers nothing.
pub fn nothing_is_received_of_nothing()
    ensures pairs { (plan : PlanFields) → delivered_pairs plan [] ≡ [] }
{}

/// Four frames: each is counted once, and the datagrams come in the order of the frames.
pub fn each_frame_is_counted_once()
    ensures numbers { recording_numbers small_plan small_recording ≡ record { frames = 4; unreadable = 1; other = 1 } }
    ensures pairs { delivered_pairs small_plan small_recording ≡ (1, small_ipv4) ∷ (0, small_ipv4) ∷ (0, small_ipv4) ∷ [] }
{}

/// A PDU without a datagram is unread, and one with a datagram for others filtered. Fragments without a first are delimited, and a
/// packet that is cut has a bad length.
pub fn each_packet_is_counted_once()
    ensures numbers { numbers_of small_plan 1 mixed_recording ≡ record { heard = 2; units = 3; bad_check = 0; delimited = 2; bad_length = 1 } }
    ensures pdus { pdu_numbers_of small_plan 1 mixed_recording ≡ record { unread = 1; filtered = 1; datagrams = 1 } }
    ensures delivered { delivered_of small_plan 1 mixed_recording ≡ small_ipv4 ∷ [] }
    ensures other { delivered_of small_plan 0 mixed_recording ≡ [] }
{}
