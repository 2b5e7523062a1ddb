//! Definitions of recordings of either carrier in pieces: what they tell and deliver, the datagrams of all services in one order, and what a relay sends of them.
//!
//! Words for contracts, and no code but examples of them. They stand on reception_spec, bb_reception_spec and carrier_spec.
#![tactic(auto)]

ghost use Rattle.std.specs.Prelude.{◌≡◌, ℕ, [], ◌∷◌};
ghost use Rattle.wire_spec.specs.Examples.{small_ipv4};
ghost use Rattle.bb_reception_spec.specs.Examples.{small_plan, small_recording};
ghost use Rattle.recording_spec.specs.Interleaving.{part_of};
ghost use Rattle.recording_spec.specs.Pieces.{delivered_pairs, pairs_of_end};
ghost use Rattle.recording_spec.specs.Relayed.{relayed};

use bb_reception_spec::each_frame_is_counted_once;

/// Of four frames three give a datagram: one of the second service, then two of the first. The end gives none.
pub fn frames_give_their_datagrams_in_one_order()
    ensures pairs { delivered_pairs small_plan small_recording ≡ (1, small_ipv4) ∷ (0, small_ipv4) ∷ (0, small_ipv4) ∷ [] }
    ensures end { pairs_of_end small_plan small_recording ≡ [] }
    ensures relayed { relayed small_plan small_recording ≡ small_ipv4 ∷ small_ipv4 ∷ small_ipv4 ∷ [] }
{
    each_frame_is_counted_once();
}

/// A list of five that is two lists merged.
pub fn a_list_has_its_parts()
    ensures first { part_of {X = ℕ} 0 (0 ∷ 1 ∷ 0 ∷ 0 ∷ 1 ∷ []) (10 ∷ 20 ∷ 11 ∷ 12 ∷ 21 ∷ []) ≡ 10 ∷ 11 ∷ 12 ∷ [] }
    ensures second { part_of {X = ℕ} 1 (0 ∷ 1 ∷ 0 ∷ 0 ∷ 1 ∷ []) (10 ∷ 20 ∷ 11 ∷ 12 ∷ 21 ∷ []) ≡ 20 ∷ 21 ∷ [] }
{}
