//! A law of slots: they stand for all packets that they were given. A statement over definitions, and no code.
ghost use Rattle.std.specs.Prelude.{◌≡◌, ℕ, List, ◌∷◌};
ghost use Rattle.gse_spec.specs.Reassembly.{PlacedPacket, opened, outcome_after};
ghost use Rattle.gse_reassembly.specs.Slots.{SlotsState, open_on, Stands, Takes};

/// What the slots hold stands for the packets so far, and a last fragment finds what looking back finds.
pub fn slots_stand_for_packets()
    ensures stands { (old new : SlotsState) (packets : List PlacedPacket) (p : PlacedPacket) → Stands old packets → p.frame_number ≡ old.frame_number
        → Takes old p.packet new → Stands new (p ∷ packets) }
    ensures outcome { (state : SlotsState) (packets : List PlacedPacket) (id frame_number crc : ℕ) (pdu : List ℕ) → Stands state packets
        → outcome_after (open_on state id) frame_number pdu crc ≡ outcome_after (opened id packets) frame_number pdu crc }
{}
