//! Examples of packing, with 0 for each check sum.

ghost use Rattle.std.specs.Prelude.{◌≡◌, ℕ, [], ◌∷◌};
ghost use Rattle.gse_spec.specs.Packing.{id_after};
ghost use Rattle.gse_spec.specs.Sending.{in_rotation};
ghost use Rattle.gse_spec.specs.Examples.{long_pdu, field_sizes, fronts, one_class, two_classes, packed_in_order, urgent_frames, frames_that_yield};

/// 800 bytes with an address go into three frames of 300 bytes: DFL 2320, 2320 and 1944 bits.
pub fn long_pdus_are_packed()
    ensures sizes { field_sizes (packed_in_order (long_pdu 800 ∷ [])) ≡ 290 ∷ 290 ∷ 243 ∷ [] }
    ensures begins { fronts 3 (packed_in_order (long_pdu 800 ∷ []))
        ≡ (0x81 ∷ 0x20 ∷ 0 ∷ []) ∷ (0x31 ∷ 0x20 ∷ 0 ∷ []) ∷ (0x70 ∷ 0xF1 ∷ 0 ∷ []) ∷ [] }
    ensures none { packed_in_order [] ≡ [] }
    ensures rotates { id_after one_class.ordinary 255 ≡ 0 }
{}

/// Three PDUs of 40 bytes share a frame, and the label stands once.
pub fn short_pdus_share_a_frame()
    ensures sizes { field_sizes (packed_in_order (long_pdu 40 ∷ long_pdu 40 ∷ long_pdu 40 ∷ [])) ≡ 138 ∷ [] }
{}

/// 40 urgent bytes go before the rest of 800: four frames of 290, 290, 288 and 8 bytes of data.
pub fn an_urgent_pdu_goes_before_a_rest()
    ensures sizes { field_sizes urgent_frames ≡ 290 ∷ 290 ∷ 288 ∷ 8 ∷ [] }
    ensures begins { fronts 3 urgent_frames ≡ (0x81 ∷ 0x20 ∷ 0 ∷ []) ∷ (0xC0 ∷ 0x30 ∷ 8 ∷ []) ∷ (0x31 ∷ 0x1E ∷ 0 ∷ []) ∷ (0x70 ∷ 0x06 ∷ 0 ∷ []) ∷ [] }
    ensures ordinary_ids { id_after two_classes.ordinary 127 ≡ 0 }
    ensures urgent_ids { id_after two_classes.urgent 255 ≡ 128 }
{}

/// An ordinary PDU of 600 bytes yields to seven urgent ones of 270, one in each frame after its start; then it goes on and ends, and the
/// other two go after it, the first of them in the room that is left.
pub fn an_ordinary_pdu_yields_in_eight_frames()
    ensures sizes { field_sizes frames_that_yield ≡ 290 ∷ 280 ∷ 280 ∷ 280 ∷ 280 ∷ 280 ∷ 280 ∷ 280 ∷ 290 ∷ 290 ∷ 290 ∷ 43 ∷ [] }
    ensures begins { fronts 1 frames_that_yield
        ≡ (0x81 ∷ []) ∷ (0xC1 ∷ []) ∷ (0xC1 ∷ []) ∷ (0xC1 ∷ []) ∷ (0xC1 ∷ []) ∷ (0xC1 ∷ []) ∷ (0xC1 ∷ []) ∷ (0xC1 ∷ []) ∷ (0x31 ∷ []) ∷ (0x70 ∷ []) ∷ (0x70 ∷ []) ∷ (0x70 ∷ []) ∷ [] }
{}

/// One item of each list that has one left, and so on.
pub fn services_are_in_rotation()
    ensures rotates { in_rotation {X = ℕ} ((1 ∷ 2 ∷ 3 ∷ []) ∷ [] ∷ (4 ∷ []) ∷ (5 ∷ 6 ∷ []) ∷ []) ≡ 1 ∷ 4 ∷ 5 ∷ 2 ∷ 6 ∷ 3 ∷ [] }
{}
