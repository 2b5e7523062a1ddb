//! Definitions of MPE-FEC: the field, codewords, rows with unknown places.
//!
//! Words for contracts, and no code but examples of them. They stand on wire_spec.
//! Standard: EN 301 192 clause 9.
#![tactic(auto)]

ghost use Rattle.std.specs.Prelude.{◌≡◌};
ghost use Rattle.fec_spec.specs.Field.{field_product, field_power};

/// Products by hand: 2 is x, and its powers come back to 1 after 255.
pub fn products_by_hand()
    ensures product { field_product 0x80 0x02 ≡ 0x1D }
    ensures power { field_power 2 255 ≡ 1 }
    ensures inverse { field_product 0x02 0x8E ≡ 1 }
{}
