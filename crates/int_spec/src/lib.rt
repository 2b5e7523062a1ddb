//! Definitions of the IP/MAC notification table (INT): its loops and descriptors, what is written, what is read.
//!
//! Words for contracts, and no code but examples of them. They stand on section_spec and addr_rules.
//! Standard: EN 301 192 clause 8.4.
#![tactic(auto)]

ghost use Rattle.std.specs.Prelude.{◌≡◌, ◌∷◌, ◌++◌, [], length, map, true, false, Some, None};
ghost use Rattle.std.specs.List.{list_all};
ghost use Rattle.section_spec.specs.Section.{section_fields};
ghost use Rattle.int_spec.specs.Descriptors.{is_descriptor, is_right_descriptor, is_loop, rules_of};
ghost use Rattle.int_spec.specs.Table.{table_body, rule_groups};
ghost use Rattle.int_spec.specs.Reading.{is_table, has_right_hash, HasLoops, CarriesTable, Loops};
ghost use Rattle.int_spec.specs.Examples.{group_rule, small_table, small_body, small_loops};

/// A table of two streams as it is written, and its rules by descriptors.
pub fn a_small_table_is_written()
    ensures body { table_body small_table ≡ small_body }
    ensures together { rule_groups (group_rule 1 ∷ group_rule 2 ∷ []) ≡ (group_rule 1 ∷ group_rule 2 ∷ []) ∷ [] }
{}

/// The same table as it is read.
pub fn a_small_table_is_read()
    ensures loops { HasLoops small_body small_loops }
    ensures table { CarriesTable small_body small_loops small_table }
    ensures hash { has_right_hash small_body ≡ true }
{}

/// Descriptors whose length does not fit, or whose slash is above the bits of an address, are not right.
pub fn right_descriptors()
    ensures none { is_right_descriptor (0x0F ∷ 0 ∷ []) ≡ true }
    ensures most { is_right_descriptor (0x0F ∷ 5 ∷ 239 ∷ 1 ∷ 0 ∷ 0 ∷ 32 ∷ []) ≡ true }
    ensures slash { is_right_descriptor (0x0F ∷ 5 ∷ 239 ∷ 1 ∷ 0 ∷ 0 ∷ 33 ∷ []) ≡ false }
    ensures length { is_right_descriptor (0x0F ∷ 4 ∷ 239 ∷ 1 ∷ 0 ∷ 0 ∷ []) ≡ false }
    ensures cut { is_right_descriptor (0x53 ∷ 2 ∷ 7 ∷ []) ≡ false }
    ensures other { is_right_descriptor (0x53 ∷ 2 ∷ 7 ∷ 8 ∷ []) ≡ true }
{}
