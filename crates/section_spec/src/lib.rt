//! Definitions of sections, and of the two that carry IP datagrams: datagram_section and MPE-FEC section.
//!
//! Words for contracts, and no code but examples of them. They stand on ts_spec and wire_spec.
//! Standards: ISO/IEC 13818-1 clause 2.4.4, EN 301 192 clauses 7 and 9.
#![tactic(auto)]

ghost use Rattle.std.specs.Prelude.{◌≡◌, ◌++◌, [], ◌∷◌, replicate, Some, None, true, false};
ghost use Rattle.ts_spec.specs.Form.{more, stuffing, whole, bad};
ghost use Rattle.wire_spec.specs.Examples.{small_ipv4};
ghost use Rattle.section_spec.specs.Section.{section_span, section_fields};
ghost use Rattle.section_spec.specs.Mpe.{mpe_of, mpe_body, mpe_to_write, fec_of, fec_body, real_time_of, real_time_number};

/// Three bytes tell the length of a section, of which 4,093 is the most.
pub fn spans_of_sections()
    ensures longest { section_span (0x3E ∷ 0xBF ∷ 0xFD ∷ []) ≡ whole 4096 }
    ensures above { section_span (0x3E ∷ 0xBF ∷ 0xFE ∷ []) ≡ bad }
    ensures below { section_span (0x3E ∷ 0xB0 ∷ 0x08 ∷ []) ≡ bad }
    ensures without { section_span (0x70 ∷ 0x70 ∷ 0x05 ∷ []) ≡ whole 8 }
    ensures cut { section_span (0x3E ∷ 0xBF ∷ []) ≡ more }
    ensures nothing { section_span [] ≡ more }
    ensures filled { section_span (0xFF ∷ []) ≡ stuffing }
{}

/// delta_t 200, table_boundary and address 6,720 are the number 0x0C8_8_1A40.
pub fn real_time_parameters_are_read()
    ensures read { real_time_of 0x0C88_1A40 ≡ record { delta = 200; table_boundary = true; frame_boundary = false; address = 6720 } }
    ensures number { real_time_number (record { delta = 200; table_boundary = true; frame_boundary = false; address = 6720 }) ≡ 0x0C88_1A40 }
{}

/// A body as it is written, and the fields that are read of it.
pub fn bodies_are_read()
    ensures body { mpe_body (mpe_to_write (1 ∷ 0 ∷ 0x5E ∷ 1 ∷ 2 ∷ 3 ∷ []) None small_ipv4) ≡ 3 ∷ 2 ∷ 0xC1 ∷ 0 ∷ 0 ∷ 1 ∷ 0x5E ∷ 0 ∷ 1 ∷ small_ipv4 }
    ensures datagram { mpe_of (record { table_id = 0x3E; body = 3 ∷ 2 ∷ 0xC1 ∷ 0 ∷ 0 ∷ 1 ∷ 0x5E ∷ 0 ∷ 1 ∷ small_ipv4 ++ 0xFF ∷ [] })
        ≡ Some (mpe_to_write (1 ∷ 0 ∷ 0x5E ∷ 1 ∷ 2 ∷ 3 ∷ []) None small_ipv4) }
    ensures scrambled { mpe_of (record { table_id = 0x3E; body = 3 ∷ 2 ∷ 0xE1 ∷ 0 ∷ 0 ∷ 1 ∷ 0x5E ∷ 0 ∷ 1 ∷ small_ipv4 }) ≡ None }
    ensures column { fec_of 2 (record { table_id = 0x78; body = 190 ∷ 0 ∷ 1 ∷ 5 ∷ 63 ∷ 0 ∷ 0x14 ∷ 0 ∷ 10 ∷ 7 ∷ 8 ∷ [] })
        ≡ Some (record { padding = 190; number = 5; last = 63; real_time = record { delta = 1; table_boundary = false; frame_boundary = true; address = 10 }; column = 7 ∷ 8 ∷ [] }) }
    ensures cut { fec_of 3 (record { table_id = 0x78; body = 190 ∷ 0 ∷ 1 ∷ 5 ∷ 63 ∷ 0 ∷ 0x14 ∷ 0 ∷ 10 ∷ 7 ∷ 8 ∷ [] }) ≡ None }
{}
