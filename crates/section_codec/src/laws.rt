//! Laws of sections: they are units of a transport stream, and what is written reads back.
//!
//! Statements over the definitions of section_spec, and no code.

ghost use Rattle.std.specs.Prelude.{◌≡◌, ◌≢◌, ◌↔◌, ℕ, List, true, length, slice_index, ◌++◌};
ghost use Rattle.ts_spec.specs.Form.{IsLawful, IsUnit, whole};
ghost use Rattle.section_spec.specs.Section.{IsWritableSection, section_form, section_span, section_fields, section_bytes, is_section};

/// Sections are a lawful kind of unit: three bytes tell their length, what is told stays, and none is longer than LONGEST.
pub fn sections_are_lawful()
    ensures lawful { IsLawful section_form }
{}

/// The units of this kind are the bytes that read as a section and do not begin with FF, which is stuffing.
pub fn sections_are_units()
    ensures units { (unit : List ℕ) → IsUnit section_form unit ↔ ((is_section unit ≡ true) × (slice_index unit 0 ≢ 0xFF)) }
{}

/// A section that is written is one, reads back, and is told from all that follows it.
pub fn a_written_section_reads_back()
    ensures section { (table_id top : ℕ) (body : List ℕ) → IsWritableSection table_id top body → is_section (section_bytes table_id top body) ≡ true }
    ensures unit { (table_id top : ℕ) (body : List ℕ) → IsWritableSection table_id top body → IsUnit section_form (section_bytes table_id top body) }
    ensures read { (table_id top : ℕ) (body : List ℕ) → IsWritableSection table_id top body
        → section_fields (section_bytes table_id top body) ≡ record { table_id = table_id; body = body } }
    ensures span { (table_id top : ℕ) (body rest : List ℕ) → IsWritableSection table_id top body
        → section_span (section_bytes table_id top body ++ rest) ≡ whole (length (section_bytes table_id top body)) }
{}
