//! Laws of SNDUs: they are units of a transport stream, and what is written reads back.
//!
//! Statements over the definitions of ts_spec, and no code.

ghost use Rattle.std.specs.Prelude.{◌≡◌, ◌↔◌, ℕ, List, Option, true, length, ◌++◌};
ghost use Rattle.ts_spec.specs.Form.{IsLawful, IsUnit, whole};
ghost use Rattle.ts_spec.specs.Sndu.{sndu_form, sndu_span, sndu_fields, sndu_bytes, is_sndu};
ghost use Rattle.ule_unit.specs.Writable.{IsWritable};

/// SNDUs are a lawful kind of unit: four bytes tell their length, what is told stays, and none is longer than LONGEST.
pub fn sndus_are_lawful()
    ensures lawful { IsLawful sndu_form }
{}

/// The bytes that read as an SNDU are the units of this kind: of their own length, with their check.
pub fn sndus_are_units()
    ensures units { (unit : List ℕ) → (is_sndu unit ≡ true) ↔ IsUnit sndu_form unit }
{}

/// An SNDU that is written is one, reads back, and is told from all that follows it.
pub fn a_written_sndu_reads_back()
    ensures sndu { (npa : Option (List ℕ)) (first_type : ℕ) (pdu : List ℕ) → IsWritable npa first_type pdu
        → is_sndu (sndu_bytes npa first_type pdu) ≡ true }
    ensures read { (npa : Option (List ℕ)) (first_type : ℕ) (pdu : List ℕ) → IsWritable npa first_type pdu
        → sndu_fields (sndu_bytes npa first_type pdu) ≡ record { npa = npa; first_type = first_type; bytes = pdu } }
    ensures span { (npa : Option (List ℕ)) (first_type : ℕ) (pdu rest : List ℕ) → IsWritable npa first_type pdu
        → sndu_span (sndu_bytes npa first_type pdu ++ rest) ≡ whole (length (sndu_bytes npa first_type pdu)) }
{}
