//! Laws of both kinds of section: what is written reads back.
//!
//! Statements over the definitions of section_spec.

ghost use Rattle.std.specs.Prelude.{◌≡◌, ◌≤◌, ℕ, List, Some, None, true, length, ◌++◌};
ghost use Rattle.wire_spec.specs.Bytes.{AreBytes};
ghost use Rattle.wire_spec.specs.Datagram.{IsDatagram};
ghost use Rattle.ts_spec.specs.Form.{IsUnit, whole};
ghost use Rattle.section_spec.specs.Section.{SectionFields, is_section, section_fields, section_form, section_span};
ghost use Rattle.section_spec.specs.Mpe.{FecFields, IsRealTime, IsWritableFec, IsWritableMpe, MpeFields, RealTimeFields, fec_bytes, fec_of, mac_number, mpe_bytes, mpe_of, mpe_to_write, real_time_of};

use ip_datagram::a_front_is_one_datagram;
use section_codec::a_written_section_reads_back;

/// A datagram_section that is written is a section, reads back, and is told from all that follows it.
pub fn a_written_datagram_section_reads_back()
    ensures section { (m : MpeFields) → IsWritableMpe m → is_section (mpe_bytes m) ≡ true }
    ensures unit { (m : MpeFields) → IsWritableMpe m → IsUnit section_form (mpe_bytes m) }
    ensures read { (m : MpeFields) → IsWritableMpe m → mpe_of (section_fields (mpe_bytes m)) ≡ Some m }
    ensures span { (m : MpeFields) (rest : List ℕ) → IsWritableMpe m → section_span (mpe_bytes m ++ rest) ≡ whole (length (mpe_bytes m)) }
{
    a_front_is_one_datagram();
    a_written_section_reads_back();
}

/// In a datagram_section the first four bytes of the address and the parameters are two readings of bytes 8 to 11.
pub fn an_address_and_parameters_are_two_readings()
    ensures agree { (s : SectionFields) (m : MpeFields) → mpe_of s ≡ Some m → m.real_time ≡ real_time_of (mac_number m.mac) }
{}

/// Each address, and each parameters beside the last two bytes of one, can be written with a datagram.
pub fn an_address_or_parameters_can_be_written()
    ensures address { (mac datagram : List ℕ) → AreBytes mac → length mac ≡ 6 → IsDatagram datagram → length datagram ≤ 4080
        → IsWritableMpe (mpe_to_write mac None datagram) }
    ensures parameters { (t : RealTimeFields) (mac datagram : List ℕ) → IsRealTime t → AreBytes mac → length mac ≡ 6 → IsDatagram datagram → length datagram ≤ 4080
        → IsWritableMpe (mpe_to_write mac (Some t) datagram) }
{}

/// An MPE-FEC section that is written is a section, reads back, and is told from all that follows it.
pub fn a_written_fec_section_reads_back()
    ensures section { (f : FecFields) → IsWritableFec f → is_section (fec_bytes f) ≡ true }
    ensures unit { (f : FecFields) → IsWritableFec f → IsUnit section_form (fec_bytes f) }
    ensures read { (f : FecFields) → IsWritableFec f → fec_of (length f.column) (section_fields (fec_bytes f)) ≡ Some f }
    ensures span { (f : FecFields) (rest : List ℕ) → IsWritableFec f → section_span (fec_bytes f ++ rest) ≡ whole (length (fec_bytes f)) }
{
    a_written_section_reads_back();
}
