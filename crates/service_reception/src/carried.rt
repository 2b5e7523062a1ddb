//! A unit -> the label and the datagram that it carries, by the kind of unit.
ghost use Rattle.std.specs.Prelude.{◌≡◌};
ghost use Rattle.ts_spec.specs.Form.{IsUnit};
ghost use Rattle.ts_spec.specs.Sndu.{sndu_form};
ghost use Rattle.section_spec.specs.Section.{section_form};
ghost use Rattle.plan_spec.specs.Plan.{KindFields};
ghost use Rattle.stream_spec.specs.Services.{form_of_kind};
ghost use Rattle.reception_spec.specs.Units.{label_of_npa};
ghost use Rattle.service_reception.specs.Services.{IsUle, IsMpe};
ghost use Rattle.service_reception.specs.Carried.{ReadsAs};

use addr_rules::Label;
use mpe_section::read_mpe;
use section_codec::{SectionForm, parse_checked, sections_are_units};
use ule_extension::datagram;
use ule_unit::{UleForm, read_checked};
use unit_stream::UnitForm;

/// What a unit carries.
#[derive(Clone, Copy, Debug, PartialEq, Eq)]
pub struct Carried<'a> {
    /// Whose it is.
    pub label: Label,
    /// The datagram, lent out of the unit.
    pub datagram: &'a [u8],
}

/// A kind of unit that carries one datagram at most.
pub trait UnitReader: UnitForm {
    /// The kinds of service whose units these are.
    ghost IsOfKind: { KindFields → Type 0 };

    /// Reads a unit that reassembly gave. None: it carries no datagram.
    fn read(unit: &[u8]) -> Option<Carried<'_>>
        ensures read { (kind : KindFields) → IsOfKind kind → IsUnit Self.form unit.now → ReadsAs kind unit.now result };

    ghost form_is: { (kind : KindFields) → IsOfKind kind → form_of_kind kind ≡ Self.form };
}

impl UnitReader for UleForm {
    ghost use Rattle.service_reception.specs.Services.{IsUle, ule_form};

    ghost IsOfKind = { IsUle };

    #[inline(always)]
    fn read(unit: &[u8]) -> Option<Carried<'_>> {
        read_sndu(unit)
    }

    ghost form_is = { ule_form };
}

impl UnitReader for SectionForm {
    ghost use Rattle.service_reception.specs.Services.{IsMpe, mpe_form};

    ghost IsOfKind = { IsMpe };

    #[inline(always)]
    fn read(unit: &[u8]) -> Option<Carried<'_>> {
        read_section(unit)
    }

    ghost form_is = { mpe_form };
}

/// The datagram of an SNDU after its extension headers (RFC 4326 sections 4 and 5).
#[inline(always)]
fn read_sndu(unit: &[u8]) -> Option<Carried<'_>>
    ensures read { (kind : KindFields) → IsUle kind → IsUnit sndu_form unit.now → ReadsAs kind unit.now result }
{
    let sndu = match read_checked(unit) {
        Some(sndu) => sndu,
        None => return None,
    };
    let label = label_of(sndu.npa);
    match datagram(sndu.first_type, sndu.bytes) {
        Ok(datagram) => Some(Carried { label, datagram }),
        Err(_) => None,
    }
}

/// The label that an NPA address is; a unit without one is for all receivers (RFC 4326 section 4.5).
fn label_of(npa: Option<[u8; 6]>) -> Label
    ensures { result ≡ label_of_npa npa }
{
    match npa {
        Some(npa) => Label::Six(npa),
        None => Label::Broadcast,
    }
}

/// The datagram of a datagram_section (EN 301 192 clause 7). Reassembly has compared its CRC_32.
fn read_section(unit: &[u8]) -> Option<Carried<'_>>
    ensures read { (kind : KindFields) → IsMpe kind → IsUnit section_form unit.now → ReadsAs kind unit.now result }
{
    sections_are_units();
    let section = match parse_checked(unit) {
        Some(section) => section,
        None => return None,
    };
    match read_mpe(&section) {
        Ok(mpe) => Some(Carried {
            label: Label::Six(mpe.mac),
            datagram: mpe.datagram,
        }),
        Err(_) => None,
    }
}
