//! A unit -> the section of a frame that it is: a datagram with its place, or a column of RS data.
ghost use Rattle.std.specs.Prelude.{◌≡◌, ◌≤◌, false, IfNone, IfSome, option_to_list, option_map};
ghost use Rattle.ts_spec.specs.Form.{IsUnit};
ghost use Rattle.section_spec.specs.Section.{section_form};
ghost use Rattle.fec_frame_spec.specs.Sections.{data_section, ends_frame, frame_sections_in, is_within_table, real_time_in as parameters_in};
ghost use Rattle.mpe_section.specs.Views.{real_time_in, mpe_in};
ghost use Rattle.fec_reception.specs.Reading.{section_in, FitsTable};

use mpe_section::{Fec, Mpe, RealTime, read_fec, read_mpe};
use section_codec::{parse_checked, sections_are_units};

/// Columns of the application data table (EN 301 192 clause 9).
const DATA_COLUMNS: usize = 191;

/// A section of a frame.
#[derive(Clone, Copy, Debug, PartialEq, Eq)]
pub(crate) enum Section<'a> {
    /// A datagram_section.
    Data(Mpe<'a>),
    /// An MPE-FEC section.
    Parity(Fec<'a>),
}

impl<'a> Section<'a> {
    /// Its real_time_parameters.
    pub(crate) fn real_time(&self) -> RealTime
        ensures read { real_time_in result ≡ parameters_in (section_in self.now) }
    {
        match self {
            Section::Data(mpe) => mpe.real_time,
            Section::Parity(fec) => fec.real_time,
        }
    }

    /// frame_boundary: whether it is the last one of its frame.
    pub(crate) fn ends_frame(&self) -> bool
        ensures read { result ≡ ends_frame (section_in self.now) }
    {
        match self {
            Section::Data(mpe) => mpe.real_time.frame_boundary,
            Section::Parity(fec) => fec.real_time.frame_boundary,
        }
    }
}

/// Reads a unit that reassembly gave as a section of a frame with so many rows. None: it is none, or its datagram passes the application
/// data table.
pub(crate) fn read_section(unit: &[u8], rows: u16) -> Option<Section<'_>>
    ensures read { IsUnit section_form unit.now → option_to_list (option_map section_in result) ≡ frame_sections_in rows unit.now }
    ensures fits { IfSome result (λ s. FitsTable rows s) }
{
    sections_are_units();
    let Some(section) = parse_checked(unit) else {
        return None;
    };
    if let Ok(mpe) = read_mpe(&section) {
        return data_within(mpe, rows);
    }
    match read_fec(&section, rows) {
        Ok(fec) => Some(Section::Parity(fec)),
        Err(_) => None,
    }
}

/// The section of a datagram, where this does not pass the application data table.
fn data_within(mpe: Mpe<'_>, rows: u16) -> Option<Section<'_>>
    ensures some { IfSome result (λ s. (s ≡ Section.Data mpe.entry) × FitsTable rows s) }
    ensures none { IfNone result (is_within_table rows (data_section (mpe_in mpe.entry)) ≡ false) }
{
    let room = DATA_COLUMNS * usize::from(rows);
    let address = mpe.real_time.address as usize;
    if address <= room && mpe.datagram.len() <= room - address {
        Some(Section::Data(mpe))
    } else {
        None
    }
}
