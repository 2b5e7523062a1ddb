//! Sections (ISO/IEC 13818-1 clause 2.4.4), read and written.
//!
//! Sending: mpe_section or int_table -> [section_codec] -> unit_stream -> ts_packet.
//! Receiving: ts_packet -> unit_stream -> [section_codec] -> mpe_section or int_table.
//! Begin with `parse` (`parse_checked` for a unit of reassembly) and `write`; `SectionForm` is their form for unit_stream.
#![tactic(auto)]

mod form;
mod laws;
mod section;

pub use form::SectionForm;
pub use laws::{a_written_section_reads_back, sections_are_lawful, sections_are_units};
pub use section::{
    SectionFault, SectionRef, parse, parse_checked, size, table_id, write, write_around,
    write_in_two,
};
