//! The tables of programs (PAT and PMT, ISO/IEC 13818-1 clause 2.4.4), read and written, and the services that a recording names.
//!
//! Sending: plan -> tables_command -> [psi_tables] -> section -> unit_stream -> ts_packet.
//! Receiving: ts_record -> ts_packet -> unit_stream -> section -> [psi_tables] -> lines of text.
//! Begin with `Finder`: `new`, `step`, `text`; or with `read_pat`, `read_pmt`, `write_pat`, `write_pmt`.
#![tactic(auto)]

mod finder;
mod first;
mod pat;
mod pmt;
mod psi;
mod streams;
mod taking;
mod text;
mod watch;
mod writing;

pub use finder::Finder;
pub use pat::{Pat, PatFault, PatReadFault, Program, read_pat};
pub use pmt::{Pmt, PmtFault, PmtReadFault, Stream, read_pmt};
pub use writing::{write_pat, write_pmt};
