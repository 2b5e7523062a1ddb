//! Sections of multiprotocol encapsulation (EN 301 192 clauses 7 and 9): datagrams, and columns of RS data.
//!
//! Sending: datagram or column -> [mpe_section] -> unit_stream -> ts_packet.
//! Receiving: unit_stream -> section_codec -> [mpe_section] -> datagram, or the table of an MPE-FEC frame.
//! Begin with `read_mpe` and `write_mpe`, `read_fec` and `write_fec`.
#![tactic(auto)]

mod body;
mod fec;
mod laws;
mod mpe;
mod real_time;

pub use fec::{Fec, FecFault, fec_size, read_fec, write_fec};
pub use laws::{
    a_written_datagram_section_reads_back, a_written_fec_section_reads_back,
    an_address_and_parameters_are_two_readings, an_address_or_parameters_can_be_written,
};
pub use mpe::{Mpe, MpeFault, mpe_size, read_mpe, write_mpe, write_mpe_around};
pub use real_time::RealTime;
