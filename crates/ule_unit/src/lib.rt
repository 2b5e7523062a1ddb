//! SNDUs, the units of ULE (RFC 4326 section 4), read and written.
//!
//! Sending: datagram -> [ule_unit] -> unit_stream -> ts_packet.
//! Receiving: ts_packet -> unit_stream -> [ule_unit] -> ule_extension -> datagram.
//! Begin with `read` (`read_checked` for a unit of reassembly) and `write`; `UleForm` is their form for unit_stream.
#![tactic(auto)]

mod form;
mod laws;
mod sndu;

pub use form::UleForm;
pub use laws::{a_written_sndu_reads_back, sndus_are_lawful, sndus_are_units};
pub use sndu::{Sndu, UleFault, read, read_checked, size, write, write_around};
