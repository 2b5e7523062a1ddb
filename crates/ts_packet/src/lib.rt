//! Transport packets (ISO/IEC 13818-1 clause 2.4.3.2), read and written, and how one follows another.
//!
//! Sending: unit_stream -> [ts_packet] -> ts_record.
//! Receiving: ts_record -> [ts_packet] -> unit_stream.
//! Begin with `parse` and `Continuity::see`; `write_packet` writes what `parse` reads.
#![tactic(auto)]

mod continuity;
mod laws;
mod packet;

pub use continuity::{Continuity, Link};
pub use laws::{null_packet_is_read, written_packets_are_read};
pub use packet::{Packet, PacketFault, parse, write_header, write_null, write_packet};
