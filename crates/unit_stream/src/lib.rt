//! Units in transport packets: packetization and reassembly (ISO/IEC 13818-1 clause 2.4.4, RFC 4326 sections 6 and 7).
//!
//! Sending: ule_unit -> [unit_stream] -> ts_packet.
//! Receiving: ts_packet -> [unit_stream] -> ule_unit.
//! Begin with `Packer::next`, and with `Joiner::take`.
#![tactic(auto)]

mod form;
mod joiner;
mod joining;
mod laws;
mod listening;
mod packer;
mod reading;

pub use form::{Span, UnitForm};
pub use joiner::Joiner;
pub use laws::packetized_units_are_carried;
pub use listening::Listener;
pub use packer::{Packer, Room, count_packets};
pub use reading::JoinEvent;
