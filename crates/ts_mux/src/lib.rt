//! The sender's stream in transport packets: those of all services and of the INT, slot by slot.
//!
//! Sending: capture -> pcap_file -> datagram_routing -> [ts_mux] -> Sink.
//! Begin with `stream_packets`.
#![tactic(auto)]

mod int_packets;
mod part_units;
mod plan_int;
mod records;
mod sending;
mod service_packets;
mod service_units;
mod services;
mod slots;
mod stamps;
mod unit_bytes;
mod units;

pub use datagram_routing::MuxFault;
pub use plan_int::int_section;
pub use sending::{count_datagrams, stream_packets};
