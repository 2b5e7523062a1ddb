//! The sender's stream, by the carrier of the plan: transport packets, or baseband frames.
//!
//! Sending: capture -> pcap_file -> datagram_routing -> ts_mux, bb_mux, one of them by [mux_core] -> Sink.
//! Begin with `stream`.
#![tactic(auto)]

mod carriers;

pub use carriers::stream;
pub use datagram_routing::{Lists, MuxFault, Offered, Sent};
