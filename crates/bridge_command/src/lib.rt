//! The command that bridges: a capture of Ethernet frames in, the transport packets or baseband frames that carry them out.
//!
//! Sending: Source -> pcap_file -> capture_intake -> ule_unit, unit_stream or gse_pack -> Sink, all of it in [bridge_command].
//! Begin with `bridge_in_sndus` and `bridge_in_pdus`; `tell_bridge_tally` writes the line that is printed at their end.
#![tactic(auto)]

mod command;
mod ends;
mod frames;
mod lines;
mod packets;
mod pieces;
mod sndus;
mod sorting;

pub use command::{bridge_in_pdus, bridge_in_sndus};
pub use ends::BridgeTally;
pub use lines::tell_bridge_tally;
