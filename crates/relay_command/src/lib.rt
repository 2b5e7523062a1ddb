//! The command that relays: a recording in, the stream of all that it delivers out, under another plan.
//!
//! Relaying: Source -> recording_reader -> demux_core -> relay_core -> datagram_routing -> mux_core -> Sink, all of it in [relay_command].
//! Begin with `relay`.
#![tactic(auto)]

mod command;
mod ends;
mod gathering;

pub use command::relay;
pub use ends::RelayEnd;
