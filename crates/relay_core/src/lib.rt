//! The datagrams that a recording delivers, of all services, offered under another plan in one order: up to the limits of a capture.
//!
//! Relaying: recording_reader, demux_core -> [relay_core] over datagram_routing -> mux_core, all of it in relay_command.
//! Begin with `Gather`, an outlet.
#![tactic(auto)]

mod gather;
mod laws;

pub use gather::{Gather, GatherFault, OuterPlan};
pub use laws::datagrams_are_offered_as_they_are;
