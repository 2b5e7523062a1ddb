//! The command that sends: a capture in, the stream of what a plan's services take of it out.
//!
//! Sending: Source -> capture_intake -> datagram_routing -> mux_core -> Sink, all of it in [send_command].
//! Begin with `send`; `tell_tally` and `tell_fault` write the line that is printed at its end. `send_offered` is the part after the capture.
#![tactic(auto)]

mod command;
mod ends;
mod laws;
mod lines;
mod offered;
mod taker;

pub use command::send;
pub use ends::Tally;
pub use laws::a_capture_is_sent_in_one_way;
pub use lines::{tell_fault, tell_tally};
pub use mux_core::MuxFault;
pub use offered::send_offered;
