//! The command `find PID`: a plain recording in, a line for each rule of the INT on the PID out.
//!
//! Receiving: Source -> recording_reader -> psi_tables -> [find_command] -> Sink.
//! Begin with `find`.
#![tactic(auto)]

mod fault;
mod finding;

pub use fault::FindFault;
pub use finding::find;
