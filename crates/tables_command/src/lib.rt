//! The command `tables SETTINGS`: a plan in, a plain recording of the tables that name its services out.
//!
//! Sending: plan -> [tables_command] -> psi_tables and ts_mux -> unit_stream -> ts_packet -> Sink.
//! Begin with `write_tables`.
#![tactic(auto)]

mod numbers;
mod packets;
mod pids;
mod programs;
mod recording;
mod writing;

pub use writing::{TablesFault, write_tables};
