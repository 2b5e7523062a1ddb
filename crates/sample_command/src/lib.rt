//! The command `sample`: datagrams by draws are sent, a part of the stream is lost by draws, the rest is received, all in memory; the summary out.
//!
//! Both ways: sample_draws -> ts_mux -> stream with losses -> demux_core -> summary -> Sink, all of it in [sample_command].
//! Begin with `sample`.
#![tactic(auto)]

mod command;
mod held;
mod laws;
mod losses;
mod outlet;
mod records;
mod summary;

pub use command::sample;
pub use laws::a_sample_has_one_summary;
pub use ts_mux::MuxFault;
