//! What holds of the sender's stream, whichever carrier the plan has.
//!
//! Laws over definitions alone: each is a function that does nothing, whose contract is the law.
//! They stand on stream_law and bb_stream_law; what sends stands on them. Begin with `there_is_one_sent_stream`.
#![tactic(auto)]

mod plans;
mod streams;

pub use plans::a_plan_of_transport_packets_has_pids;
pub use streams::{a_sent_stream_is_cut_into_its_pieces, there_is_one_sent_stream};
