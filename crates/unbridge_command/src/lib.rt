//! The command `unbridge`: a recording in, the Ethernet frames of one PID or ISI out, as a capture.
//!
//! Receiving: Source -> recording_reader -> bridge_frame -> [unbridge_command] -> capture_files -> Rack.
//! Begin with `unbridge_sndus` and `unbridge_pdus`.
#![tactic(auto)]

mod laws;
mod unbridging;
mod writing;

pub use laws::{a_bridge_file_is_a_prefix, more_pieces_give_more_frames};
pub use unbridging::{unbridge_pdus, unbridge_sndus};
