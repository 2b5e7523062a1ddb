//! Ethernet frames out of a recording: bridged in SNDUs on a PID, or in GSE packets on an ISI (RFC 4326 section 5.2).
//!
//! Receiving: ts_packet -> unit_stream -> ule_unit, or bb_frame -> gse_packet -> gse_reassembly; then ule_extension -> [bridge_frame] -> Outlet.
//! Begin with `Bridge`.
#![tactic(auto)]

mod bridge;
mod handing;
mod laws;
mod pdus;
mod sndus;
mod taking;

pub use bridge::Bridge;
pub use laws::{pieces_give_the_frames_of_their_records, what_was_received_stays};
