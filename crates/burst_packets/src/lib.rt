//! The bursts of a sliced service (EN 301 192 clause 9), on their way into the packets of its PID.
//!
//! Sending: datagrams of a service -> fec_units -> [burst_packets] -> ts_mux.
//! Begin with `BurstPackets::new`.
#![tactic(auto)]

mod bursts;
mod frame_bytes;
mod frames;
mod timing;

pub use bursts::{BurstPackets, Shape};
pub use frames::FramePackets;
pub use timing::Timing;
