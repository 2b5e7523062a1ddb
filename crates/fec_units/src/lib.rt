//! MPE-FEC frames of a service's datagrams (EN 301 192 clause 9), as the units that carry them.
//!
//! Sending: datagrams of a service -> [fec_units] -> unit_stream -> ts_packet.
//! Begin with `burst_ends` where there is time slicing, otherwise with `unit_ends` and `frame_end`; and with `BurstBuffer`.
#![tactic(auto)]

mod burst_buffer;
mod burst_sections;
mod bursts;
mod columns;
mod frame_units;
mod frames;
mod packets;
mod unit_buffer;

pub use burst_buffer::BurstBuffer;
pub use bursts::burst_ends;
pub use frame_units::{FrameUnits, unit_ends};
pub use frames::frame_end;
