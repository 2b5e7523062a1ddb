//! The reception of one recording of either carrier under a plan: all that it delivers, its end included, given to one outlet.
//!
//! Receiving: Source -> recording_reader -> demux_core -> [recording_reception] -> Outlet.
//! Begin with `Reception`.
#![tactic(auto)]

mod pieces;
mod reception;

pub use reception::Reception;
