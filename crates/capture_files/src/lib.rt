//! The files of a reception: added to a rack with their heads, written as an outlet, flushed; and why a reception was not done.
//!
//! Receiving: recording_reception -> [capture_files] -> pcap_file -> Rack.
//! Begin with `RackOutlet`.
#![tactic(auto)]

mod faults;
mod files;
mod outlet;
mod records;

pub use faults::ReceiveFault;
pub use files::{add_file, add_files, flush_files};
pub use outlet::{Began, Progress, RackOutlet};
