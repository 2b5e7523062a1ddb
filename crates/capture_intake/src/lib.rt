//! The one reading of a capture: record by record, to what takes them; and how a command ends that does so.
//!
//! Sending: Source -> pcap_file -> [capture_intake] -> the `CaptureTaker` of a command.
//! Begin with `read_capture`.
#![tactic(auto)]

mod ends;
mod faults;
mod reading;
mod taker;

pub use ends::{CaptureEnd, end_of};
pub use faults::{CaptureReadFault, PlacedFault};
pub use reading::read_capture;
pub use taker::CaptureTaker;
