//! Baseband frames of generic continuous streams (EN 302 307-1 clause 5.1.6): read and written.
//!
//! Sending: GSE packets -> gse_pack -> [bb_frame] -> Sink.
//! Receiving: Source -> [bb_frame] -> gse_packet -> gse_reassembly.
//! Begin with `FrameReader` and `parse`, a loop with `lend_frame`; or with `write` and `seal`.
#![tactic(auto)]

mod frame;
mod reader;

pub use frame::{Frame, FrameFault, parse, seal, write};
pub use ipe_io::RecordFault;
pub use reader::{FrameReader, lend_frame};
