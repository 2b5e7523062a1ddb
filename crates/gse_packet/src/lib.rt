//! GSE packets (TS 102 606-1 clause 4.2): read out of a data field one after another, and written.
//!
//! Sending: PDU -> gse_pack -> [gse_packet] -> bb_frame. Receiving: bb_frame -> [gse_packet] -> gse_reassembly.
//! Begin with `GseReader`, or with `write_complete`.
#![tactic(auto)]

mod fields;
mod label;
mod packet;
mod reader;
mod sums;
mod written;

pub use packet::{Gse, GseFault};
pub use reader::GseReader;
pub use sums::check_sum;
pub use written::{write_complete, write_end, write_middle, write_start};
