//! Records of a recording, read one by one: transport packets with their arrival times.
//!
//! Receiving: Source -> [ts_record] -> ts_packet -> unit_stream.
//! Begin with `RecordReader::new` and `next`; a loop begins with `lend_record`.
#![tactic(auto)]

mod laws;
mod lending;
mod moments;
mod pieces;
mod reader;

pub use ipe_io::RecordFault;
pub use laws::cuts_are_unique;
pub use lending::{LentRecord, lend_record};
pub use reader::{Record, RecordReader};
