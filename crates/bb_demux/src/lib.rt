//! The receiver of a plan of baseband frames: frames in, the datagrams of all its services out to an outlet, and everything counted.
//!
//! Receiving: bb_frame -> gse_reception -> [bb_demux] -> outlet, loss_report.
//! Begin with `BbReceiver::open`, then `step_frame` for each frame, and `close`.
#![tactic(auto)]

mod frames;
mod receiver;
mod services;
mod taking;

pub use receiver::BbReceiver;
