//! The reception of one service of GSE packets: its frames come in one after another, and its datagrams go out.
//!
//! Receiving: bb_frame -> gse_packet -> gse_reassembly -> ule_extension -> [gse_reception] -> Outlet.
//! Begin with `GseReception::take`.
#![tactic(auto)]

mod counts;
mod field;
mod handling;
mod laws;
mod packet;
mod reception;

pub use laws::{a_frame_of_another_isi_changes_nothing, what_frames_delivered_stays};
pub use reception::GseReception;
