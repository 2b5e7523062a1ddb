//! Two classes of datagrams in one GSE service: urgent ones do not wait for the rest of a long one that has just begun.
//!
//! Sending: datagram -> [gse_classes] -> Sink. It stands on gse_pack, whose `Packer` makes the frames of both classes one after another.
//! Begin with `is_urgent` and `pack_classes`.
#![tactic(auto)]

mod service;

pub use gse_pack::is_urgent;
pub use service::pack_classes;
