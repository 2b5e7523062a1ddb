//! Datagrams found in the table of an MPE-FEC frame (EN 301 192 clause 9).
//!
//! Receiving: sections -> fec_frame -> rs_erasure -> [frame_walk] -> datagrams.
//! Begin with `Walk`.
#![tactic(auto)]

mod walk;

pub use walk::Walk;
