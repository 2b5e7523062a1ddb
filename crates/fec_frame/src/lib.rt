//! The table of an MPE-FEC frame under way (EN 301 192 clause 9): sections are placed in it, and its rows corrected.
//!
//! Receiving: sections -> [fec_frame] -> rs_erasure -> frame_walk -> datagrams.
//! Begin with `Table`; a sender's `padding_of` stands here too.
#![tactic(auto)]

mod begin;
mod data;
mod fill;
mod finish;
mod left;
mod padding;
mod parity;
mod pattern;
mod place;
mod run;
mod solving;
mod starts;
mod table;

pub use padding::padding_of;
pub use place::TableAnswer;
pub use run::{is_start, next_start, run_end};
pub use solving::RowCounts;
pub use table::Table;
