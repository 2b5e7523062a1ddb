//! Rows of an MPE-FEC frame with unknown places, corrected (EN 301 192 clause 9).
//!
//! Receiving: sections -> fec_frame -> [rs_erasure] -> frame_walk -> datagrams.
//! Begin with `decode_row`; `decode_run` does many rows with the same unknown columns at once. For many short runs of a table, eliminate
//! once the columns that no run knows or wants (`find_run_syndromes`), and then decode run by run the wanted ones (`decode_run_with_syndromes`).
#![tactic(auto)]

mod columns;
mod correction;
mod elimination;
mod left;
mod marks;
mod powers;
mod row;
mod run;
mod syndromes;
mod table_syndromes;
mod weights;

pub use row::{RowAnswer, decode_row};
pub use run::{decode_run, decode_run_with_syndromes, find_run_syndromes};
