//! The encoder of MPE-FEC: 64 parity bytes for each row of 191 data bytes (EN 301 192 clause 9).
//!
//! Sending: data table -> [rs_encode] -> parity sections.
//! Begin with `encode_row` for one row, and with `Columns` for a whole frame.
#![tactic(auto)]

mod columns;
mod generator;
mod row;

pub use columns::Columns;
pub use row::encode_row;
