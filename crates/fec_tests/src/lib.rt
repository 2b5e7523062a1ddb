//! Tests of the crates of MPE-FEC frames and time slicing, over elements, rows, tables, sections and bursts by hand.
//!
//! Tests alone. They stand apart from the crates that they test, so that a change of a test proves none of them anew.
#![tactic(auto)]

#[cfg(test)]
mod burst_packets_tests;
#[cfg(test)]
mod fec_frame_tests;
#[cfg(test)]
mod frame_encoding;
#[cfg(test)]
mod frame_units_tests;
#[cfg(test)]
mod frame_walk_tests;
#[cfg(test)]
mod gf256_tests;
#[cfg(test)]
mod lines;
#[cfg(test)]
mod outside_parity;
#[cfg(test)]
mod rs_encode_tests;
#[cfg(test)]
mod rs_erasure_tests;
#[cfg(test)]
mod sendable;
#[cfg(test)]
mod tables;
#[cfg(test)]
mod time_slice_tests;
