//! Commands over objects in memory: what is given -> [scenario_runs] -> what is left; SNDUs and packets by hand -> [scenario_runs] -> the
//! file that `ule` must write.
//!
//! Tests alone, most of them tables of text. Begin with `sndus_by_hand`, whose lines `sndu_lines` reads, and `send_tests`, whose lines
//! `run_lines` reads. `sndu_packing_tests` looks at packets that are sent: SNDUs -> [unit_stream] -> packets.
#![tactic(auto)]

#[cfg(test)]
mod check_tests;
#[cfg(test)]
mod receive_tests;
#[cfg(test)]
mod run_lines;
#[cfg(test)]
mod sample_tests;
#[cfg(test)]
mod send_tests;
#[cfg(test)]
mod sndu_lines;
#[cfg(test)]
mod sndu_packing_tests;
#[cfg(test)]
mod sndus_by_hand;
#[cfg(test)]
mod ule_tests;
