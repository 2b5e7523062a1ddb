//! MPE-FEC frames, with time slicing and without: datagrams -> [scenario_runs] -> a stream, damaged on its way or made by hand ->
//! [scenario_runs] -> what comes of it.
//!
//! Tests alone. Begin with `cast`, which says what the columns of the tables are, and with `frame_losses` and `burst_losses`, the tables of
//! what happens on the way.
#![tactic(auto)]

#[cfg(test)]
mod burst_losses;
#[cfg(test)]
mod burst_sent;
#[cfg(test)]
mod burst_stamps;
#[cfg(test)]
mod burst_whole;
#[cfg(test)]
mod cast;
#[cfg(test)]
mod failing_calls;
#[cfg(test)]
mod failing_tests;
#[cfg(test)]
mod frame_end_faults;
#[cfg(test)]
mod frame_end_moves;
#[cfg(test)]
mod frame_losses;
#[cfg(test)]
mod frame_rows;
#[cfg(test)]
mod made_sections;
