//! Tests of what sends: captures, recordings, numbers and plans by hand -> [datagram_routing, mux_core, send_command, sample_draws,
//! sample_command, relay_core, relay_command] -> streams packet by packet, summaries and faults.
//!
//! Tests alone. They stand apart from the crates that they test, which know nothing of settings.
#![tactic(auto)]

#[cfg(test)]
mod relay_gather_tests;
#[cfg(test)]
mod relay_tests;
#[cfg(test)]
mod routing_tests;
#[cfg(test)]
mod sample_command_tests;
#[cfg(test)]
mod sample_draws_tests;
#[cfg(test)]
mod send_tests;
#[cfg(test)]
mod stream_tests;
#[cfg(test)]
mod words;
