//! What is sent, damaged on its way, and received: datagrams and settings -> [scenario_runs] -> a stream -> [scenario_runs] -> what comes
//! of it.
//!
//! Tests alone. Begin with `pair` and `change_plans`, which say what is sent; `pair_losses`, `change_moves`, `change_losses`,
//! `undetected_errors` and `hostile_cases` are the tables of what happens to it, and `received` says how they are read.
#![tactic(auto)]

#[cfg(test)]
mod change_losses;
#[cfg(test)]
mod change_moves;
#[cfg(test)]
mod change_plans;
#[cfg(test)]
mod change_settings_tests;
#[cfg(test)]
mod change_stream_tests;
#[cfg(test)]
mod datagrams;
#[cfg(test)]
mod harmed;
#[cfg(test)]
mod hostile_cases;
#[cfg(test)]
mod hostile_received;
#[cfg(test)]
mod pair;
#[cfg(test)]
mod pair_fault_tests;
#[cfg(test)]
mod pair_losses;
#[cfg(test)]
mod received;
#[cfg(test)]
mod settings_words;
#[cfg(test)]
mod undetected_errors;
