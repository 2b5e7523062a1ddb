//! Tests of what an operator gives: words and settings by hand -> [command_words, service_plan, settings_load] -> commands, plans and
//! faults.
//!
//! Tests alone. They stand apart from the crates that they test, so that a change of a test proves none of them anew.
#![tactic(auto)]

#[cfg(test)]
mod command_words_tests;
#[cfg(test)]
mod service_plan_tests;
#[cfg(test)]
mod settings_load_tests;
