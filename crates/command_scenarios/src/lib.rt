//! Commands beside `send` and `receive`: settings, captures and recordings -> [scenario_runs] -> the packets of `tables`, the text of
//! `find`, the stream of `bridge`, the file of `unbridge`, the stream of `relay`.
//!
//! Tests alone. Begin with `runs`, and then with `find_tests`, `bridge_tests` and `relay_hop_tests`.
#![tactic(auto)]

#[cfg(test)]
mod bridge_tests;
#[cfg(test)]
mod discovery_sections;
#[cfg(test)]
mod failing_tests;
#[cfg(test)]
mod find_tests;
#[cfg(test)]
mod outcomes;
#[cfg(test)]
mod refused_tests;
#[cfg(test)]
mod relay_hop_tests;
#[cfg(test)]
mod relay_order_tests;
#[cfg(test)]
mod runs;
#[cfg(test)]
mod settings;
#[cfg(test)]
mod tables_tests;
#[cfg(test)]
mod words;
