//! GSE over baseband frames: datagrams -> [scenario_runs] -> frames, lost, damaged or made by hand -> what comes of them.
//!
//! Tests alone. Begin with `long` and `rotation`, which show what goes out, and `losses`, the table of what comes of it.
#![tactic(auto)]

#[cfg(test)]
mod chains;
#[cfg(test)]
mod classes;
#[cfg(test)]
mod fragments;
#[cfg(test)]
mod frames;
#[cfg(test)]
mod harmed;
#[cfg(test)]
mod long;
#[cfg(test)]
mod losses;
#[cfg(test)]
mod made;
#[cfg(test)]
mod packets;
#[cfg(test)]
mod report;
#[cfg(test)]
mod rotation;
