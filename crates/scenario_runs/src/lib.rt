//! What a run is given -> [ipencap_engine] -> what it leaves, compared with what it must leave.
//!
//! For the tests of whole runs alone, which have `Status` from here. Begin with `expect`.
#![tactic(auto)]

mod runs;

pub use ipencap_engine::Status;
pub use runs::{Ended, expect, ran, sent};
