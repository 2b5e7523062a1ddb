//! The draws of a sample, and its datagrams, each in the list of the service that takes it.
//!
//! Sample: [sample_draws] -> ts_mux -> sample_command.
//! Begin with `Draws::new` and `offer_sample`.
#![tactic(auto)]

mod datagrams;
mod draws;
mod laws;
mod offer;

pub use draws::Draws;
pub use laws::a_sample_offers_datagrams;
pub use offer::offer_sample;
