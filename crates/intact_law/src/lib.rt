//! What is delivered whatever errors go undetected: the datagrams of units and PDUs that arrived intact, and of accepted datagram_sections of
//! MPE-FEC frames.
//!
//! Laws over definitions alone: each is a function that does nothing, whose contract is the law.
//! They stand on loss_law and bb_loss_law. Begin with `datagrams_of_intact_units_are_delivered`.
#![tactic(auto)]

mod examples;
mod services;
mod units;

pub use examples::a_small_recording_gives_what_arrived_intact;
pub use services::{
    datagrams_of_intact_pdus_are_delivered, datagrams_of_intact_units_are_delivered,
    where_all_pdus_arrived_intact_none_is_missing, where_all_units_arrived_intact_none_is_missing,
};
pub use units::{
    accepted_datagram_sections_are_delivered, intact_pdus_are_delivered_in_order,
    intact_units_are_accepted_in_order,
};
