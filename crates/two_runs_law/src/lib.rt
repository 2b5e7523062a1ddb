//! Two runs with the same settings, and three with a relay between: what the files of the last have of the capture that the first was given.
//!
//! Laws over what `run` promises: each is a function that does nothing, whose contract is the law. Begin with
//! `what_arrives_of_a_send`; what is said of its datagrams stands in `what_is_delivered_of_sent_bytes`.
#![tactic(auto)]

mod bridged;
mod relay;
mod runs;
mod sent;

pub use bridged::{what_a_bridge_puts_out, what_arrives_of_a_bridge};
pub use relay::{what_a_relay_puts_out, what_arrives_over_a_relay};
pub use runs::{
    what_a_receive_adds, what_a_send_puts_out, what_arrives_of_a_send, what_arrives_of_sent_bytes,
};
pub use sent::what_is_delivered_of_sent_bytes;
