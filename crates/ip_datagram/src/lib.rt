//! IP datagrams at the front of bytes (RFC 791 section 3.1, RFC 8200 section 3), and lists of them.
//!
//! Sending: capture -> [ip_datagram] -> route -> units. Receiving: units -> [ip_datagram] -> capture.
//! Begin with `front`, which answers the length of the datagram that bytes begin with.
#![tactic(auto)]

mod address;
mod header;
mod hint;
mod laws;
mod list;
mod types;

pub use address::{IpAddress, destination};
pub use header::{IpFault, front};
pub use hint::{Hint, length_hint};
pub use laws::{a_front_is_one_datagram, hints_agree_with_fronts};
pub use list::DatagramList;
pub use types::{ETHER_TYPE_IPV4, ETHER_TYPE_IPV6, ether_type};
