//! Two classes of a GSE service in the stream: an urgent datagram begins before each ordinary one after it, and ordinary rests wait for it.
//!
//! Laws over definitions alone: each is a function that does nothing, whose contract is the law.
//! They stand on bb_stream_law and gse_law. Begin with `ordinary_datagrams_yield_to_urgent_ones`.
#![tactic(auto)]

mod classes;
mod examples;

pub use classes::{datagrams_of_a_stream_begin_in_order, ordinary_datagrams_yield_to_urgent_ones};
pub use examples::{other_orders_do_not_yield, small_frames_yield};
