//! What a recording of baseband frames delivers and what is counted of it, frame by frame and service by service.
//!
//! Laws over definitions alone: each is a function that does nothing, whose contract is the law.
//! They stand on bb_reception_spec and gse_law; what receives frames stands on them. Begin with `pairs_come_frame_by_frame`.
#![tactic(auto)]

mod numbers;
mod pairs;

pub use numbers::recordings_are_counted_frame_by_frame;
pub use pairs::{
    a_frame_gives_pairs_of_its_service, pairs_come_frame_by_frame,
    the_pairs_of_a_service_are_its_datagrams,
};
