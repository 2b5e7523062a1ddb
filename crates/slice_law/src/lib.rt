//! What time slicing gives: bursts are timed as they are sent, and separated as they are received; under accepted settings each slot
//! has one owner, and bursts go out in their windows.
//!
//! Laws over definitions alone: each is a function that does nothing, whose contract is the law.
//! They stand on slice_spec and channel_spec, and on plan_spec and stream_spec; what sends MPE-FEC frames stands on them.
//! Begin with `bursts_are_timed` and `bursts_are_parted_as_received`, under settings with `a_slot_of_a_plan_has_one_owner`.
#![tactic(auto)]

mod bursts;
mod carried;
mod moments;
mod packets;
mod parts;
mod received;
mod slots;
mod windows;

pub use bursts::{
    bursts_are_timed, bursts_lie_in_windows, bursts_of_a_plan_are_timed,
    two_bursts_announce_their_times, windows_leave_gaps,
};
pub use carried::accepted_sections_are_parted_by_index;
pub use moments::{records_have_the_moments_of_their_slots, stamps_are_read_as_written};
pub use packets::{a_burst_of_one_datagram_fits, packets_of_sections_are_full};
pub use parts::{bursts_of_parts_are_those_of_the_whole, frames_of_parts_have_their_timing};
pub use received::{bursts_are_parted_as_received, frames_are_parted_by_index};
pub use slots::{bursts_go_out_in_their_windows, bursts_leave_slots};
pub use windows::{a_slot_has_one_owner, a_slot_of_a_plan_has_one_owner};
