//! What a recording delivers, record by record, service by service and version by version of the plan.
//!
//! Laws over definitions alone: each is a function that does nothing, whose contract is the law.
//! They stand on reception_spec, plan_law and reassembly_law; what receives stands on them.
//! Begin with `a_record_tells_datagrams_on_the_pid_in_force`.
#![tactic(auto)]

mod numbers;
mod pairs;
mod records;
mod spans;
mod told;
mod versions;

pub use numbers::{
    a_record_leaves_the_numbers_of_other_pids, all_datagrams_are_counted,
    counters_of_64_bits_hold_all_numbers, nothing_is_counted_of_nothing,
    numbers_go_on_where_a_service_moves, others_come_record_by_record,
    the_numbers_of_a_service_are_those_of_its_pids,
};
pub use pairs::{
    a_packet_gives_pairs_of_its_service, a_packet_of_the_int_gives_what_it_closes,
    pairs_come_record_by_record, the_pairs_of_a_service_are_its_datagrams,
};
pub use records::{
    a_service_without_frames_tells_what_its_units_give, another_pid_leaves_what_units_give,
    one_record_more_adds_datagrams, units_are_those_of_events,
};
pub use spans::{
    a_packet_is_of_one_service_or_the_int, a_service_has_each_pid_once,
    a_span_grows_record_by_record, a_span_to_come_is_blank,
};
pub use told::{
    a_record_tells_datagrams_on_the_pid_in_force, a_record_that_moves_a_service_closes_its_frame,
    other_records_tell_nothing, what_was_told_stays,
};
pub use versions::{
    other_packets_leave_the_version, the_first_version_is_in_force_at_first,
    the_shown_section_comes_section_by_section, the_version_in_force_never_falls,
};
