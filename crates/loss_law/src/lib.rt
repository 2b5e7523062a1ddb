//! What becomes of the datagrams of a service, and of all services of a plan, through a channel that loses records: in SNDUs, in
//! datagram_sections, and in MPE-FEC frames (EN 301 192 clause 9).
//!
//! Laws over definitions alone: each is a function that does nothing, whose contract is the law.
//! They stand on reception_spec, stream_spec and channel_law; end_to_end_law and recording_law stand on them.
//! Begin with `each_service_delivers_over_its_spans`.
#![tactic(auto)]

mod isolation;
mod loss;
mod spans;
mod versions;
mod without_loss;

pub use isolation::{
    a_pid_is_counted_by_itself, a_service_is_received_by_itself,
    a_service_is_received_by_itself_over_its_spans, other_records_change_nothing,
};
pub use loss::{
    a_service_delivers_what_arrived_intact, a_service_without_filter_wants_all,
    datagrams_of_sections_that_arrived_intact_are_delivered,
    datagrams_that_arrived_intact_are_delivered, sections_are_a_lawful_kind_of_unit,
    where_stamps_survive_sections_have_their_moments,
};
pub use spans::{
    a_channel_is_one_for_fewer_pids, a_recording_for_all_is_one_for_each,
    a_span_grows_with_its_recording, a_span_is_of_its_recording, a_stream_carries_for_each_service,
    each_service_delivers_over_its_spans, without_changes_a_span_is_the_recording,
};
pub use versions::a_version_is_in_force_only_from_its_part_on;
pub use without_loss::{
    a_recorded_stream_gives_its_units, where_all_units_arrived_intact_all_is_delivered,
    where_each_packet_is_heard_all_is_delivered, where_nothing_is_lost_all_is_delivered,
};
