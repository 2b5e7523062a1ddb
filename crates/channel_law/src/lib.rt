//! What arrives of the units of one PID through a channel that drops, repeats and damages records, and inserts those of others.
//!
//! Laws over definitions alone: each is a function that does nothing, whose contract is the law.
//! They stand on wire_spec, ts_spec and channel_spec; what delivers units and datagrams stands on them.
//! Begin with `accepted_units_are_numbered` and `delivered_datagrams_are_numbered`.
#![tactic(auto)]

mod arrives;
mod channels;
mod restated;

pub use arrives::{
    accepted_units_are_numbered, accepted_units_were_sent, delivered_datagrams_are_numbered,
    delivered_datagrams_were_sent, intact_datagrams_are_delivered, intact_units_are_accepted,
    intact_units_are_among_the_accepted, sndus_are_a_lawful_kind_of_unit,
};
pub use channels::{
    a_pid_is_received_by_itself, a_recording_is_a_span_of_itself, a_recording_may_begin_late,
    a_small_recording_gives_what_is_left, a_stream_without_loss_is_accepted,
    accepted_units_have_their_moments, m2ts_records_have_their_stamps,
    received_packets_of_a_span_are_no_copies, records_of_others_may_be_inserted,
};
pub use restated::{
    a_channel_is_a_fate_for_each_record, bytes_are_ended_by_a_packet, outcomes_are_told_by_a_front,
    received_packets_differ_from_the_last_received,
};
