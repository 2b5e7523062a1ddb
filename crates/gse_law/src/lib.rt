//! What becomes of the PDUs and datagrams of GSE through a channel of baseband frames, and what the sender's frames carry.
//!
//! Laws over definitions alone: each is a function that does nothing, whose contract is the law.
//! They stand on gse_spec; what reassembles fragments, what receives and what sends stand on them.
//! Begin with `a_gse_service_delivers_what_arrived_intact` and `the_frames_of_services_carry_their_datagrams`.
#![tactic(auto)]

mod loss;
mod reassembly;
mod sending;

pub use loss::{
    a_gse_service_delivers_what_arrived_intact, a_service_without_filter_wants_all,
    a_stream_is_a_recording_of_itself, an_input_stream_is_carried_by_itself,
    an_input_stream_is_counted_by_itself, an_input_stream_is_received_by_itself,
    datagrams_that_arrived_intact_are_delivered, intact_pdus_are_received,
    received_pdus_are_numbered, received_pdus_were_sent,
    where_all_pdus_arrived_intact_all_is_delivered,
};
pub use reassembly::{
    each_pdu_is_counted_once, fragments_are_reassembled_exactly,
    fragments_are_those_after_the_latest_start, frames_are_those_of_the_records, one_frame_more,
    one_packet_more, packets_are_read_one_by_one, pdu_events_are_the_received_pdus,
    places_are_those_of_the_fragments, the_pdus_say_what_is_delivered,
};
pub use sending::{
    chosen_frames_can_be_written, each_class_keeps_its_order, frames_are_packed_packet_by_packet,
    frames_are_sent_in_rotation, offered_datagrams_are_carried, offered_datagrams_can_be_sent,
    packed_frames_can_be_written, packed_frames_carry_the_datagrams, packed_frames_give_the_pdus,
    packed_pdus_are_reassembled, pdus_begin_in_order, sent_frames_are_the_pieces_of_their_bytes,
    the_frames_of_services_carry_their_datagrams, written_frames_are_read,
    written_frames_carry_their_pdus, written_frames_give_their_packets, written_packets_are_read,
};
