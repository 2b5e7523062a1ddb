//! What the sender's stream carries: the datagrams that were offered.
//!
//! Laws over definitions alone: each is a function that does nothing, whose contract is the law.
//! They stand on stream_spec; what sends stands on them. Begin with `a_capture_is_carried`.
#![tactic(auto)]

mod appended;
mod captures;
mod carried;
mod slots;
mod standing;
mod stream;
mod table;
mod times;

pub use appended::packetizations_go_on;
pub use captures::{
    a_capture_gives_datagrams, a_capture_is_carried, a_capture_of_bytes_has_records_of_bytes,
};
pub use carried::{a_stream_carries_what_was_offered, the_pids_of_a_service_have_all_datagrams};
pub use slots::{
    a_part_ends_where_all_packets_are_out, a_part_sends_all_packets,
    a_transmission_ends_where_all_packets_are_out, offered_bursts_fit_their_windows,
    packets_go_out_in_order_and_each_once, there_is_one_slot_count,
    without_time_slicing_services_go_by_turns,
};
pub use standing::a_stream_stands_in_parts;
pub use stream::{
    a_stream_is_cut_into_its_records, records_have_moments,
    the_packets_of_a_service_are_on_its_pid, there_is_one_stream,
    without_changes_a_stream_has_one_part,
};
pub use table::{
    a_cycle_carries_the_table, a_stream_carries_the_table, a_table_goes_out_in_each_cycle,
    the_table_of_a_plan_can_be_written, the_table_reads_back_to_the_rules,
};
pub use times::frames_that_move_are_timed_together;
