//! What is delivered of bytes that came from those of a stream.
ghost use Rattle.std.specs.Prelude.{ℕ, List};
ghost use Rattle.plan_spec.specs.Plan.{PlanFields};
ghost use Rattle.end_to_end_law.specs.Bytes.{DeliversOfBytes};
ghost use Rattle.end_to_end_law.specs.BbBytes.{DeliversOfFrames};
ghost use Rattle.two_runs_law.specs.Sent.{AreSentBytes, DeliversSent, AreSentBytesOfFrames, DeliversSentInFrames};

use bb_stream_law::a_baseband_stream_is_cut_into_its_frames;
use end_to_end_law::{
    all_arrives_of_the_bytes_of_a_stream, all_arrives_of_the_bytes_of_sent_frames,
    all_of_a_capture_arrives_where_no_frame_is_lost,
    all_of_a_capture_arrives_where_nothing_is_lost, what_arrives_of_bytes,
    what_arrives_of_the_bytes_of_frames, where_nothing_is_lost_each_packet_is_heard,
};
use intact_law::{
    datagrams_of_intact_pdus_are_delivered, datagrams_of_intact_units_are_delivered,
    where_all_pdus_arrived_intact_none_is_missing, where_all_units_arrived_intact_none_is_missing,
};
use loss_law::where_each_packet_is_heard_all_is_delivered;
use stream_law::a_stream_is_cut_into_its_records;
use ts_record::cuts_are_unique;

/// Of a recording of what was sent of a capture, each service delivers what the loss law and the law on intact units say of the capture's
/// datagrams, whatever became of the records or frames on their way; and of the very bytes that were sent all that is offered and wanted.
pub fn what_is_delivered_of_sent_bytes()
    ensures packets { (plan : PlanFields) (capture : List ℕ) (told : List (List ℕ)) (bytes : List ℕ) (is : AreSentBytes plan capture told bytes)
        → (recording : List ℕ) (delivered : ℕ → List (List ℕ)) → DeliversOfBytes plan recording delivered
        → DeliversSent plan capture told bytes is recording delivered }
    ensures frames { (plan : PlanFields) (capture : List ℕ) (told : List (List ℕ)) (bytes : List ℕ) (is : AreSentBytesOfFrames plan capture told bytes)
        → (recording : List ℕ) (delivered : ℕ → List (List ℕ)) → DeliversOfFrames plan recording delivered
        → DeliversSentInFrames plan capture told bytes is recording delivered }
{
    a_stream_is_cut_into_its_records();
    what_arrives_of_bytes();
    datagrams_of_intact_units_are_delivered();
    where_all_units_arrived_intact_none_is_missing();
    where_nothing_is_lost_each_packet_is_heard();
    where_each_packet_is_heard_all_is_delivered();
    all_of_a_capture_arrives_where_nothing_is_lost();
    all_arrives_of_the_bytes_of_a_stream();
    a_baseband_stream_is_cut_into_its_frames();
    what_arrives_of_the_bytes_of_frames();
    datagrams_of_intact_pdus_are_delivered();
    where_all_pdus_arrived_intact_none_is_missing();
    all_of_a_capture_arrives_where_no_frame_is_lost();
    all_arrives_of_the_bytes_of_sent_frames();
    cuts_are_unique();
}
