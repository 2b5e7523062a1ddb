//! From a capture to what each service delivers of it, through a channel of baseband frames.
ghost use Rattle.std.specs.Prelude.{◌≡◌, ℕ, ◌<◌, List, length, filter};
ghost use Rattle.plan_spec.specs.Plan.{PlanFields};
ghost use Rattle.plan_spec.specs.Offered.{offered_in_all};
ghost use Rattle.stream_law.specs.Captures.{given_by};
ghost use Rattle.bb_stream_spec.specs.Stream.{order_of};
ghost use Rattle.bb_reception_spec.specs.Delivered.{service_at, delivered_of};
ghost use Rattle.bb_loss_law.specs.Plans.{IsIsiOf, IsRecordedInFramesFor, AllArrivedIntact};
ghost use Rattle.end_to_end_law.specs.BbSent.{IsSentInFrames, wants_in_frames};
ghost use Rattle.end_to_end_law.specs.BbDelivered.{DeliversNumbered};

use crate::bb_datagrams::each_datagram_is_sent_in_a_pdu;
use crate::bb_settings::each_capture_is_sent_in_frames;
use bb_loss_law::{
    each_gse_service_delivers_what_arrived_intact, where_all_arrived_intact_all_is_delivered,
    where_no_frame_is_lost_all_is_delivered,
};
use bb_stream_law::a_baseband_stream_carries_what_was_offered;
use gse_law::{offered_datagrams_are_carried, the_pdus_say_what_is_delivered};
use stream_law::a_capture_gives_datagrams;

/// However frames of the stream of a capture are dropped, and refused frames and those of other ISIs inserted, none of its ISI repeated, if no fragments of a service are reassembled to a PDU that was not sent:
/// the service delivers wanted datagrams that were offered to it, unchanged, in the order of its frames and each once, with each whose frames
/// all arrived. That order is the capture's for a service without urgent rules; for another it keeps each class in order.
pub fn what_arrives_of_a_capture_in_frames()
    ensures arrives { (plan : PlanFields) (capture : List ℕ) (told frames : List (List ℕ)) → (sent : IsSentInFrames plan capture told frames)
        → (k isi : ℕ) → IsIsiOf plan k isi → (recorded : List (List ℕ)) (is_recorded : IsRecordedInFramesFor plan k frames recorded)
        → DeliversNumbered is_recorded.channel isi (service_at plan k) (order_of plan sent.stream.size k (offered_in_all plan (given_by capture told) k)) (delivered_of plan k recorded) }
{
    a_baseband_stream_carries_what_was_offered();
    each_datagram_is_sent_in_a_pdu();
    each_capture_is_sent_in_frames();
    a_capture_gives_datagrams();
    offered_datagrams_are_carried();
    the_pdus_say_what_is_delivered();
    each_gse_service_delivers_what_arrived_intact();
}

/// Where each PDU of a service arrived intact, whatever else became of the frames, it delivers all wanted datagrams that were offered to it, in
/// the order of its frames and each once.
pub fn all_of_a_capture_arrives_where_all_arrived_intact()
    ensures wanted { (plan : PlanFields) (capture : List ℕ) (told frames : List (List ℕ)) → (sent : IsSentInFrames plan capture told frames)
        → (k : ℕ) → k < length plan.services → (recorded : List (List ℕ)) (is_recorded : IsRecordedInFramesFor plan k frames recorded)
        → AllArrivedIntact plan k frames recorded is_recorded.channel → delivered_of plan k recorded
        ≡ filter (wants_in_frames (service_at plan k)) (order_of plan sent.stream.size k (offered_in_all plan (given_by capture told) k)) }
{
    a_baseband_stream_carries_what_was_offered();
    each_datagram_is_sent_in_a_pdu();
    each_capture_is_sent_in_frames();
    a_capture_gives_datagrams();
    offered_datagrams_are_carried();
    the_pdus_say_what_is_delivered();
    where_all_arrived_intact_all_is_delivered();
}

/// Of frames that were recorded as they were sent each service delivers all wanted datagrams that were offered to it, in the order of
/// its frames and each once.
pub fn all_of_a_capture_arrives_where_no_frame_is_lost()
    ensures wanted { (plan : PlanFields) (capture : List ℕ) (told frames : List (List ℕ)) → (sent : IsSentInFrames plan capture told frames)
        → (k : ℕ) → k < length plan.services → delivered_of plan k frames
        ≡ filter (wants_in_frames (service_at plan k)) (order_of plan sent.stream.size k (offered_in_all plan (given_by capture told) k)) }
{
    a_baseband_stream_carries_what_was_offered();
    each_datagram_is_sent_in_a_pdu();
    each_capture_is_sent_in_frames();
    a_capture_gives_datagrams();
    offered_datagrams_are_carried();
    the_pdus_say_what_is_delivered();
    where_no_frame_is_lost_all_is_delivered();
}
