//! From the bytes of a capture, over those of its frames, to what a receiver delivers of bytes.
ghost use Rattle.std.specs.Prelude.{◌≡◌, ℕ, ◌<◌, List, length, filter};
ghost use Rattle.wire_spec.specs.Lists.{joined};
ghost use Rattle.plan_spec.specs.Plan.{PlanFields};
ghost use Rattle.plan_spec.specs.Offered.{offered_in_all};
ghost use Rattle.stream_law.specs.Captures.{given_by};
ghost use Rattle.bb_stream_spec.specs.Stream.{order_of};
ghost use Rattle.bb_reception_spec.specs.Delivered.{service_at};
ghost use Rattle.bb_loss_law.specs.Plans.{IsIsiOf};
ghost use Rattle.end_to_end_law.specs.BbSent.{IsSentInFrames, wants_in_frames};
ghost use Rattle.end_to_end_law.specs.BbDelivered.{DeliversNumbered};
ghost use Rattle.end_to_end_law.specs.BbBytes.{IsRecordingOfFramesFor, DeliversOfFrames};

use crate::bb_frames::{
    all_of_a_capture_arrives_where_no_frame_is_lost, what_arrives_of_a_capture_in_frames,
};
use bb_stream_law::a_baseband_stream_is_cut_into_its_frames;
use ts_record::cuts_are_unique;

/// What arrives of a capture, where the receiver reads bytes: those of a recording that came through a channel of frames.
pub fn what_arrives_of_the_bytes_of_frames()
    ensures arrives { (plan : PlanFields) (capture : List ℕ) (told frames : List (List ℕ)) → (sent : IsSentInFrames plan capture told frames)
        → (bytes : List ℕ) (delivered : ℕ → List (List ℕ)) → DeliversOfFrames plan bytes delivered
        → (k isi : ℕ) → IsIsiOf plan k isi → (recording : IsRecordingOfFramesFor plan k frames bytes)
        → DeliversNumbered recording.is_recorded.channel isi (service_at plan k) (order_of plan sent.stream.size k (offered_in_all plan (given_by capture told) k)) (delivered k) }
{
    what_arrives_of_a_capture_in_frames();
    cuts_are_unique();
}

/// Of the bytes of the frames, as they are sent, each service delivers all wanted datagrams that the capture offers to it, in the order of its
/// frames.
pub fn all_arrives_of_the_bytes_of_sent_frames()
    ensures wanted { (plan : PlanFields) (capture : List ℕ) (told frames : List (List ℕ)) → (sent : IsSentInFrames plan capture told frames)
        → (delivered : ℕ → List (List ℕ)) → DeliversOfFrames plan (joined frames) delivered → (k : ℕ) → k < length plan.services
        → delivered k ≡ filter (wants_in_frames (service_at plan k)) (order_of plan sent.stream.size k (offered_in_all plan (given_by capture told) k)) }
{
    all_of_a_capture_arrives_where_no_frame_is_lost();
    a_baseband_stream_is_cut_into_its_frames();
    cuts_are_unique();
}
