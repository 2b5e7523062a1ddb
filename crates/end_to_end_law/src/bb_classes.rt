//! Classes: what arrives of the urgent datagrams of a service, and of the ordinary ones.
ghost use Rattle.std.specs.Prelude.{◌≡◌, ℕ, ◌<◌, List, [], length, filter, flat_map, Contains};
ghost use Rattle.wire_spec.specs.Lists.{IsSubsequence};
ghost use Rattle.channel_spec.specs.Carried.{IsRising};
ghost use Rattle.plan_spec.specs.Plan.{PlanFields};
ghost use Rattle.plan_spec.specs.Offered.{offered_in_all};
ghost use Rattle.stream_law.specs.Captures.{given_by};
ghost use Rattle.gse_spec.specs.Classes.{Class, datagrams_of_class};
ghost use Rattle.gse_spec.specs.Received.{carried_by_pdu, received_pdus, delivered_by_pdu};
ghost use Rattle.gse_spec.specs.Carried.{ArrivedIntact, sent_pdu};
ghost use Rattle.bb_stream_spec.specs.Stream.{order_of};
ghost use Rattle.bb_reception_spec.specs.Delivered.{service_at, delivered_of};
ghost use Rattle.bb_loss_law.specs.Plans.{IsIsiOf, IsRecordedInFramesFor};
ghost use Rattle.end_to_end_law.specs.BbSent.{IsSentInFrames, wants_in_frames};

use crate::bb_frames::what_arrives_of_a_capture_in_frames;
use crate::bb_settings::each_capture_is_sent_in_frames;
use bb_loss_law::intact_datagrams_of_gse_services_are_delivered;
use bb_stream_law::a_baseband_stream_carries_what_was_offered;

/// Under the premises of `what_arrives_of_a_capture_in_frames`, what a service delivers of a class of its datagrams is a subsequence of the
/// wanted ones of that class, as they were offered, with each whose frames all arrived. The order in which the frames carry them keeps each
/// class; without urgent rules it is the order in which they were offered.
pub fn each_class_of_a_capture_arrives_in_order()
    ensures arrives { (plan : PlanFields) (capture : List ℕ) (told frames : List (List ℕ)) → IsSentInFrames plan capture told frames
        → (k isi : ℕ) → IsIsiOf plan k isi → (recorded : List (List ℕ)) → IsRecordedInFramesFor plan k frames recorded → (class : Class)
        → IsSubsequence (datagrams_of_class (service_at plan k).urgent class (delivered_of plan k recorded))
        (filter (wants_in_frames (service_at plan k)) (datagrams_of_class (service_at plan k).urgent class (offered_in_all plan (given_by capture told) k))) }
    ensures intact { (plan : PlanFields) (k : ℕ) (sent recorded : List (List ℕ)) (is_recorded : IsRecordedInFramesFor plan k sent recorded) (isi : ℕ)
        → IsIsiOf plan k isi → (intact : List ℕ) → IsRising 0 intact
        → ((n : ℕ) → Contains intact n → (n < length (received_pdus isi sent)) × ArrivedIntact is_recorded.channel isi n) → (class : Class)
        → IsSubsequence (datagrams_of_class (service_at plan k).urgent class (flat_map (λ n. delivered_by_pdu carried_by_pdu (service_at plan k).filter (sent_pdu isi sent n)) intact))
        (datagrams_of_class (service_at plan k).urgent class (delivered_of plan k recorded)) }
    ensures keeps { (plan : PlanFields) (capture : List ℕ) (told frames : List (List ℕ)) → (sent : IsSentInFrames plan capture told frames)
        → (k : ℕ) → k < length plan.services → (class : Class)
        → datagrams_of_class (service_at plan k).urgent class (order_of plan sent.stream.size k (offered_in_all plan (given_by capture told) k))
        ≡ datagrams_of_class (service_at plan k).urgent class (offered_in_all plan (given_by capture told) k) }
    ensures one { (plan : PlanFields) (size k : ℕ) (datagrams : List (List ℕ)) → (service_at plan k).urgent ≡ [] → order_of plan size k datagrams ≡ datagrams }
{
    a_baseband_stream_carries_what_was_offered();
    each_capture_is_sent_in_frames();
    what_arrives_of_a_capture_in_frames();
    intact_datagrams_of_gse_services_are_delivered();
}
