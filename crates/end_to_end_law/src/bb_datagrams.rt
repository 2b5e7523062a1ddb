//! Datagrams and PDUs: each datagram that a capture offers is sent as a PDU.
ghost use Rattle.std.specs.Prelude.{◌≡◌, ℕ, ◌<◌, Bool, List, length, map};
ghost use Rattle.plan_spec.specs.Plan.{gse, PlanFields};
ghost use Rattle.gse_spec.specs.Numbers.{pdus_of};
ghost use Rattle.gse_spec.specs.Sending.{pdu_for};
ghost use Rattle.bb_stream_spec.specs.Stream.{order_of};
ghost use Rattle.bb_stream_spec.specs.Carried.{CarriesInBaseband};
ghost use Rattle.bb_reception_spec.specs.Delivered.{service_at};
ghost use Rattle.end_to_end_law.specs.BbSent.{IsSentInFrames, offered_to};

use bb_stream_law::{
    a_baseband_stream_carries_what_was_offered, the_frames_of_an_isi_are_those_of_its_service,
};
use gse_law::{
    an_input_stream_is_counted_by_itself, offered_datagrams_can_be_sent,
    packed_frames_give_the_pdus,
};
use stream_law::a_capture_gives_datagrams;

/// The frames of a capture carry the datagrams that are offered to each service, in order, or in the order of the ends where the service has
/// urgent rules. The PDUs on the ISI of a service are those of its datagrams, in that order, one for each.
pub fn each_datagram_is_sent_in_a_pdu()
    ensures carries { (plan : PlanFields) (capture : List ℕ) (told frames : List (List ℕ)) → (sent : IsSentInFrames plan capture told frames)
        → CarriesInBaseband plan frames (λ k. order_of plan sent.stream.size k (offered_to plan capture told k)) }
    ensures pdus { (plan : PlanFields) (capture : List ℕ) (told frames : List (List ℕ)) → (sent : IsSentInFrames plan capture told frames)
        → (k isi : ℕ) (address : Bool) → k < length plan.services → (service_at plan k).kind ≡ gse isi address
        → pdus_of isi frames ≡ map (pdu_for address (service_at plan k).unicast) (order_of plan sent.stream.size k (offered_to plan capture told k)) }
{
    a_capture_gives_datagrams();
    a_baseband_stream_carries_what_was_offered();
    the_frames_of_an_isi_are_those_of_its_service();
    an_input_stream_is_counted_by_itself();
    packed_frames_give_the_pdus();
    offered_datagrams_can_be_sent();
}
