//! What the services of a plan deliver of what was sent in frames.
ghost use Rattle.std.specs.Prelude.{ℕ, ◌<◌, List, length, flat_map, Contains};
ghost use Rattle.wire_spec.specs.Lists.{IsSubsequence};
ghost use Rattle.channel_spec.specs.Carried.{IsRising};
ghost use Rattle.plan_spec.specs.Plan.{PlanFields, isis};
ghost use Rattle.gse_spec.specs.Received.{carried_by_pdu, received_pdus, delivered_by_pdu};
ghost use Rattle.gse_spec.specs.Channel.{FrameChannel};
ghost use Rattle.gse_spec.specs.Carried.{NoUndetectedError, ArrivedIntact, sent_pdu};
ghost use Rattle.bb_reception_spec.specs.Delivered.{service_at, delivered_of};
ghost use Rattle.bb_stream_spec.specs.Carried.{CarriesInBaseband};
ghost use Rattle.bb_loss_law.specs.Plans.{IsIsiOf, IsSameFrameChannel, CarriesInFramesFor, IsRecordedInFramesFor, DeliversOnIsi, DeliversAll, AllArrivedIntact};

/// Whatever frames are dropped, and whatever refused frames or frames of other ISIs are inserted: a service delivers wanted datagrams, unchanged and in order,
/// with each whose frames all arrived. They are read off the numbers of PDUs, which rise, so nothing is delivered twice. It is so whatever
/// becomes of other services, and of frames that are not of its ISI. Frames that carry the datagrams of all services carry those of each.
pub fn each_gse_service_delivers_what_arrived_intact()
    ensures carries { (plan : PlanFields) (sent : List (List ℕ)) (datagrams : ℕ → List (List ℕ)) → CarriesInBaseband plan sent datagrams
        → (k : ℕ) → CarriesInFramesFor plan k sent (datagrams k) }
    ensures delivers { (plan : PlanFields) (k : ℕ) (sent recorded : List (List ℕ)) (is_recorded : IsRecordedInFramesFor plan k sent recorded)
        → (datagrams : List (List ℕ)) → CarriesInFramesFor plan k sent datagrams
        → DeliversOnIsi plan k sent recorded is_recorded datagrams (delivered_of plan k recorded) }
{}

/// A channel for a receiver of some ISIs is one for a receiver of fewer, with the same places. So what came through a channel for the ISIs of all
/// services is a recording for each on whose ISI no PDU is put together that was not sent.
pub fn a_frame_channel_is_one_for_fewer_isis()
    ensures fewer { (isis some : List ℕ) (sent recorded : List (List ℕ)) (channel : FrameChannel isis sent recorded) → ((isi : ℕ) → Contains some isi → Contains isis isi)
        → (other : FrameChannel some sent recorded) × IsSameFrameChannel channel other }
    ensures each { (plan : PlanFields) (k : ℕ) → k < length plan.services → (sent recorded : List (List ℕ)) (channel : FrameChannel (isis plan) sent recorded)
        → ((isi : ℕ) → IsIsiOf plan k isi → NoUndetectedError channel isi)
        → (own : IsRecordedInFramesFor plan k sent recorded) × IsSameFrameChannel channel own.channel }
{}

/// The wanted datagrams of PDUs that arrived intact are a subsequence of those that their service delivers: each as often as such PDUs carry it.
pub fn intact_datagrams_of_gse_services_are_delivered()
    ensures delivered { (plan : PlanFields) (k : ℕ) (sent recorded : List (List ℕ)) (is_recorded : IsRecordedInFramesFor plan k sent recorded) (isi : ℕ)
        → IsIsiOf plan k isi → (intact : List ℕ) → IsRising 0 intact
        → ((n : ℕ) → Contains intact n → (n < length (received_pdus isi sent)) × ArrivedIntact is_recorded.channel isi n)
        → IsSubsequence (flat_map (λ n. delivered_by_pdu carried_by_pdu (service_at plan k).filter (sent_pdu isi sent n)) intact) (delivered_of plan k recorded) }
{}

/// Where each PDU of a service arrived intact, whatever else became of the frames, it delivers all wanted datagrams, in order and each once,
/// and without a filter all that were sent.
pub fn where_all_arrived_intact_all_is_delivered()
    ensures all { (plan : PlanFields) (k : ℕ) (sent recorded : List (List ℕ)) (is_recorded : IsRecordedInFramesFor plan k sent recorded)
        → (datagrams : List (List ℕ)) → CarriesInFramesFor plan k sent datagrams → AllArrivedIntact plan k sent recorded is_recorded.channel
        → DeliversAll plan k sent datagrams (delivered_of plan k recorded) }
{}

/// What was sent is a recording of itself, through a channel without undetected errors.
pub fn a_frame_stream_is_a_recording_of_itself()
    ensures is { (plan : PlanFields) (k : ℕ) (sent : List (List ℕ)) → IsRecordedInFramesFor plan k sent sent }
{}

/// Of frames that were recorded as they were sent each service delivers all wanted datagrams, without a filter all that were sent.
pub fn where_no_frame_is_lost_all_is_delivered()
    ensures all { (plan : PlanFields) (k : ℕ) (sent datagrams : List (List ℕ)) → CarriesInFramesFor plan k sent datagrams
        → DeliversAll plan k sent datagrams (delivered_of plan k sent) }
{}
