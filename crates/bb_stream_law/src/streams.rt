//! Streams: there is one, and what it carries.
ghost use Rattle.std.specs.Prelude.{◌≡◌, ℕ, List, [], map, All, slice_get, Some, true, Bool};
ghost use Rattle.wire_spec.specs.Datagram.{IsDatagram};
ghost use Rattle.wire_spec.specs.Lists.{joined, IsCut};
ghost use Rattle.plan_spec.specs.Plan.{gse, ServiceFields, PlanFields, is_baseband};
ghost use Rattle.plan_spec.specs.Bytes.{AreOfBytes};
ghost use Rattle.plan_spec.specs.Wholes.{is_whole_plan};
ghost use Rattle.plan_spec.specs.Offered.{Records, datagrams as datagrams_of, offered_in};
ghost use Rattle.gse_spec.specs.Sending.{pdu_for, frames_for};
ghost use Rattle.gse_law.specs.Classes.{KeepsClasses};
ghost use Rattle.gse_law.specs.Streams.{frames_of};
ghost use Rattle.bb_stream_spec.specs.Stream.{IsBasebandStream, order_of};
ghost use Rattle.bb_stream_spec.specs.Carried.{CarriesInBaseband};

/// Of a plan of baseband frames there is a stream, and one alone.
pub fn there_is_one_baseband_stream()
    ensures is { (plan : PlanFields) (datagrams : ℕ → ℕ → List (List ℕ)) → is_whole_plan plan ≡ true → is_baseband plan ≡ true
        → (frames : List (List ℕ)) × IsBasebandStream plan datagrams frames }
    ensures one { (plan : PlanFields) (datagrams : ℕ → ℕ → List (List ℕ)) (a b : List (List ℕ))
        → IsBasebandStream plan datagrams a → IsBasebandStream plan datagrams b → a ≡ b }
{}

/// The stream carries what was offered, by service, each on its own ISI: in order, or in the order of the ends where the service has urgent
/// rules, which keeps the order of each class.
///
/// For all settings with baseband frames that are accepted, and all datagrams that a capture can give.
pub fn a_baseband_stream_carries_what_was_offered()
    ensures carries { (plan : PlanFields) → is_whole_plan plan ≡ true → AreOfBytes plan → (gives : Records) → All IsDatagram (datagrams_of gives)
        → (frames : List (List ℕ)) → (stream : IsBasebandStream plan (offered_in plan gives) frames)
        → CarriesInBaseband plan frames (λ k. order_of plan stream.size k (offered_in plan gives 0 k)) }
    ensures classes { (plan : PlanFields) → is_whole_plan plan ≡ true → AreOfBytes plan → (gives : Records) → (frames : List (List ℕ))
        → (stream : IsBasebandStream plan (offered_in plan gives) frames) → (k : ℕ) (service : ServiceFields) → slice_get plan.services k ≡ Some service
        → KeepsClasses service.urgent (offered_in plan gives 0 k) (order_of plan stream.size k (offered_in plan gives 0 k)) }
{}

/// The readable frames of an ISI are those of its service, in order: one after another as the six rules pack its datagrams,
/// in two classes where it has urgent rules.
pub fn the_frames_of_an_isi_are_those_of_its_service()
    ensures own { (plan : PlanFields) → is_whole_plan plan ≡ true → AreOfBytes plan → (gives : Records) → (frames : List (List ℕ))
        → (stream : IsBasebandStream plan (offered_in plan gives) frames) → (k isi : ℕ) (address : Bool) (service : ServiceFields)
        → slice_get plan.services k ≡ Some service → service.kind ≡ gse isi address
        → frames_of isi frames ≡ frames_for service.urgent isi stream.size (map (pdu_for address service.unicast) (offered_in plan gives 0 k)) }
{}

/// Each frame has the bytes of a frame, so that the bytes of a stream are cut into its frames, and nothing is left after them.
pub fn a_baseband_stream_is_cut_into_its_frames()
    ensures cut { (plan : PlanFields) → is_whole_plan plan ≡ true → AreOfBytes plan → (gives : Records) → (frames : List (List ℕ))
        → (stream : IsBasebandStream plan (offered_in plan gives) frames) → IsCut stream.size (joined frames) frames [] }
{}
