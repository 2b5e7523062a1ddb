//! A service of a plan that changes: what it delivers over its spans.
ghost use Rattle.std.specs.Prelude.{◌≡◌, ℕ, ◌<◌, true, List, [], ◌∷◌, ◌++◌, length, Contains, Some, if◌then◌else◌};
ghost use Rattle.ts_spec.specs.Recording.{Record, records_of};
ghost use Rattle.ts_spec.specs.Received.{no_record};
ghost use Rattle.section_spec.specs.Section.{section_form};
ghost use Rattle.channel_spec.specs.Channel.{Channel};
ghost use Rattle.channel_spec.specs.Stamps.{KeepsStamps};
ghost use Rattle.channel_spec.specs.Spans.{IsSpanOf, HasNoLoneCopies};
ghost use Rattle.channel_spec.specs.Carried.{NoUndetectedError, IsAccepted};
ghost use Rattle.plan_spec.specs.Plan.{PlanFields, pid_of};
ghost use Rattle.plan_spec.specs.Changes.{pids_in, all_pids};
ghost use Rattle.stream_spec.specs.Services.{kind_at, form_of_kind, IsPidOf, Carries};
ghost use Rattle.reception_spec.specs.Packets.{heard_pids};
ghost use Rattle.reception_spec.specs.Spans.{version_at_place, is_heard_on, span_of};
ghost use Rattle.reception_spec.specs.Delivered.{delivered_of};
ghost use Rattle.loss_law.specs.Loss.{CarriesFor};
ghost use Rattle.loss_law.specs.Plans.{delivered_whole};
ghost use Rattle.loss_law.specs.Frames.{IsHeardOften};
ghost use Rattle.loss_law.specs.Isolation.{reads_moments};
ghost use Rattle.loss_law.specs.Spans.{IsSameChannel, IsRecordedFor, DeliversOverSpans};

/// Over its spans a service delivers wanted datagrams, unchanged and in order, with each whose unit arrived intact in a span: whatever
/// becomes of all other services, and of the records that are not on its PIDs.
///
/// Of each MPE-FEC frame a service delivers the datagrams that came in sections of their own at least, and all of them where no row has more
/// than 64 bytes that the sections that arrived intact do not tell.
/// Whatever becomes of the records, those of the INT among them: spans may begin and end at any record.
pub fn each_service_delivers_over_its_spans()
    ensures delivers { (plan : PlanFields) (k : ℕ) → k < length plan.services
        → (sent : List Record) (datagrams : ℕ → List (List ℕ)) (carries : CarriesFor plan k sent datagrams)
        (recorded : List Record) (is_recorded : IsRecordedFor plan k sent datagrams carries recorded)
        → DeliversOverSpans plan k sent datagrams carries recorded is_recorded (delivered_of plan k recorded) }
{}

/// A stream that carries the datagrams of all services of a plan carries those of each.
pub fn a_stream_carries_for_each_service()
    ensures carries { (plan : PlanFields) (sent : List Record) (datagrams : ℕ → ℕ → List (List ℕ)) → Carries plan sent datagrams
        → (k : ℕ) → CarriesFor plan k sent (datagrams k) }
{}

/// A channel for a receiver of some PIDs is one for a receiver of fewer: that of all services of a plan is one of each.
pub fn a_channel_is_one_for_fewer_pids()
    ensures fewer { (pids some : List ℕ) (sent recorded : List Record) (channel : Channel pids sent recorded) → ((pid : ℕ) → Contains some pid → Contains pids pid)
        → (other : Channel some sent recorded) × IsSameChannel channel other }
    ensures own { (plan : PlanFields) (sent recorded : List Record) (channel : Channel (all_pids plan) sent recorded) → (k : ℕ) → k < length plan.services
        → (other : Channel (pids_in plan k) sent recorded) × IsSameChannel channel other }
{}

/// What came through a channel for the PIDs of all services is a recording for each, in the same channel: where no damaged or spliced unit of the
/// service passes its check; where of MPE-FEC frames without time slicing sections are accepted often; and where with time slicing
/// stamps survive and no copy stands in a span without the packet that it is a copy of.
pub fn a_recording_for_all_is_one_for_each()
    ensures each { (plan : PlanFields) (k : ℕ) → k < length plan.services
        → (sent : List Record) (datagrams : ℕ → List (List ℕ)) (carries : CarriesFor plan k sent datagrams)
        (pieces : List (List ℕ)) (channel : Channel (all_pids plan) sent (records_of plan.recording pieces))
        → ((pid : ℕ) → IsPidOf plan k pid
        → NoUndetectedError channel (span_of plan k pid (records_of plan.recording pieces)) (form_of_kind (kind_at plan k)) pid (carries.units pid) (carries.begin pid))
        → ((pid : ℕ) (own : IsPidOf plan k pid)
        → IsHeardOften (kind_at plan k) plan.recording (carries.before pid) (carries.units pid) (carries.moments pid) (datagrams pid) (carries.carried pid own)
        (IsAccepted channel (span_of plan k pid (records_of plan.recording pieces)) section_form pid (carries.units pid) (carries.begin pid)))
        → (reads_moments (kind_at plan k) ≡ true → KeepsStamps plan.recording channel
        × ((pid : ℕ) → IsPidOf plan k pid → HasNoLoneCopies channel (span_of plan k pid (records_of plan.recording pieces)) pid))
        → (own : IsRecordedFor plan k sent datagrams carries (records_of plan.recording pieces)) × IsSameChannel channel own.channel }
{}

/// A span has the records of its recording, or blank ones.
pub fn a_span_is_of_its_recording()
    ensures is { (plan : PlanFields) (k pid : ℕ) (records : List Record) → IsSpanOf (span_of plan k pid records) records }
{}

/// One record more is one record more of each span: itself where the version in force has the service on the PID, a blank one otherwise.
pub fn a_span_grows_with_its_recording()
    ensures more { (plan : PlanFields) (k pid : ℕ) (records : List Record) (r : Record)
        → span_of plan k pid (records ++ r ∷ []) ≡ span_of plan k pid records ++ (if is_heard_on plan records k pid (length records) then r else no_record) ∷ [] }
{}

/// Without changes version 0 is in force at each record, a span is the recording, and a service delivers what the recording does;
/// the PIDs of all versions are those of version 0.
pub fn without_changes_a_span_is_the_recording()
    ensures version { (plan : PlanFields) (records : List Record) (place : ℕ) → plan.changes ≡ [] → version_at_place plan records place ≡ 0 }
    ensures span { (plan : PlanFields) (k pid : ℕ) (records : List Record) → plan.changes ≡ [] → k < length plan.services
        → pid_of (kind_at plan k) ≡ Some pid → span_of plan k pid records ≡ records }
    ensures delivered { (plan : PlanFields) (k pid : ℕ) (records : List Record) → plan.changes ≡ [] → k < length plan.services
        → pid_of (kind_at plan k) ≡ Some pid → delivered_of plan k records ≡ delivered_whole plan k records }
    ensures pids { (plan : PlanFields) → plan.changes ≡ [] → heard_pids plan ≡ all_pids plan }
{}
