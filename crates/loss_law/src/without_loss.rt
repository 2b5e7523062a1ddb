//! What a service delivers where nothing is lost: all that it wants.
ghost use Rattle.std.specs.Prelude.{◌≡◌, ℕ, ◌<◌, List, length, map, Contains, true, Some};
ghost use Rattle.ts_spec.specs.Recording.{RecordingForm, Record};
ghost use Rattle.ts_spec.specs.Received.{Arrival, arrivals};
ghost use Rattle.ts_spec.specs.Reassembly.{PlacedUnit, accepted_units};
ghost use Rattle.ts_spec.specs.Packetized.{Packetizes};
ghost use Rattle.channel_spec.specs.Channel.{Channel};
ghost use Rattle.channel_spec.specs.Spans.{IsSpanOf};
ghost use Rattle.channel_spec.specs.Carried.{packets_sent, NoUndetectedError, ArrivedIntact};
ghost use Rattle.plan_spec.specs.Plan.{KindFields, ServiceFields, PlanFields, pid_of};
ghost use Rattle.stream_spec.specs.Services.{form_of_kind, IsPidOf, Carries};
ghost use Rattle.reception_spec.specs.Spans.{is_heard_on};
ghost use Rattle.reception_spec.specs.Delivered.{told_by, delivered_of};
ghost use Rattle.loss_law.specs.Loss.{CarriesOn, CarriesFor};
ghost use Rattle.loss_law.specs.Frames.{HasMomentsFor, wanted_by};
ghost use Rattle.loss_law.specs.Plans.{delivered_whole, DeliversAll};
ghost use Rattle.loss_law.specs.Spans.{IsRecordedFor, wanted_on_pids};

/// Where each unit arrived intact, whatever else became of the records, a service delivers all its wanted datagrams, in order and each once.
///
/// Of MPE-FEC frames with time slicing accepted sections must come at times that separate the frames, since a receiver finds the frames by them.
pub fn where_all_units_arrived_intact_all_is_delivered()
    ensures all { (pids : List ℕ) (sent recorded : List Record) (channel : Channel pids sent recorded) (span : List Record) → IsSpanOf span recorded
        → (form : RecordingForm) (service : ServiceFields) (pid : ℕ) → Contains pids pid → pid_of service.kind ≡ Some pid
        → (datagrams : List (List ℕ)) (carries : CarriesOn form service.kind pid sent datagrams)
        → NoUndetectedError channel span (form_of_kind service.kind) pid carries.units carries.begin
        → HasMomentsFor service.kind form carries.before carries.units carries.moments datagrams carries.carried channel span pid carries.begin
        → ((n : ℕ) → n < length carries.units → ArrivedIntact channel span pid carries.units carries.begin n)
        → told_by true form service span ≡ wanted_by service.kind service carries.units datagrams }
{}

/// Of a stream that was recorded as it was sent the accepted units are those sent, all of them in order, each once, and no others.
///
/// Stuffing gives none: in each kind of unit that a service has, bytes FF where a unit could start tell that none does.
pub fn a_recorded_stream_gives_its_units()
    ensures units { (sent : List Record) (kind : KindFields) (pid : ℕ) (units : List (List ℕ)) (begin : ℕ → ℕ)
        → Packetizes (form_of_kind kind) units (packets_sent pid sent) begin
        → map (λ (accepted : PlacedUnit). accepted.unit) (accepted_units (form_of_kind kind) pid sent) ≡ units }
{}

/// Of a stream that was recorded as it was sent each service of a plan delivers all wanted datagrams, without a filter all that were sent.
pub fn where_nothing_is_lost_all_is_delivered()
    ensures all { (plan : PlanFields) (sent : List Record) (datagrams : ℕ → ℕ → List (List ℕ)) (carries : Carries plan sent datagrams)
        → DeliversAll plan sent datagrams carries (λ k. delivered_whole plan k sent) }
{}

/// Of a stream that was recorded as it was sent a service delivers over its spans all wanted datagrams, one PID after another, where each packet
/// of its PIDs stands in the span of its PID. And what was sent is then a recording of itself.
pub fn where_each_packet_is_heard_all_is_delivered()
    ensures all { (plan : PlanFields) (k : ℕ) → k < length plan.services
        → (sent : List Record) (datagrams : ℕ → List (List ℕ)) (carries : CarriesFor plan k sent datagrams)
        → ((pid : ℕ) (a : Arrival) → IsPidOf plan k pid → Contains (arrivals pid sent) a → is_heard_on plan sent k pid a.place ≡ true)
        → delivered_of plan k sent ≡ wanted_on_pids plan k carries.units datagrams }
    ensures recorded { (plan : PlanFields) (k : ℕ) (sent : List Record) (datagrams : ℕ → List (List ℕ)) (carries : CarriesFor plan k sent datagrams)
        → ((pid : ℕ) (a : Arrival) → IsPidOf plan k pid → Contains (arrivals pid sent) a → is_heard_on plan sent k pid a.place ≡ true)
        → IsRecordedFor plan k sent datagrams carries sent }
{}
