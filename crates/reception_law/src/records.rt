//! One service and one list of records, whatever the plan.
ghost use Rattle.std.specs.Prelude.{◌≡◌, ℕ, Bool, true, false, List, [], ◌∷◌, ◌++◌, length, drop, map, flat_map, Some};
ghost use Rattle.ts_spec.specs.Recording.{RecordingForm, Record};
ghost use Rattle.ts_spec.specs.Received.{received_packets};
ghost use Rattle.ts_spec.specs.Events.{events_of};
ghost use Rattle.reassembly_law.specs.UnderWay.{unit_of_event};
ghost use Rattle.section_spec.specs.Section.{section_form};
ghost use Rattle.plan_spec.specs.Plan.{pid_of, ServiceFields, IntFields, PlanFields};
ghost use Rattle.fec_frame_spec.specs.Sections.{frame_sections, timed_sections_in};
ghost use Rattle.plan_spec.specs.Changes.{on_pid};
ghost use Rattle.stream_spec.specs.Services.{form_of_kind};
ghost use Rattle.reception_spec.specs.Units.{delivered_by_unit};
ghost use Rattle.reception_spec.specs.Packets.{is_on};
ghost use Rattle.reception_spec.specs.Numbers.{units_of, unit_numbers};
ghost use Rattle.reception_spec.specs.Table.{table_sections};
ghost use Rattle.reception_spec.specs.Frames.{frames_received, rows_of};
ghost use Rattle.reception_spec.specs.Delivered.{delivered_datagrams, told_by};
ghost use Rattle.reception_law.specs.Words.{added_by, closed_by};

/// The units of a service are those among the events of its PID, and so are the sections of the INT, and those of frames.
pub fn units_are_those_of_events()
    ensures units { (service : ServiceFields) (pid : ℕ) (records : List Record) → pid_of service.kind ≡ Some pid
        → units_of service records ≡ map (λ (timed : ℕ × List ℕ). timed.1) (flat_map unit_of_event (events_of (form_of_kind service.kind) (received_packets pid records))) }
    ensures sections { (plan : PlanFields) (int : IntFields) (records : List Record) → plan.table ≡ Some int
        → table_sections plan records ≡ map (λ (timed : ℕ × List ℕ). timed.1) (flat_map unit_of_event (events_of section_form (received_packets int.pid records))) }
    ensures frames { (rows pid : ℕ) (records : List Record)
        → frame_sections rows pid records ≡ flat_map (λ (timed : ℕ × List ℕ). timed_sections_in rows timed.0 timed.1)
        (flat_map unit_of_event (events_of section_form (received_packets pid records))) }
{}

/// One record more tells what was told, and after it the datagrams that it adds: none where it is no packet of the PID. Where no more
/// records come, those of the frame under way come after what was told.
pub fn one_record_more_adds_datagrams()
    ensures none { (ended : Bool) (form : RecordingForm) (service : ServiceFields) → told_by ended form service [] ≡ [] }
    ensures more { (form : RecordingForm) (service : ServiceFields) (records : List Record) (r : Record)
        → told_by false form service (records ++ r ∷ []) ≡ told_by false form service records ++ added_by form service records r }
    ensures added { (form : RecordingForm) (service : ServiceFields) (records : List Record) (r : Record) (added : List (List ℕ))
        → told_by false form service (records ++ r ∷ []) ≡ told_by false form service records ++ added → added_by form service records r ≡ added }
    ensures others { (form : RecordingForm) (service : ServiceFields) (pid : ℕ) (records : List Record) (r : Record) → pid_of service.kind ≡ Some pid → is_on pid r ≡ false
        → added_by form service records r ≡ [] }
    ensures end { (form : RecordingForm) (service : ServiceFields) (records : List Record)
        → told_by true form service records ≡ told_by false form service records ++ closed_by form service records }
    ensures closed { (form : RecordingForm) (service : ServiceFields) (records : List Record) (closed : List (List ℕ))
        → told_by true form service records ≡ told_by false form service records ++ closed → closed_by form service records ≡ closed }
{}

/// A service without frames tells what its units give, and nothing is left at the end.
pub fn a_service_without_frames_tells_what_its_units_give()
    ensures told { (ended : Bool) (form : RecordingForm) (service : ServiceFields) (records : List Record) → frames_received form service.kind records ≡ []
        → told_by ended form service records ≡ delivered_datagrams service records }
    ensures added { (form : RecordingForm) (service : ServiceFields) (records : List Record) (r : Record) → ((some : List Record) → frames_received form service.kind some ≡ [])
        → added_by form service records r ≡ drop (length (delivered_datagrams service records)) (delivered_datagrams service (records ++ r ∷ [])) }
    ensures closed { (form : RecordingForm) (service : ServiceFields) (records : List Record) → frames_received form service.kind records ≡ [] → closed_by form service records ≡ [] }
{}

/// On another PID a service makes of each unit what it made of it before.
pub fn another_pid_leaves_what_units_give()
    ensures pid { (service : ServiceFields) (pid old : ℕ) → pid_of service.kind ≡ Some old → pid_of (on_pid service pid).kind ≡ Some pid }
    ensures same { (service : ServiceFields) (pid : ℕ) → pid_of service.kind ≡ Some pid → on_pid service pid ≡ service }
    ensures form { (service : ServiceFields) (pid : ℕ) → form_of_kind (on_pid service pid).kind ≡ form_of_kind service.kind }
    ensures delivered { (service : ServiceFields) (pid : ℕ) (unit : List ℕ) → delivered_by_unit (on_pid service pid) unit ≡ delivered_by_unit service unit }
    ensures numbers { (service : ServiceFields) (pid : ℕ) (units : List (List ℕ)) → unit_numbers (on_pid service pid) units ≡ unit_numbers service units }
    ensures rows { (service : ServiceFields) (pid : ℕ) → rows_of (on_pid service pid).kind ≡ rows_of service.kind }
{}
