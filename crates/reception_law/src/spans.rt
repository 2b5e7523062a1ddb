//! The spans of a service, record by record.
ghost use Rattle.std.specs.Prelude.{◌≡◌, ◌≢◌, ℕ, ◌+◌, ◌<◌, ◌≤◌, ◌==◌, true, false, List, [], ◌∷◌, ◌++◌, length, Some, if◌then◌else◌};
ghost use Rattle.ts_spec.specs.Recording.{Record};
ghost use Rattle.ts_spec.specs.Received.{no_record};
ghost use Rattle.plan_spec.specs.Plan.{IntFields, PlanFields, pid_of};
ghost use Rattle.plan_spec.specs.Checks.{has_pair};
ghost use Rattle.plan_spec.specs.Changes.{pid_in, pids_in, has_wrong_change};
ghost use Rattle.reception_spec.specs.Packets.{is_on};
ghost use Rattle.reception_spec.specs.Spans.{version_at_end, is_heard_on, span_of};
ghost use Rattle.reception_spec.specs.Delivered.{service_on};
ghost use Rattle.reception_law.specs.InForce.{pid_in_force, ComesLater, IsBlank};

/// A service has each of its PIDs once, and one more than the plan has changes at most.
pub fn a_service_has_each_pid_once()
    ensures once { (plan : PlanFields) (k : ℕ) → has_wrong_change plan ≡ false → has_pair (λ a b. a == b) (pids_in plan k) ≡ false }
    ensures few { (plan : PlanFields) (k : ℕ) → length (pids_in plan k) ≤ length plan.changes + 1 }
    ensures on { (plan : PlanFields) (version k pid : ℕ) → pid_in plan version k ≡ Some pid → pid_of (service_on plan k pid).kind ≡ Some pid }
{}

/// In a version no two services have one PID, and none has the INT's; a packet of one PID is none of another.
pub fn a_packet_is_of_one_service_or_the_int()
    ensures services { (plan : PlanFields) (version j k a b : ℕ) → has_wrong_change plan ≡ false → version ≤ length plan.changes
        → j < length plan.services → k < length plan.services → j ≢ k → pid_in plan version j ≡ Some a → pid_in plan version k ≡ Some b → a ≢ b }
    ensures table { (plan : PlanFields) (int : IntFields) (version k pid : ℕ) → has_wrong_change plan ≡ false → version ≤ length plan.changes
        → k < length plan.services → plan.table ≡ Some int → pid_in plan version k ≡ Some pid → int.pid ≢ pid }
    ensures packets { (a b : ℕ) (r : Record) → a ≢ b → is_on a r ≡ true → is_on b r ≡ false }
{}

/// One record more is one record more of each span: itself on the PID in force after those before it, a blank one on others.
pub fn a_span_grows_record_by_record()
    ensures more { (plan : PlanFields) (k pid : ℕ) (records : List Record) (r : Record)
        → span_of plan k pid (records ++ r ∷ []) ≡ span_of plan k pid records ++ (if is_heard_on plan records k pid (length records) then r else no_record) ∷ [] }
    ensures heard { (plan : PlanFields) (k pid : ℕ) (records : List Record) (r : Record) → pid_in_force plan k records ≡ Some pid
        → span_of plan k pid (records ++ r ∷ []) ≡ span_of plan k pid records ++ r ∷ [] }
    ensures blank { (plan : PlanFields) (k pid other : ℕ) (records : List Record) (r : Record) → pid_in_force plan k records ≡ Some other → other ≢ pid
        → span_of plan k pid (records ++ r ∷ []) ≡ span_of plan k pid records ++ no_record ∷ [] }
{}

/// The span on a PID to which a service comes later is blank, also where the last record itself brings the version of the PID.
pub fn a_span_to_come_is_blank()
    ensures blank { (plan : PlanFields) (k pid : ℕ) (records : List Record) → has_wrong_change plan ≡ false → ComesLater plan k pid (version_at_end plan records)
        → IsBlank plan k pid records }
    ensures next { (plan : PlanFields) (k pid : ℕ) (records : List Record) (r : Record) → has_wrong_change plan ≡ false → ComesLater plan k pid (version_at_end plan records)
        → IsBlank plan k pid (records ++ r ∷ []) }
    ensures moved { (plan : PlanFields) (k old new : ℕ) (records : List Record) (r : Record) → has_wrong_change plan ≡ false
        → pid_in_force plan k records ≡ Some old → pid_in_force plan k (records ++ r ∷ []) ≡ Some new → new ≢ old → IsBlank plan k new (records ++ r ∷ []) }
    ensures first { (plan : PlanFields) (k pid : ℕ) → IsBlank plan k pid [] }
{}
