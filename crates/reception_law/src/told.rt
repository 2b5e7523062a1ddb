//! What records tell of a service, record by record.
ghost use Rattle.std.specs.Prelude.{◌≡◌, ◌≢◌, ℕ, false, List, [], ◌∷◌, ◌++◌, length, None, Some};
ghost use Rattle.ts_spec.specs.Recording.{Record};
ghost use Rattle.plan_spec.specs.Plan.{PlanFields};
ghost use Rattle.plan_spec.specs.Changes.{has_wrong_change};
ghost use Rattle.reception_spec.specs.Packets.{is_on};
ghost use Rattle.reception_spec.specs.Delivered.{told_of, delivered_of, given_by_record, given_by_end};
ghost use Rattle.reception_law.specs.Words.{added_on, closed_on};
ghost use Rattle.reception_law.specs.InForce.{pid_in_force, given_on};

/// One record more tells what was told, and after it what the record gives on the PID in force: what it adds to the span, and where it
/// moves the service, what it closes of the frames on the PID.
pub fn a_record_tells_datagrams_on_the_pid_in_force()
    ensures told { (plan : PlanFields) (k pid : ℕ) (records : List Record) (r : Record) → has_wrong_change plan ≡ false → pid_in_force plan k records ≡ Some pid
        → told_of plan k (records ++ r ∷ []) ≡ told_of plan k records ++ given_on plan k pid records r }
    ensures given { (plan : PlanFields) (k pid : ℕ) (records : List Record) (r : Record) → has_wrong_change plan ≡ false → pid_in_force plan k records ≡ Some pid
        → given_by_record plan k (records ++ r ∷ []) (length records) ≡ given_on plan k pid records r }
    ensures stays { (plan : PlanFields) (k pid : ℕ) (records : List Record) (r : Record) → pid_in_force plan k (records ++ r ∷ []) ≡ Some pid
        → given_on plan k pid records r ≡ added_on plan k pid records r }
    ensures moves { (plan : PlanFields) (k pid new : ℕ) (records : List Record) (r : Record) → pid_in_force plan k (records ++ r ∷ []) ≡ Some new → new ≢ pid
        → given_on plan k pid records r ≡ added_on plan k pid records r ++ closed_on plan k pid (records ++ r ∷ []) }
{}

/// A record that is no packet of the PID in force, and leaves it in force, tells nothing.
pub fn other_records_tell_nothing()
    ensures told { (plan : PlanFields) (k : ℕ) (records : List Record) (r : Record)
        → ((pid : ℕ) → pid_in_force plan k records ≡ Some pid → is_on pid r ≡ false) → pid_in_force plan k (records ++ r ∷ []) ≡ pid_in_force plan k records
        → told_of plan k (records ++ r ∷ []) ≡ told_of plan k records }
    ensures given { (plan : PlanFields) (k : ℕ) (records : List Record) (r : Record)
        → ((pid : ℕ) → pid_in_force plan k records ≡ Some pid → is_on pid r ≡ false) → pid_in_force plan k (records ++ r ∷ []) ≡ pid_in_force plan k records
        → given_by_record plan k (records ++ r ∷ []) (length records) ≡ [] }
    ensures added { (plan : PlanFields) (k pid : ℕ) (records : List Record) (r : Record) → is_on pid r ≡ false → added_on plan k pid records r ≡ [] }
{}

/// A record that moves the service, and is no packet of the PID that it leaves, gives what the frame under way on that PID does.
pub fn a_record_that_moves_a_service_closes_its_frame()
    ensures given { (plan : PlanFields) (k old new : ℕ) (records : List Record) (r : Record) → has_wrong_change plan ≡ false
        → pid_in_force plan k records ≡ Some old → pid_in_force plan k (records ++ r ∷ []) ≡ Some new → new ≢ old → is_on old r ≡ false
        → given_by_record plan k (records ++ r ∷ []) (length records) ≡ closed_on plan k old records }
    ensures same { (plan : PlanFields) (k pid : ℕ) (records : List Record) (r : Record) → is_on pid r ≡ false
        → closed_on plan k pid (records ++ r ∷ []) ≡ closed_on plan k pid records }
{}

/// What was told stays, and what a record gives comes after it; where the recording ends, what the frame under way gives comes after it.
pub fn what_was_told_stays()
    ensures none { (plan : PlanFields) (k : ℕ) → told_of plan k [] ≡ [] }
    ensures more { (plan : PlanFields) (k : ℕ) (records : List Record) (r : Record) → has_wrong_change plan ≡ false
        → told_of plan k (records ++ r ∷ []) ≡ told_of plan k records ++ given_by_record plan k (records ++ r ∷ []) (length records) }
    ensures all { (plan : PlanFields) (k : ℕ) (records : List Record) → has_wrong_change plan ≡ false
        → delivered_of plan k records ≡ told_of plan k records ++ given_by_end plan k records }
    ensures end { (plan : PlanFields) (k pid : ℕ) (records : List Record) → has_wrong_change plan ≡ false → pid_in_force plan k records ≡ Some pid
        → given_by_end plan k records ≡ closed_on plan k pid records }
    ensures without_pid { (plan : PlanFields) (k : ℕ) (records : List Record) → pid_in_force plan k records ≡ None → given_by_end plan k records ≡ [] }
{}
