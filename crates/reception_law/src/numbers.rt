//! The numbers of a service over its spans, and those of the whole recording, record by record.
ghost use Rattle.std.specs.Prelude.{◌≡◌, ◌≢◌, ℕ, ◌+◌, ◌*◌, ◌^◌, ◌≤◌, Bool, true, false, List, [], ◌∷◌, ◌++◌, length, slice_index_or, Some, if◌then◌else◌};
ghost use Rattle.ts_spec.specs.Form.{UnitForm};
ghost use Rattle.ts_spec.specs.Recording.{Record};
ghost use Rattle.ts_spec.specs.Received.{received_packets};
ghost use Rattle.ts_spec.specs.Events.{events_of};
ghost use Rattle.plan_spec.specs.Plan.{PlanFields};
ghost use Rattle.plan_spec.specs.Changes.{plan_in, pid_in, no_service, has_wrong_change};
ghost use Rattle.reception_spec.specs.Packets.{is_other};
ghost use Rattle.reception_spec.specs.Numbers.{no_numbers};
ghost use Rattle.reception_spec.specs.Frames.{no_frames, sum_of_frames, rows_of};
ghost use Rattle.reception_spec.specs.Spans.{version_at_end};
ghost use Rattle.reception_spec.specs.Delivered.{told_of, delivered_of};
ghost use Rattle.reception_spec.specs.Sums.{others_from, sum_of_numbers, numbers_on, numbers_of, unit_numbers_of, frame_numbers_on, frame_numbers_of, told_frame_numbers};
ghost use Rattle.reception_law.specs.InForce.{pid_in_force};
ghost use Rattle.reception_law.specs.Sums.{no_units, sum_of_units, unit_numbers_on, numbers_before, unit_numbers_before, frame_numbers_before, AreAtMost, UnitsAreAtMost, FramesAreAtMost};

/// The numbers of a service are those of one of its PIDs and those of all others.
pub fn the_numbers_of_a_service_are_those_of_its_pids()
    ensures numbers { (plan : PlanFields) (k pid version : ℕ) (records : List Record) → has_wrong_change plan ≡ false
        → version ≤ length plan.changes → pid_in plan version k ≡ Some pid
        → numbers_of plan k records ≡ sum_of_numbers (numbers_before plan k pid records) (numbers_on plan k records pid) }
    ensures units { (plan : PlanFields) (k pid version : ℕ) (records : List Record) → has_wrong_change plan ≡ false
        → version ≤ length plan.changes → pid_in plan version k ≡ Some pid
        → unit_numbers_of plan k records ≡ sum_of_units (unit_numbers_before plan k pid records) (unit_numbers_on plan k records pid) }
    ensures frames { (plan : PlanFields) (k pid version : ℕ) (records : List Record) → has_wrong_change plan ≡ false
        → version ≤ length plan.changes → pid_in plan version k ≡ Some pid
        → frame_numbers_of plan k records ≡ sum_of_frames (frame_numbers_before plan k pid records) (frame_numbers_on true plan k records pid) }
    ensures told_frames { (plan : PlanFields) (k pid : ℕ) (records : List Record) → has_wrong_change plan ≡ false → pid_in_force plan k records ≡ Some pid
        → told_frame_numbers plan k records ≡ sum_of_frames (frame_numbers_before plan k pid records) (frame_numbers_on false plan k records pid) }
{}

/// The datagrams of a service are counted: those that its units give by themselves, and those of its frames.
pub fn all_datagrams_are_counted()
    ensures delivered { (plan : PlanFields) (k : ℕ) (records : List Record)
        → length (delivered_of plan k records) ≡ (unit_numbers_of plan k records).datagrams + (frame_numbers_of plan k records).datagrams }
    ensures told { (plan : PlanFields) (k : ℕ) (records : List Record)
        → length (told_of plan k records) ≡ (unit_numbers_of plan k records).datagrams + (told_frame_numbers plan k records).datagrams }
{}

/// One record more leaves the numbers of all PIDs but that in force.
pub fn a_record_leaves_the_numbers_of_other_pids()
    ensures numbers { (plan : PlanFields) (k pid : ℕ) (records : List Record) (r : Record) → pid_in_force plan k records ≡ Some pid
        → numbers_before plan k pid (records ++ r ∷ []) ≡ numbers_before plan k pid records }
    ensures units { (plan : PlanFields) (k pid : ℕ) (records : List Record) (r : Record) → pid_in_force plan k records ≡ Some pid
        → unit_numbers_before plan k pid (records ++ r ∷ []) ≡ unit_numbers_before plan k pid records }
    ensures frames { (plan : PlanFields) (k pid : ℕ) (records : List Record) (r : Record) → pid_in_force plan k records ≡ Some pid
        → frame_numbers_before plan k pid (records ++ r ∷ []) ≡ frame_numbers_before plan k pid records }
{}

/// Where a record moves a service, those of the PID that it leaves are added to the numbers of the PIDs before.
pub fn numbers_go_on_where_a_service_moves()
    ensures numbers { (plan : PlanFields) (k old new : ℕ) (records : List Record) (r : Record) → has_wrong_change plan ≡ false
        → pid_in_force plan k records ≡ Some old → pid_in_force plan k (records ++ r ∷ []) ≡ Some new → new ≢ old
        → numbers_before plan k new (records ++ r ∷ []) ≡ sum_of_numbers (numbers_before plan k old records) (numbers_on plan k (records ++ r ∷ []) old) }
    ensures units { (plan : PlanFields) (k old new : ℕ) (records : List Record) (r : Record) → has_wrong_change plan ≡ false
        → pid_in_force plan k records ≡ Some old → pid_in_force plan k (records ++ r ∷ []) ≡ Some new → new ≢ old
        → unit_numbers_before plan k new (records ++ r ∷ []) ≡ sum_of_units (unit_numbers_before plan k old records) (unit_numbers_on plan k (records ++ r ∷ []) old) }
    ensures frames { (plan : PlanFields) (k old new : ℕ) (records : List Record) (r : Record) → has_wrong_change plan ≡ false
        → pid_in_force plan k records ≡ Some old → pid_in_force plan k (records ++ r ∷ []) ≡ Some new → new ≢ old
        → frame_numbers_before plan k new (records ++ r ∷ []) ≡ sum_of_frames (frame_numbers_before plan k old records) (frame_numbers_on true plan k (records ++ r ∷ []) old) }
{}

/// Of no record nothing is counted.
pub fn nothing_is_counted_of_nothing()
    ensures numbers { (plan : PlanFields) (k pid : ℕ) → numbers_before plan k pid [] ≡ no_numbers }
    ensures units { (plan : PlanFields) (k pid : ℕ) → unit_numbers_before plan k pid [] ≡ no_units }
    ensures frames { (plan : PlanFields) (k pid : ℕ) → frame_numbers_before plan k pid [] ≡ no_frames }
    ensures told_frames { (plan : PlanFields) (k : ℕ) → told_frame_numbers plan k [] ≡ no_frames }
{}

/// A PID has 189 events a record at most; so no number of a service with 32 PIDs comes near 2^64 within 2^32 records. Nor do those of
/// its frames: there is one a unit at most, and one of 1,024 rows has 195,585 places at most where a datagram can start.
pub fn counters_of_64_bits_hold_all_numbers()
    ensures events { (form : UnitForm) (pid : ℕ) (records : List Record) → length (events_of form (received_packets pid records)) ≤ 189 * length records }
    ensures on { (plan : PlanFields) (k pid : ℕ) (records : List Record) → AreAtMost (189 * length records) (numbers_on plan k records pid) }
    ensures units_on { (plan : PlanFields) (k pid : ℕ) (records : List Record) → UnitsAreAtMost (189 * length records) (unit_numbers_on plan k records pid) }
    ensures before { (plan : PlanFields) (k pid : ℕ) (records : List Record) → length plan.changes ≤ 31 → length records ≤ 2 ^ 32
        → AreAtMost (2 ^ 45) (numbers_before plan k pid records) }
    ensures units_before { (plan : PlanFields) (k pid : ℕ) (records : List Record) → length plan.changes ≤ 31 → length records ≤ 2 ^ 32
        → UnitsAreAtMost (2 ^ 45) (unit_numbers_before plan k pid records) }
    ensures all { (plan : PlanFields) (k : ℕ) (records : List Record) → length plan.changes ≤ 31 → length records ≤ 2 ^ 32
        → AreAtMost (2 ^ 45) (numbers_of plan k records) }
    ensures units_of_all { (plan : PlanFields) (k : ℕ) (records : List Record) → length plan.changes ≤ 31 → length records ≤ 2 ^ 32
        → UnitsAreAtMost (2 ^ 45) (unit_numbers_of plan k records) }
    ensures frames_on { (ended : Bool) (plan : PlanFields) (k pid : ℕ) (records : List Record) → rows_of (slice_index_or plan.services k no_service).kind ≤ 1024
        → FramesAreAtMost (36965565 * length records) (frame_numbers_on ended plan k records pid) }
    ensures frames_before { (plan : PlanFields) (k pid : ℕ) (records : List Record) → rows_of (slice_index_or plan.services k no_service).kind ≤ 1024
        → length plan.changes ≤ 31 → length records ≤ 2 ^ 32 → FramesAreAtMost (2 ^ 63) (frame_numbers_before plan k pid records) }
    ensures frames_of_all { (plan : PlanFields) (k : ℕ) (records : List Record) → rows_of (slice_index_or plan.services k no_service).kind ≤ 1024
        → length plan.changes ≤ 31 → length records ≤ 2 ^ 32 → FramesAreAtMost (2 ^ 63) (frame_numbers_of plan k records) }
    ensures frames_told { (plan : PlanFields) (k : ℕ) (records : List Record) → rows_of (slice_index_or plan.services k no_service).kind ≤ 1024
        → length plan.changes ≤ 31 → length records ≤ 2 ^ 32 → FramesAreAtMost (2 ^ 63) (told_frame_numbers plan k records) }
{}

/// One record more is one packet more of no service and not of the INT, or none, by the version in force after those before it.
pub fn others_come_record_by_record()
    ensures none { (plan : PlanFields) → others_from plan [] 0 [] ≡ 0 }
    ensures more { (plan : PlanFields) (records : List Record) (r : Record)
        → others_from plan (records ++ r ∷ []) 0 (records ++ r ∷ [])
        ≡ others_from plan records 0 records + (if is_other (plan_in plan (version_at_end plan records)) r then 1 else 0) }
{}
