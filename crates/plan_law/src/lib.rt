//! Laws of plans that change: each version is a plan by itself, and without changes there is one.
//!
//! Laws over definitions alone: each is a function that does nothing, whose contract is the law.
//! They stand on plan_spec; what sends and receives a plan that changes stands on them.
#![tactic(auto)]

ghost use Rattle.std.specs.Prelude.{◌≡◌, ℕ, ◌+◌, ◌≤◌, ◌==◌, true, false, List, [], ◌∷◌, ◌++◌, length, map};
ghost use Rattle.plan_spec.specs.Plan.{ServiceFields, PlanFields, sliced, isis, table_pids, service_pids};
ghost use Rattle.plan_spec.specs.Checks.{has_pair, has_wrong_carrier, has_wrong_window};
ghost use Rattle.plan_spec.specs.Signalling.{table_packets};
ghost use Rattle.plan_spec.specs.Changes.{plan_in, versions, records_of_version, all_pids};
ghost use Rattle.plan_spec.specs.Valid.{is_plan};
ghost use Rattle.plan_spec.specs.Wholes.{most_table_packets, is_whole_plan};
ghost use Rattle.plan_spec.specs.Offered.{Records, offered, offered_in};

/// A plan that nothing changes has one version, itself, to which all records belong; it is a whole plan where it is a plan.
pub fn a_plan_without_changes_has_one_version()
    ensures versions { (plan : PlanFields) → plan.version ≡ 0 → plan.changes ≡ [] → versions plan ≡ 0 ∷ [] }
    ensures plan { (plan : PlanFields) → plan.version ≡ 0 → plan.changes ≡ [] → plan_in plan 0 ≡ plan }
    ensures records { (plan : PlanFields) (records : Records) → plan.version ≡ 0 → plan.changes ≡ [] → records_of_version plan 0 records ≡ records }
    ensures offered { (plan : PlanFields) (records : Records) (k : ℕ) → plan.version ≡ 0 → plan.changes ≡ [] → offered_in plan records 0 k ≡ offered plan records k }
    ensures whole { (plan : PlanFields) → plan.version ≡ 0 → plan.changes ≡ [] → is_plan plan ≡ true → is_whole_plan plan ≡ true }
{}

/// Of a whole plan each version is a plan by itself, and so is the plan as it is written.
pub fn each_version_is_a_plan()
    ensures each { (plan : PlanFields) (version : ℕ) → is_whole_plan plan ≡ true → version ≤ length plan.changes → is_plan (plan_in plan version) ≡ true }
    ensures written { (plan : PlanFields) → is_whole_plan plan ≡ true → is_plan plan ≡ true }
    ensures first { (plan : PlanFields) → is_whole_plan plan ≡ true → plan.version ≡ 0 }
{}

/// A version has the services of the plan, with their names, windows and ISIs: it moves PIDs and rules alone.
pub fn a_version_moves_pids_and_rules_alone()
    ensures count { (plan : PlanFields) (version : ℕ) → length (plan_in plan version).services ≡ length plan.services }
    ensures names { (plan : PlanFields) (version : ℕ) → map (λ (s : ServiceFields). s.name) (plan_in plan version).services ≡ map (λ (s : ServiceFields). s.name) plan.services }
    ensures windows { (plan : PlanFields) (version : ℕ) → sliced (plan_in plan version) ≡ sliced plan }
    ensures isis { (plan : PlanFields) (version : ℕ) → isis (plan_in plan version) ≡ isis plan }
    ensures carrier { (plan : PlanFields) (version : ℕ) → has_wrong_carrier (plan_in plan version) ≡ has_wrong_carrier plan }
{}

/// Where no PID of all services and all versions stands twice, none does in one version, the INT's among them.
pub fn no_pid_stands_twice()
    ensures { (plan : PlanFields) (version : ℕ) → version ≤ length plan.changes → has_pair (λ a b. a == b) (all_pids plan) ≡ false
        → has_pair (λ a b. a == b) (table_pids plan.table ++ service_pids (plan_in plan version)) ≡ false }
{}

/// Windows that hold with the most packets that the INT takes in a version hold in each version with those of its own INT.
pub fn windows_hold_in_each_version()
    ensures { (plan : PlanFields) (version : ℕ) → version ≤ length plan.changes → has_wrong_window (most_table_packets plan) plan ≡ false
        → has_wrong_window (table_packets (plan_in plan version)) (plan_in plan version) ≡ false }
{}
