//! The version in force, record by record.
ghost use Rattle.std.specs.Prelude.{◌≡◌, ℕ, ◌<◌, ◌≤◌, max, false, List, [], ◌∷◌, ◌++◌, length, None, Some, if◌then◌else◌};
ghost use Rattle.std.specs.Option.{option_or};
ghost use Rattle.ts_spec.specs.Recording.{Record};
ghost use Rattle.plan_spec.specs.Plan.{IntFields, PlanFields};
ghost use Rattle.plan_spec.specs.InForce.{version_in, version_behind};
ghost use Rattle.reception_spec.specs.Packets.{is_on};
ghost use Rattle.reception_spec.specs.Table.{is_int_section, table_sections};
ghost use Rattle.reception_spec.specs.Spans.{version_at_place, version_at_end};
ghost use Rattle.reception_spec.specs.Shown.{table_section};
ghost use Rattle.reception_law.specs.InForce.{sections_ended};
ghost use Rattle.reception_law.specs.Shown.{shown_behind};

/// The version in force at a record follows from the records before it. It never falls, and is one of the plan's.
pub fn the_version_in_force_never_falls()
    ensures at_end { (plan : PlanFields) (records : List Record) → version_at_end plan records ≡ version_behind plan (table_sections plan records) }
    ensures before { (plan : PlanFields) (records more : List Record) (place : ℕ) → place ≤ length records
        → version_at_place plan (records ++ more) place ≡ version_at_place plan records place }
    ensures sections { (plan : PlanFields) (records : List Record) (r : Record)
        → table_sections plan (records ++ r ∷ []) ≡ table_sections plan records ++ sections_ended plan records r }
    ensures ended { (plan : PlanFields) (records : List Record) (r : Record) (ended : List (List ℕ))
        → table_sections plan (records ++ r ∷ []) ≡ table_sections plan records ++ ended → sections_ended plan records r ≡ ended }
    ensures behind { (plan : PlanFields) (first second : List (List ℕ)) → version_behind plan (first ++ second) ≡ max (version_behind plan first) (version_behind plan second) }
    ensures more { (plan : PlanFields) (records : List Record) (r : Record)
        → version_at_end plan (records ++ r ∷ []) ≡ max (version_at_end plan records) (version_behind plan (sections_ended plan records r)) }
    ensures rises { (plan : PlanFields) (records : List Record) (place later : ℕ) → place ≤ later
        → version_at_place plan records place ≤ version_at_place plan records later }
    ensures rises_at_end { (plan : PlanFields) (records : List Record) (r : Record) → version_at_end plan records ≤ version_at_end plan (records ++ r ∷ []) }
    ensures most { (plan : PlanFields) (records : List Record) (place : ℕ) → version_at_place plan records place ≤ length plan.changes }
{}

/// Before any record version 0 is in force, and at each record of a plan without an INT or without changes.
pub fn the_first_version_is_in_force_at_first()
    ensures first { (plan : PlanFields) → version_at_end plan [] ≡ 0 }
    ensures without_table { (plan : PlanFields) (records : List Record) (place : ℕ) → plan.table ≡ None → version_at_place plan records place ≡ 0 }
    ensures without_changes { (plan : PlanFields) (records : List Record) (place : ℕ) → plan.changes ≡ [] → version_at_place plan records place ≡ 0 }
{}

/// A record that is no packet of the INT ends none of its sections, and leaves the version in force.
pub fn other_packets_leave_the_version()
    ensures sections { (plan : PlanFields) (int : IntFields) (records : List Record) (r : Record) → plan.table ≡ Some int → is_on int.pid r ≡ false
        → sections_ended plan records r ≡ [] }
    ensures version { (plan : PlanFields) (int : IntFields) (records : List Record) (r : Record) → plan.table ≡ Some int → is_on int.pid r ≡ false
        → version_at_end plan (records ++ r ∷ []) ≡ version_at_end plan records }
{}

/// The section of the INT that a report shows, with one section more: that one, where it raises the version in force; otherwise
/// the one shown before, or at version 0 the first of an INT.
pub fn the_shown_section_comes_section_by_section()
    ensures at_end { (plan : PlanFields) (records : List Record) → table_section plan records ≡ shown_behind plan (table_sections plan records) }
    ensures none { (plan : PlanFields) → shown_behind plan [] ≡ None }
    ensures raised { (plan : PlanFields) (sections : List (List ℕ)) (section : List ℕ) (version : ℕ) → version_in plan section ≡ Some version
        → version_behind plan sections < version → shown_behind plan (sections ++ section ∷ []) ≡ Some section }
    ensures stays { (plan : PlanFields) (sections : List (List ℕ)) (section : List ℕ) → 0 < version_behind plan sections
        → version_behind plan (sections ++ section ∷ []) ≡ version_behind plan sections → shown_behind plan (sections ++ section ∷ []) ≡ shown_behind plan sections }
    ensures first { (plan : PlanFields) (sections : List (List ℕ)) (section : List ℕ) → version_behind plan (sections ++ section ∷ []) ≡ 0
        → shown_behind plan (sections ++ section ∷ [])
        ≡ option_or (shown_behind plan sections) (if is_int_section section then Some section else None) }
{}
