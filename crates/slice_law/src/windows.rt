//! Windows: which service owns a slot, also under accepted settings.
ghost use Rattle.std.specs.Prelude.{◌≡◌, ◌↔◌, ℕ, ◌+◌, ◌<◌, ◌≤◌, true, List, Some};
ghost use Rattle.std.specs.List.{slice_get};
ghost use Rattle.slice_spec.specs.Windows.{OwnedWindow, owner_of, AreApart};
ghost use Rattle.plan_spec.specs.Plan.{PlanFields, SlicedFields, sliced_of};
ghost use Rattle.plan_spec.specs.Signalling.{table_packets};
ghost use Rattle.plan_spec.specs.Valid.{is_plan};
ghost use Rattle.stream_spec.specs.Services.{kind_at};
ghost use Rattle.stream_spec.specs.Windows.{windows_of};

/// Where no slot is in two windows, the owner of a slot is the one service whose window has it, at this place.
pub fn a_slot_has_one_owner()
    ensures owner { (windows : List OwnedWindow) → AreApart windows → (offset k n : ℕ)
        → (owner_of windows offset ≡ Some (k, n)
        ↔ ((i : ℕ) × (w : OwnedWindow) × (slice_get windows i ≡ Some w) × (w.service ≡ k) × (w.start + n ≡ offset) × (n < w.length))) }
{}

/// No slot is in two windows, each window is after the INT and within the cycle, and the owner of a slot is the one service whose
/// window has it.
pub fn a_slot_of_a_plan_has_one_owner()
    ensures apart { (plan : PlanFields) → is_plan plan ≡ true → AreApart (windows_of plan) }
    ensures inside { (plan : PlanFields) → is_plan plan ≡ true → (k : ℕ) (fields : SlicedFields) → sliced_of (kind_at plan k) ≡ Some fields
        → (table_packets plan ≤ fields.start) × (fields.start + fields.length ≤ plan.cycle) }
    ensures owner { (plan : PlanFields) → is_plan plan ≡ true → (offset k n : ℕ)
        → (owner_of (windows_of plan) offset ≡ Some (k, n)
        ↔ ((fields : SlicedFields) × (sliced_of (kind_at plan k) ≡ Some fields) × (fields.start + n ≡ offset) × (n < fields.length))) }
{}
