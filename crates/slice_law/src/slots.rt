//! Slots: the packets of a sliced service go out in its windows, in order and each once.
ghost use Rattle.std.specs.Prelude.{◌≡◌, ℕ, ◌+◌, ◌*◌, ◌<◌, ◌≤◌, true, false, List, length, map, sum, slice_index, filter_map, Some, None};
ghost use Rattle.std.specs.List.{range_with_len};
ghost use Rattle.plan_spec.specs.Plan.{PlanFields, SlicedFields, sliced_of};
ghost use Rattle.plan_spec.specs.Signalling.{table_packets};
ghost use Rattle.plan_spec.specs.Valid.{is_plan};
ghost use Rattle.stream_spec.specs.Services.{kind_at};
ghost use Rattle.stream_spec.specs.Slots.{Slot, of_service, is_of_service, slot_at};
ghost use Rattle.stream_spec.specs.Windows.{windows_of, out_before, kept_for_bursts};
ghost use Rattle.slice_law.specs.Kept.{number_of, AreWithin};

/// Accepted settings, bursts that are no longer than their window, and a service of which no packet goes out in rotation: packet n of a
/// burst stands in slot n of the window of its cycle, and the slots of whole cycles carry all packets of the bursts, in order and each
/// once.
pub fn bursts_go_out_in_their_windows()
    ensures there { (plan : PlanFields) → is_plan plan ≡ true → (k : ℕ) (fields : SlicedFields) → sliced_of (kind_at plan k) ≡ Some fields
        → (sizes : ℕ → List ℕ) → ((c : ℕ) → slice_index (sizes k) c ≤ fields.length) → (c n : ℕ) → n < slice_index (sizes k) c
        → kept_for_bursts plan.cycle (table_packets plan) (windows_of plan) sizes (c * plan.cycle + fields.start + n) ≡ Some (of_service k (out_before (sizes k) c + n)) }
    ensures order { (plan : PlanFields) → is_plan plan ≡ true → (k : ℕ) (fields : SlicedFields) → sliced_of (kind_at plan k) ≡ Some fields
        → (sizes : ℕ → List ℕ) → ((c : ℕ) → slice_index (sizes k) c ≤ fields.length) → (packets : List ℕ) → slice_index packets k ≡ 0
        → (c : ℕ) → length (sizes k) ≤ c
        → filter_map (number_of k) (map (slot_at (kept_for_bursts plan.cycle (table_packets plan) (windows_of plan) sizes) packets) (range_with_len 0 (c * plan.cycle)))
        ≡ range_with_len 0 (sum (sizes k)) }
{}

/// Accepted settings: after every slot there is one that is kept for nothing; after the cycles of all bursts none is kept for a service;
/// and none is ever kept for a service that is not sliced.
pub fn bursts_leave_slots()
    ensures leaves { (plan : PlanFields) → is_plan plan ≡ true → (sizes : ℕ → List ℕ) (cycles : ℕ) → AreWithin cycles sizes
        → (s : ℕ) → (free : ℕ) × (s ≤ free) × (kept_for_bursts plan.cycle (table_packets plan) (windows_of plan) sizes free ≡ None) }
    ensures over { (plan : PlanFields) → is_plan plan ≡ true → (sizes : ℕ → List ℕ) (cycles : ℕ) → AreWithin cycles sizes
        → (s : ℕ) (slot : Slot) → cycles * plan.cycle ≤ s → kept_for_bursts plan.cycle (table_packets plan) (windows_of plan) sizes s ≡ Some slot → is_of_service slot ≡ false }
    ensures unsliced { (plan : PlanFields) → is_plan plan ≡ true → (sizes : ℕ → List ℕ) (k : ℕ) → sliced_of (kind_at plan k) ≡ None → (s n : ℕ) → kept_for_bursts plan.cycle (table_packets plan) (windows_of plan) sizes s ≡ Some (of_service k n) → ⊥ }
{}
