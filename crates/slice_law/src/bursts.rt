//! Sending: the bursts of a sliced service are timed, also those of accepted settings.
ghost use Rattle.std.specs.Prelude.{◌≡◌, ◌↔◌, ℕ, ◌+◌, ◌*◌, ◌^◌, ◌<◌, ◌≤◌, true, false, List, [], ◌∷◌, ◌++◌, length, Contains, Some};
ghost use Rattle.std.specs.List.{slice_get};
ghost use Rattle.ts_spec.specs.Recording.{stamped};
ghost use Rattle.slice_spec.specs.Moments.{ten, moment_of};
ghost use Rattle.slice_spec.specs.Sections.{SectionTime};
ghost use Rattle.slice_spec.specs.Frames.{IsOf, IsTimed};
ghost use Rattle.slice_spec.specs.Bursts.{Slicing, Burst, slot_of, moment_in, times_of, AreInWindows, IsSliceable};
ghost use Rattle.slice_law.specs.Cycles.{bursts_from};
ghost use Rattle.plan_spec.specs.Plan.{PlanFields, SlicedFields, sliced_of};
ghost use Rattle.plan_spec.specs.Valid.{is_plan};
ghost use Rattle.stream_spec.specs.Services.{kind_at};
ghost use Rattle.slice_law.specs.Plans.{slicing_of};

/// The bursts of a service are timed, in each form of recording, for each rate, cycle and window that leave a gap of ten milliseconds;
/// delta_t fits 12 bits, and is 0 in the last frame alone.
pub fn bursts_are_timed()
    ensures timed { (s : Slicing) → IsSliceable s → (bursts : List Burst) → AreInWindows s bursts → IsTimed (ten s.form) (times_of s false bursts) }
    ensures last { (s : Slicing) → IsSliceable s → (bursts : List Burst) → AreInWindows s bursts
        → (i : ℕ) (x : SectionTime) → IsOf (times_of s false bursts) i x → (x.delta ≡ 0 ↔ length bursts ≡ i + 1) }
    ensures fits { (s : Slicing) → IsSliceable s → (bursts : List Burst) → AreInWindows s bursts
        → (i : ℕ) (x : SectionTime) → IsOf (times_of s false bursts) i x → x.delta < 2 ^ 12 }
{}

/// From each packet of a burst to the window in the next cycle it is ten milliseconds at least, and less than 4,096 tens of them; so it
/// is from the end of a window.
pub fn windows_leave_gaps()
    ensures gap { (s : Slicing) → IsSliceable s → (c n : ℕ) → n < s.length → moment_in s c n + ten s.form ≤ moment_in s (c + 1) 0 }
    ensures most { (s : Slicing) → IsSliceable s → (c n : ℕ) → moment_in s (c + 1) 0 < moment_in s c n + 4096 * ten s.form }
    ensures end { (s : Slicing) → IsSliceable s → (c : ℕ)
        → moment_of s.form s.rate (slot_of s c s.length) + ten s.form ≤ moment_in s (c + 1) 0 }
{}

/// Bursts in cycles that follow one another lie in the windows of rising cycles where each frame is as short as the window; and so do
/// those of two parts, where the second has later cycles.
pub fn bursts_lie_in_windows()
    ensures row { (s : Slicing) (c : ℕ) (frames : List (List ℕ))
        → ((places : List ℕ) (place : ℕ) → Contains frames places → Contains places place → place < s.length) → AreInWindows s (bursts_from c frames) }
    ensures parts { (s : Slicing) (front rest : List Burst) → AreInWindows s front → AreInWindows s rest
        → ((i j : ℕ) (a b : Burst) → slice_get front i ≡ Some a → slice_get rest j ≡ Some b → a.cycle < b.cycle) → AreInWindows s (front ++ rest) }
{}

/// Two bursts at 10,000 packets per second in a window from slot 100 of a cycle of 20,000: two sections announce the second burst, and
/// the section of that announces none.
pub fn two_bursts_announce_their_times()
    ensures sliceable { IsSliceable (record { form = stamped; rate = 10000; cycle = 20000; start = 100; length = 1500 }) }
    ensures times { times_of (record { form = stamped; rate = 10000; cycle = 20000; start = 100; length = 1500 }) false (bursts_from 0 ((0 ∷ 7 ∷ []) ∷ (0 ∷ []) ∷ []))
        ≡ (record { moment = 10000; delta = 200 } ∷ record { moment = 10700; delta = 199 } ∷ []) ∷ (record { moment = 2010000; delta = 0 } ∷ []) ∷ [] }
{}

/// The bursts of each sliced service are timed, in each form of recording, for all packet rates, cycles and windows that the checks
/// accept. From each packet of a window the next one is as near as delta_t needs it.
pub fn bursts_of_a_plan_are_timed()
    ensures sliceable { (plan : PlanFields) → is_plan plan ≡ true → (k : ℕ) (fields : SlicedFields) → sliced_of (kind_at plan k) ≡ Some fields
        → IsSliceable (slicing_of plan fields) }
    ensures timed { (plan : PlanFields) → is_plan plan ≡ true → (k : ℕ) (fields : SlicedFields) → sliced_of (kind_at plan k) ≡ Some fields
        → (bursts : List Burst) → AreInWindows (slicing_of plan fields) bursts → IsTimed (ten plan.recording) (times_of (slicing_of plan fields) false bursts) }
    ensures near { (plan : PlanFields) → is_plan plan ≡ true → (k : ℕ) (fields : SlicedFields) → sliced_of (kind_at plan k) ≡ Some fields
        → (c n : ℕ) → n < fields.length
        → (moment_in (slicing_of plan fields) c n + ten plan.recording ≤ moment_in (slicing_of plan fields) (c + 1) 0)
        × (moment_in (slicing_of plan fields) (c + 1) 0 < moment_in (slicing_of plan fields) c n + 4096 * ten plan.recording) }
{
    bursts_are_timed();
    windows_leave_gaps();
}
