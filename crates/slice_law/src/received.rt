//! Receiving: sections of one frame belong together, and those of two do not, whatever was lost between them.
ghost use Rattle.std.specs.Prelude.{◌≡◌, ℕ, ◌+◌, ◌<◌, ◌≤◌, not, List, ◌==◌};
ghost use Rattle.slice_spec.specs.Sections.{indexed, sliced, SectionTime, is_parted, IsShifted};
ghost use Rattle.slice_spec.specs.Frames.{IsOf, IsTimed, IsIndexed};

/// Where a service is timed, a section is separated from one of the same or an earlier frame exactly when they are of two frames.
/// Moments may have been shifted by an interval that all have in common, and frames between may be lost.
pub fn bursts_are_parted_as_received()
    ensures parted { (frames : List (List SectionTime)) (i j : ℕ) (x y a b : SectionTime) → IsOf frames i x → IsOf frames j y → i ≤ j
        → (ten shift : ℕ) → IsTimed ten frames → IsShifted shift a x → IsShifted shift b y → is_parted (sliced ten) a b ≡ not (i == j) }
{}

/// The same without time slicing, of frames that are less than 4,096 apart. Moments may be any.
pub fn frames_are_parted_by_index()
    ensures parted { (frames : List (List SectionTime)) (i j : ℕ) (x y a b : SectionTime) → IsOf frames i x → IsOf frames j y → i ≤ j
        → (first : ℕ) → IsIndexed first frames → j < i + 4096 → a.delta ≡ x.delta → b.delta ≡ y.delta → is_parted indexed a b ≡ not (i == j) }
{}
