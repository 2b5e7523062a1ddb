//! Parts: a service whose PID changes has its frames in parts, one after another.
ghost use Rattle.std.specs.Prelude.{◌≡◌, ℕ, ◌+◌, ◌<◌, Bool, ◌||◌, List, ◌++◌, length, nat_lt};
ghost use Rattle.slice_spec.specs.Sections.{Timing, SectionTime};
ghost use Rattle.slice_spec.specs.Frames.{HasTiming};
ghost use Rattle.slice_spec.specs.Bursts.{Slicing, Burst, times_of};

/// Frames that have the timing of a service have it in each of two parts; the frame numbers of the second go on from the first.
pub fn frames_of_parts_have_their_timing()
    ensures front { (timing : Timing) (first : ℕ) (front rest : List (List SectionTime)) → HasTiming timing first (front ++ rest) → HasTiming timing first front }
    ensures rest { (timing : Timing) (first : ℕ) (front rest : List (List SectionTime)) → HasTiming timing first (front ++ rest)
        → HasTiming timing (first + length front) rest }
{}

/// The times of the bursts of two parts are those of all bursts, where those of the first part go on if there are later ones.
pub fn bursts_of_parts_are_those_of_the_whole()
    ensures whole { (s : Slicing) (goes_on : Bool) (front rest : List Burst)
        → times_of s goes_on (front ++ rest) ≡ times_of s (goes_on || nat_lt 0 (length rest)) front ++ times_of s goes_on rest }
{}
