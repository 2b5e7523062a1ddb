//! Receiving without time slicing: accepted sections are separated as their frames are, whatever the channel drops, repeats, damages or inserts.
ghost use Rattle.std.specs.Prelude.{◌≡◌, ℕ, ◌+◌, ◌<◌, ◌≤◌, not, List, ◌==◌};
ghost use Rattle.ts_spec.specs.Recording.{Record};
ghost use Rattle.ts_spec.specs.Reassembly.{PlacedUnit};
ghost use Rattle.channel_spec.specs.Channel.{Channel};
ghost use Rattle.channel_spec.specs.Carried.{IsSentUnit};
ghost use Rattle.slice_spec.specs.Sections.{indexed, SectionTime, is_parted};
ghost use Rattle.slice_spec.specs.Frames.{IsIndexed};
ghost use Rattle.slice_law.specs.Carried.{IsNumberedUnit, time_seen};

/// Without time slicing an accepted section is separated from one of the same or an earlier frame exactly when they are of two frames.
/// Both are sections that were sent, of frames that are less than 4,096 apart; stamps may become what they will.
pub fn accepted_sections_are_parted_by_index()
    ensures parted { (pids : List ℕ) (sent recorded : List Record) (channel : Channel pids sent recorded)
        → (pid : ℕ) (units : List (List ℕ)) (begin : ℕ → ℕ) (first : ℕ) (delta_of : List ℕ → ℕ) (frames : List (List SectionTime)) → IsIndexed first frames
        → (a b : PlacedUnit) (n m i j : ℕ) → IsSentUnit channel pid units begin n a → IsSentUnit channel pid units begin m b
        → IsNumberedUnit units delta_of frames n i → IsNumberedUnit units delta_of frames m j → i ≤ j → j < i + 4096
        → is_parted indexed (time_seen delta_of a) (time_seen delta_of b) ≡ not (i == j) }
{}
