//! The numbers of a whole recording, frame by frame.
ghost use Rattle.std.specs.Prelude.{◌≡◌, ℕ, ◌+◌, ◌&&◌, List, [], ◌∷◌, ◌++◌, if◌then◌else◌};
ghost use Rattle.plan_spec.specs.Plan.{PlanFields, isis};
ghost use Rattle.gse_spec.specs.Frame.{is_frame};
ghost use Rattle.gse_spec.specs.Received.{is_foreign};
ghost use Rattle.bb_reception_spec.specs.Numbers.{recording_numbers};

/// One frame more is counted once: as refused, as one of an ISI that no service has, or as neither.
pub fn recordings_are_counted_frame_by_frame()
    ensures none { (plan : PlanFields) → recording_numbers plan [] ≡ record { frames = 0; unreadable = 0; other = 0 } }
    ensures more { (plan : PlanFields) (frames : List (List ℕ)) (b : List ℕ) → recording_numbers plan (frames ++ b ∷ []) ≡ record {
      frames = (recording_numbers plan frames).frames + 1;
      unreadable = (recording_numbers plan frames).unreadable + (if is_frame b then 0 else 1);
      other = (recording_numbers plan frames).other + (if is_frame b && is_foreign (isis plan) b then 1 else 0);
    } }
{}
