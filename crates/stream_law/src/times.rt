//! Times: a service that moves, tried on two frames.
ghost use Rattle.std.specs.Prelude.{◌≡◌, true, [], ◌∷◌};
ghost use Rattle.ts_spec.specs.Recording.{stamped};
ghost use Rattle.stream_law.specs.Times.{times_over, TimesOfService, frames_that_move};

use slice_law::two_bursts_announce_their_times;

/// Two frames of a service that moves, in windows two seconds apart: the sections of the one, on PID 512, announce the other, on PID 514, and that
/// announces none. They are timed together; the first PID by itself is not, and not the two the other way round.
pub fn frames_that_move_are_timed_together()
    ensures times { times_over (512 ∷ 514 ∷ []) frames_that_move
        ≡ (record { moment = 10000; delta = 200 } ∷ record { moment = 10700; delta = 199 } ∷ []) ∷ (record { moment = 2010000; delta = 0 } ∷ []) ∷ [] }
    ensures together { TimesOfService stamped true (512 ∷ 514 ∷ []) frames_that_move }
    ensures alone { TimesOfService stamped true (512 ∷ []) frames_that_move → ⊥ }
    ensures turned { TimesOfService stamped true (514 ∷ 512 ∷ []) frames_that_move → ⊥ }
{
    two_bursts_announce_their_times();
}
