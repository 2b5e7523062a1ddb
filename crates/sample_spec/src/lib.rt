//! Definitions of a sample: datagrams by draws, a loss by draws, and the summary of what is sent and delivered.
//!
//! Words for contracts, and no code but examples of them. They stand on stream_spec and reception_spec.
//! Standards: RFC 791 section 3.1; all else is our own.
#![tactic(auto)]

ghost use Rattle.std.specs.Prelude.{◌≡◌, [], ◌∷◌, codes};
ghost use Rattle.sample_spec.specs.Draws.{draw_at};
ghost use Rattle.sample_spec.specs.Datagrams.{service_drawn, length_drawn, head_of, bytes_after_head};
ghost use Rattle.sample_spec.specs.Summary.{count_line, service_line};

/// The first draws of two numbers.
pub fn first_draws()
    ensures first { draw_at 1 0 ≡ 1817669548 }
    ensures second { draw_at 1 1 ≡ 2187888307 }
    ensures third { draw_at 1 2 ≡ 2784682393 }
    ensures last_number { draw_at 4294967295 0 ≡ 139003518 }
    ensures after_it { draw_at 4294967295 1 ≡ 3006858072 }
{}

/// The first two datagrams of sample 1: one of 478 bytes for the first service, and one of 1,335 for the second.
pub fn first_datagrams()
    ensures service { service_drawn 1 0 ≡ 0 }
    ensures size { length_drawn 1 0 ≡ 478 }
    ensures next_service { service_drawn 1 1 ≡ 1 }
    ensures next_size { length_drawn 1 1 ≡ 1335 }
    ensures head { head_of 1335 1 ≡ 0x45 ∷ 0 ∷ 5 ∷ 0x37 ∷ 0 ∷ 0 ∷ 0 ∷ 0 ∷ 64 ∷ 17 ∷ 0 ∷ 0 ∷ 10 ∷ 0 ∷ 0 ∷ 1 ∷ 239 ∷ 2 ∷ 0 ∷ 1 ∷ [] }
    ensures bytes { bytes_after_head 254 24 ≡ 254 ∷ 255 ∷ 0 ∷ 1 ∷ [] }
{}

/// Lines of a summary.
pub fn lines_of_a_summary()
    ensures count { count_line (codes "dropped") 898 ≡ codes "dropped 898\n" }
    ensures service { service_line (codes "files") 1963 1694 ≡ codes "files 1963 1694\n" }
{}
