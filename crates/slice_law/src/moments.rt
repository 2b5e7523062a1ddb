//! Moments: the records of a sender have those of their slots.
ghost use Rattle.std.specs.Prelude.{◌≡◌, ℕ, ◌+◌, ◌%◌, ◌^◌, ◌<◌, ◌≤◌, List, ◌++◌, map, Some};
ghost use Rattle.std.specs.List.{range_with_len};
ghost use Rattle.std.specs.Int.{w32, w64, to_be_bytes};
ghost use Rattle.ts_spec.specs.Recording.{Record, stamped, m2ts, microseconds, m2ts_stamp, records_of};
ghost use Rattle.slice_spec.specs.Moments.{moment_of};

/// Read as a recording, each record of a sender has the moment of its slot: in an m2ts recording always, and in a stamped one below
/// 2^62 microseconds.
pub fn records_have_the_moments_of_their_slots()
    ensures m2ts { (rate : ℕ) → 0 < rate → (piece : ℕ → List ℕ) (slots : ℕ)
        → ((s : ℕ) → s < slots → m2ts_stamp (piece s) ≡ moment_of m2ts rate s % 2 ^ 30)
        → map (λ (r : Record). r.moment) (records_of m2ts (map piece (range_with_len 0 slots)))
        ≡ map (λ s. Some (moment_of m2ts rate s)) (range_with_len 0 slots) }
    ensures stamped { (rate : ℕ) (piece : ℕ → List ℕ) (slots first : ℕ)
        → ((s : ℕ) → first ≤ s → s < first + slots → (microseconds (piece s) ≡ moment_of stamped rate s) × (moment_of stamped rate s < 2 ^ 62))
        → map (λ (r : Record). r.moment) (records_of stamped (map piece (range_with_len first slots)))
        ≡ map (λ s. Some (moment_of stamped rate s)) (range_with_len first slots) }
{}

/// A stamp is read as it was written: eight bytes of microseconds, or four bytes with 30 bits of ticks.
pub fn stamps_are_read_as_written()
    ensures stamped { (n : ℕ) (packet : List ℕ) → n < 2 ^ 64 → microseconds (to_be_bytes w64 n ++ packet) ≡ n }
    ensures m2ts { (n : ℕ) (packet : List ℕ) → m2ts_stamp (to_be_bytes w32 (n % 2 ^ 30) ++ packet) ≡ n % 2 ^ 30 }
{}
