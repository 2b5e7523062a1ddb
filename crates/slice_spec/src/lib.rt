//! Definitions of time slicing: moments of slots, delta_t, the sections that belong together, windows and bursts.
//!
//! Words for contracts, and no code but examples of them. They stand on ts_spec.
//! Standard: EN 301 192 clause 9. Windows and what delta_t counts are our own.
#![tactic(auto)]

ghost use Rattle.std.specs.Prelude.{◌≡◌, true, false, Some, None};
ghost use Rattle.ts_spec.specs.Recording.{stamped, m2ts};
ghost use Rattle.slice_spec.specs.Moments.{moment_of};
ghost use Rattle.slice_spec.specs.Sections.{indexed, sliced, tens_between, belongs};
ghost use Rattle.slice_spec.specs.Bursts.{delta_to_next};

/// Whole tens of milliseconds, rounded down.
pub fn tens_of_milliseconds()
    ensures below { tens_between 0 9999 10000 ≡ 0 }
    ensures one { tens_between 0 10000 10000 ≡ 1 }
    ensures most { tens_between 5 40960004 10000 ≡ 4095 }
{}

/// Slot 1,201 at 10,000 packets per second.
pub fn moments_of_a_slot()
    ensures stamped { moment_of stamped 10000 1201 ≡ 120100 }
    ensures m2ts { moment_of m2ts 10000 1201 ≡ 3242700 }
{}

/// In a cycle of two seconds, delta_t is 200 in a section that begins in packet 0 of a burst, and 199 in one that begins in packet 7.
pub fn announced_times()
    ensures first { delta_to_next (record { form = stamped; rate = 10000; cycle = 20000; start = 100; length = 1500 }) 0 0 ≡ 200 }
    ensures seventh { delta_to_next (record { form = stamped; rate = 10000; cycle = 20000; start = 100; length = 1500 }) 0 7 ≡ 199 }
    ensures ticks { delta_to_next (record { form = m2ts; rate = 10000; cycle = 20000; start = 100; length = 1500 }) 3 7 ≡ 199 }
{}

/// The next burst begins at the announced moment and not one unit before; without time slicing the number of the frame decides.
pub fn sections_that_belong_together()
    ensures before { belongs (sliced 10000) (Some (record { moment = 5; delta = 2 })) (record { moment = 20004; delta = 7 }) ≡ true }
    ensures announced { belongs (sliced 10000) (Some (record { moment = 5; delta = 2 })) (record { moment = 20005; delta = 7 }) ≡ false }
    ensures none_announced { belongs (sliced 10000) (Some (record { moment = 5; delta = 0 })) (record { moment = 20005; delta = 7 }) ≡ true }
    ensures none_seen { belongs (sliced 10000) None (record { moment = 20005; delta = 7 }) ≡ true }
    ensures same { belongs indexed (Some (record { moment = 5; delta = 4095 })) (record { moment = 20005; delta = 4095 }) ≡ true }
    ensures other { belongs indexed (Some (record { moment = 5; delta = 4095 })) (record { moment = 5; delta = 0 }) ≡ false }
{}
