//! delta_t (EN 301 192 clause 9): two moments come in, and the whole tens of milliseconds between them go out.
ghost use Rattle.std.specs.Prelude.{◌≡◌, ◌+◌, ◌*◌, ◌^◌, ◌<◌, ◌≤◌};
ghost use Rattle.slice_spec.specs.Sections.{tens_between};

/// The whole tens of milliseconds from one moment to a later one: below 4,096, since delta_t has 12 bits.
///
/// `ten` is ten milliseconds in the unit of the moments: 10,000 microseconds, or 270,000 ticks of an m2ts recording.
pub fn delta(now: u64, next: u64, ten: u64) -> u16
    requires order { now ≤ next }
    requires near { next < now + 4096 * ten }
    ensures tens { result ≡ tens_between now next ten }
    ensures fits { result < 2 ^ 12 }
{
    ((next - now) / ten) as u16
}
