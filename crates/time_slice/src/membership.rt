//! Membership: whether a section belongs to the frame of the one seen last. Sections come in with their moments.
ghost use Rattle.std.specs.Prelude.{◌≡◌, Some};
ghost use Rattle.slice_spec.specs.Sections.{belongs, is_of_next_burst};
ghost use Rattle.time_slice.specs.Views.{none_seen, with_seen, time_of, timing_of};
ghost use Rattle.time_slice.specs.Kept.{last_in, at};

use mpe_section::RealTime;
use std::marker::Model;

/// The section seen last.
#[derive(Clone, Copy, Debug)]
struct Last {
    moment: u64,
    delta: u16,
}

/// Separates the sections of one frame from those of another: by the announced moment, or by the number of the frame.
#[derive(Drop)]
pub struct Membership {
    sliced: bool,
    ten: u64,
    last: Option<Last>,
}

impl Model for Membership {
    ghost use Rattle.std.specs.Prelude.{option_map};
    ghost use Rattle.time_slice.specs.Views.{Seen, timing_of};
    ghost use Rattle.time_slice.specs.Kept.{last_in};

    ghost Value = { Seen };

    ghost view = { λ m. record { timing = timing_of m.sliced m.ten; last = option_map last_in m.last } };
}

impl Membership {
    /// Of a service with time slicing (`sliced`) or without, of which no section was seen.
    ///
    /// `ten` is ten milliseconds in the unit of the moments. Without time slicing it has no effect.
    pub fn new(sliced: bool, ten: u64) -> Membership
        ensures none { result ≡ none_seen (timing_of sliced ten) }
    {
        Membership {
            sliced,
            ten,
            last: None,
        }
    }

    /// Whether by its time a section may belong to the frame of the one seen last; what the frame holds decides the rest. Where none was
    /// seen, any may.
    ///
    /// `moment` is the arrival time of the packet with the section's first byte.
    pub fn belongs(&self, moment: u64, real_time: &RealTime) -> bool
        ensures belongs { result ≡ belongs self.now.timing self.now.last (time_of moment real_time.now) }
    {
        let Some(last) = self.last else {
            return true;
        };
        if self.sliced {
            !is_of_next_burst(self.ten, last, moment)
        } else {
            last.delta == real_time.delta
        }
    }

    /// This section is now the one seen last.
    pub fn see(&mut self, moment: u64, real_time: &RealTime)
        ensures seen { self.new ≡ with_seen self.old.timing (time_of moment real_time.now) }
    {
        self.last = Some(Last {
            moment,
            delta: real_time.delta,
        });
    }

    /// No section was seen, as after `new`.
    pub fn forget(&mut self)
        ensures none { self.new ≡ none_seen self.old.timing }
    {
        self.last = None;
    }
}

/// Whether the burst has begun at `moment` that the section seen last announced.
fn is_of_next_burst(ten: u64, last: Last, moment: u64) -> bool
    ensures next { result ≡ is_of_next_burst ten (last_in last) (at moment) }
{
    if last.delta == 0 || moment < last.moment {
        return false;
    }
    match ten.checked_mul(u64::from(last.delta)) {
        Some(wait) => moment - last.moment >= wait,
        None => false,
    }
}
