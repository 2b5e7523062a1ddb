//! When the bursts of a service go out, and the delta_t of their sections.
ghost use Rattle.std.specs.Prelude.{◌≡◌};
ghost use Rattle.slice_spec.specs.Moments.{ten, units_per_second};
ghost use Rattle.plan.specs.Parts.{form_of};

use ipe_io::Recording;
use plan::ten_milliseconds;
use slice_law::windows_leave_gaps;
use time_slice::delta;

/// When the bursts of a service go out in one part of a stream: the first in the window of the part's first cycle, each other one in the
/// window of the next cycle.
#[derive(Clone, Copy)]
pub struct Timing {
    pub recording: Recording,
    /// Packets in a second.
    pub packet_rate: u32,
    /// Slots in a cycle.
    pub cycle: u32,
    /// The window: its first slot in each cycle, and how many slots it has.
    pub start: u32,
    pub length: u32,
    /// Slots of the stream before the part.
    pub slots_before: u64,
    /// Whether the service has frames in a later part.
    pub goes_on: bool,
}

/// Units of time in a second.
fn units_in_second(recording: Recording) -> u32
    ensures { result ≡ units_per_second (form_of recording) }
{
    match recording {
        Recording::Plain | Recording::Stamped => 1_000_000,
        Recording::M2ts => 27_000_000,
    }
}

impl Timing {
    ghost use Rattle.std.specs.Prelude.{◌≡◌, ◌^◌, ◌<◌, ◌≤◌};
    ghost use Rattle.slice_spec.specs.Bursts.{IsSliceable};
    ghost use Rattle.stream_spec.specs.Units.{burst_moment, delta_after as delta_from};
    ghost use Rattle.burst_packets.specs.Timing.{schedule_in, slicing_in, window_in};

    /// The moment of a packet of the burst of a cycle: it may not fit 64 bits.
    fn moment(&self, cycle: u128, packet: u64) -> u128
        requires rate { 0 < self.now.packet_rate }
        requires cycle { cycle ≤ 2 ^ 64 }
        ensures read { result ≡ burst_moment (schedule_in 0 self.now) (window_in self.now) cycle packet }
    {
        let slot = cycle * u128::from(self.cycle) + u128::from(self.start) + u128::from(packet);
        let units = u128::from(units_in_second(self.recording));
        (u128::from(self.slots_before) + slot) * units / u128::from(self.packet_rate)
    }

    /// The time from a packet of the burst of a cycle to the window of the next cycle, in whole tens of milliseconds.
    pub(crate) fn delta_after(&self, cycle: u64, packet: u64) -> u16
        requires sliceable { IsSliceable (slicing_in self.now) }
        ensures read { result ≡ delta_from (schedule_in 0 self.now) (window_in self.now) cycle packet }
        ensures fits { result < 4096 }
    {
        windows_leave_gaps();
        let now = self.moment(u128::from(cycle), packet);
        let next = self.moment(u128::from(cycle) + 1, 0);
        let ten = u64::from(ten_milliseconds(self.recording));
        delta(0, next.saturating_sub(now) as u64, ten)
    }
}
