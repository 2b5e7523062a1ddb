//! The moment of a record, from its stamp.
ghost use Rattle.std.specs.Prelude.{◌≡◌, ℕ, ◌+◌, ◌^◌, ◌<◌, ◌≤◌, length, IfSome};
ghost use Rattle.std.specs.Option.{ForSome};
ghost use Rattle.ts_spec.specs.Recording.{stamp_size as size_of_stamp, moment_behind};
ghost use Rattle.ts_record.specs.Reading.{form_of, moment_in};

use ipe_io::Recording;

/// Profile: a stamp in microseconds from here on is no moment.
const NO_MOMENT: u64 = 1 << 62;

/// Arrival times of an m2ts recording go round at this number (30 bits).
const ROUND: u64 = 1 << 30;

/// The bytes of a stamp in microseconds.
const STAMP: usize = 8;

/// The bytes of an m2ts stamp: two bits of copy permission and an arrival time of 30.
const M2TS_STAMP: usize = 4;

/// The bytes before each packet.
pub(crate) fn stamp_size(recording: Recording) -> usize
    ensures size { result ≡ size_of_stamp (form_of recording) }
    ensures most { result ≤ 8 }
{
    match recording {
        Recording::Plain => 0,
        Recording::Stamped => STAMP,
        Recording::M2ts => M2TS_STAMP,
    }
}

/// The moment of the record with this stamp, after one with the moment `before`.
pub(crate) fn moment_of(recording: Recording, before: Option<u64>, stamp: &[u8]) -> Option<u64>
    requires size { length stamp.now ≡ size_of_stamp (form_of recording) }
    requires before { ForSome before (λ m. m ≤ 2 ^ 63) }
    ensures read { result ≡ moment_in (form_of recording) before stamp.now }
    ensures bound { (most : ℕ) → 2 ^ 62 ≤ most → ForSome before (λ m. m ≤ most)
        → IfSome result (λ m. m ≤ most + 2 ^ 30) }
{
    match recording {
        Recording::Plain => Some(0),
        Recording::Stamped => {
            let Some(stamp) = stamp.as_array() else {
                unreachable!();
            };
            let stamp = u64::from_be_bytes(*stamp);
            if stamp < NO_MOMENT { Some(stamp) } else { None }
        }
        Recording::M2ts => {
            let Some(stamp) = stamp.as_array() else {
                unreachable!();
            };
            let stamp = u32::from_be_bytes(*stamp);
            Some(m2ts_moment(before, u64::from(stamp) % ROUND))
        }
    }
}

/// The moment of an m2ts stamp of 30 bits.
fn m2ts_moment(before: Option<u64>, stamp: u64) -> u64
    requires stamp { stamp < 2 ^ 30 }
    requires before { ForSome before (λ m. m ≤ 2 ^ 63) }
    ensures read { result ≡ moment_behind before stamp }
    ensures bound { (most : ℕ) → 2 ^ 30 ≤ most → ForSome before (λ m. m ≤ most) → result ≤ most + 2 ^ 30 }
{
    match before {
        None => stamp,
        Some(before) => before + (stamp + ROUND - before % ROUND) % ROUND,
    }
}
