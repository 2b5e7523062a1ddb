//! A slot -> the time stamp of its record, where records have one.
ghost use Rattle.std.specs.Prelude.{◌≡◌, ◌≤◌, ◌<◌, ◌++◌, length, drop};
ghost use Rattle.stream_spec.specs.Parts.{stamp_bytes};
ghost use Rattle.ts_spec.specs.Recording.{stamped, m2ts};
ghost use Rattle.plan.specs.Parts.{form_of};

use byte_slices::put;
use ipe_io::Recording;

/// Bytes of the stamp of a stamped record: its time in microseconds.
const STAMP: usize = 8;

/// Bytes of the stamp of an m2ts record: the copy permission in 2 bits, and its time in 30.
const M2TS_STAMP: usize = 4;

/// Microseconds in a second.
const MICROS: u128 = 1_000_000;

/// Units of 27 MHz in a second (ISO/IEC 13818-1 clause 2.4.2.1).
const TICKS: u128 = 27_000_000;

/// Values of the 30 bits of the time in an m2ts record.
const TICK_VALUES: u128 = 1 << 30;

/// Values of 64 bits.
const MICRO_VALUES: u128 = 1 << 64;

/// The whole microseconds from the first slot to this one.
fn micros_of(packet_rate: u32, slot: u64) -> [u8; 8]
    requires { 0 < packet_rate }
    ensures { result ≡ stamp_bytes stamped packet_rate slot }
{
    let micros = u128::from(slot) * MICROS / u128::from(packet_rate);
    let stamp = (micros % MICRO_VALUES) as u64;
    stamp.to_be_bytes()
}

/// The time at 27 MHz from the first slot to this one.
fn ticks_of(packet_rate: u32, slot: u64) -> [u8; 4]
    requires { 0 < packet_rate }
    ensures { result ≡ stamp_bytes m2ts packet_rate slot }
{
    let ticks = u128::from(slot) * TICKS / u128::from(packet_rate);
    let stamp = (ticks % TICK_VALUES) as u32;
    stamp.to_be_bytes()
}

/// Writes the stamp of a slot's record to the front of `into`, and answers its length: 0, 4 or 8 bytes.
pub(crate) fn write_stamp(
    recording: Recording,
    packet_rate: u32,
    slot: u64,
    into: &mut [u8],
) -> usize
    requires rate { 0 < packet_rate }
    requires room { 8 ≤ length into.old }
    ensures size { result ≡ length (stamp_bytes (form_of recording) packet_rate slot) }
    ensures most { result ≤ 8 }
    ensures written { into.new ≡ stamp_bytes (form_of recording) packet_rate slot ++ drop result into.old }
{
    match recording {
        Recording::Plain => 0,
        Recording::Stamped => {
            put(into, 0, &micros_of(packet_rate, slot));
            STAMP
        }
        Recording::M2ts => {
            put(into, 0, &ticks_of(packet_rate, slot));
            M2TS_STAMP
        }
    }
}
