//! Records of a stream in memory: 196 bytes of a stamped recording -> the arrival time and the packet.
ghost use Rattle.std.specs.Prelude.{◌≡◌};
ghost use Rattle.ts_spec.specs.Recording.{stamped_record};
ghost use Rattle.ts_record.specs.Reading.{lent_seen};

use ts_record::LentRecord;

/// The bytes of a record: those of its stamp, and those of its packet.
pub(crate) const RECORD: usize = 196;

// The bytes of a stamp in microseconds.
const STAMP: usize = 8;

/// Profile: a stamp in microseconds from here on is no moment.
const NO_MOMENT: u64 = 1 << 62;

/// The record that lies in these bytes.
pub(crate) fn record_in(bytes: &[u8; RECORD]) -> LentRecord<'_>
    ensures read { lent_seen result ≡ stamped_record bytes.now }
{
    let Some((stamp, packet)) = bytes.split_first_chunk::<STAMP>() else {
        unreachable!();
    };
    let Some(packet) = packet.as_array() else {
        unreachable!();
    };
    let stamp = u64::from_be_bytes(*stamp);
    let moment = if stamp < NO_MOMENT { Some(stamp) } else { None };
    LentRecord {
        moment,
        bytes: packet,
    }
}
