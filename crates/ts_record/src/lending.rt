//! Records lent out of the source that holds them.
ghost use Rattle.std.specs.Prelude.{◌≡◌, ℕ, ◌^◌, ◌<◌, true, false, List, IfSome, IfNone, option_map};
ghost use Rattle.std.specs.Borrow.{sem};
ghost use Rattle.std.specs.Io.BufRead.{Rests};
ghost use Rattle.ts_record.specs.Reading.{lent_seen, ReaderOf, LendsRecord};

use crate::RecordReader;
use ipe_io::Source;

/// One record, whose bytes are lent.
#[derive(Clone, Copy, Debug)]
pub struct LentRecord<'s> {
    /// When the packet arrived, as in `Record`.
    pub moment: Option<u64>,
    /// The bytes of the packet.
    pub bytes: &'s [u8; 188],
}

/// Lends the next record out of the source, where that has it in hand, fewer than 2^32 were read, and the reader has not seen the end.
///
/// It reads nothing. After a None, which takes nothing, go on with `RecordReader::next_into`.
pub fn lend_record<'s, S: Source>(
    source: &'s mut S,
    reader: &mut RecordReader,
) -> Option<LentRecord<'s>>
    requires { reader.old.is_open ≡ true }
    ensures few { IfSome result (λ r. reader.old.count < 2 ^ 32) }
    ensures unended { IfSome result (λ r. reader.old.has_ended ≡ false) }
    ensures none { IfNone result (reader.new ≡ reader.old) }
    ensures* after_borrow { sem 𝓛 (Rests S.row source.entry (λ new. (pieces : List (List ℕ)) → ReaderOf reader.old pieces
        → LendsRecord reader.old reader.new (S.told source.old) (S.told new) pieces (option_map lent_seen result))) }
{
    if reader.has_ended() || !reader.has_room() {
        return None;
    }
    let piece = source.lend(reader.record_size())?;
    let Some((stamp, bytes)) = piece.split_last_chunk::<188>() else {
        unreachable!();
    };
    let moment = reader.step(stamp);
    Some(LentRecord { moment, bytes })
}
