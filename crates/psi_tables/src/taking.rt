//! The finder as a taker of the records of a recording, which hands on nothing.

use crate::finder::Finder;
use ipe_io::Failed;
use recording_reader::Taker;

impl Taker<()> for Finder {
    ghost use Rattle.std.specs.Prelude.{◌≡◌, ◌^◌, true};
    ghost use Rattle.psi_tables.specs.Taking.{TookRecords, StoppedAtPat};
    ghost use Rattle.psi_tables.specs.Untaken.{took_no_record};

    ghost room = { λ finder. 2 ^ 32 };

    ghost Ready = { λ finder nothing size. (size ≡ 188) × (finder.is_open ≡ true) };

    ghost Took = { λ start begun finder nothing records. TookRecords start finder records };

    ghost Stopped = { λ start begun finder nothing records. StoppedAtPat start finder records };

    ghost Keeps = { λ start finder. finder.pid ≡ start.pid };

    ghost took_none = { λ start begun. took_no_record start };

    fn take(&mut self, moment: Option<u64>, bytes: &[u8], into: &mut ()) -> Result<(), Failed> {
        let Some((_, packet)) = bytes.split_last_chunk::<188>() else {
            unreachable!();
        };
        match self.step_record(moment, packet) {
            Ok(()) => Ok(()),
            Err(_) => Err(Failed),
        }
    }
}
