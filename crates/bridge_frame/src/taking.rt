//! The bridge as a taker of the records of a recording, into an outlet. Baseband frames are the records of a plain recording.

use crate::bridge::Bridge;
use ipe_io::{Failed, Outlet};
use recording_reader::Taker;
use std::alloc::Allocator;

impl<A: Allocator, T: Outlet> Taker<T> for Bridge<A> {
    ghost use Rattle.std.specs.Prelude.{◌≡◌, ◌<◌, ◌-◌, ◌^◌, true, is_some};
    ghost use Rattle.bridge_frame.specs.Taking.{TakesSize, TookRecords, StoppedInRecord};
    ghost use Rattle.bridge_frame.specs.Untaken.{took_no_record};

    ghost room = { λ bridge. 2 ^ 32 - bridge.taken };

    ghost Ready = { λ bridge outlet size. TakesSize bridge size × (is_some bridge.id ≡ true) × (0 < T.services outlet) };

    ghost Took = { λ start begun bridge outlet records.
        TookRecords start bridge (T.StandsFor begun) (T.StandsFor outlet) (T.faults begun) (T.faults outlet) records };

    ghost Stopped = { λ start begun bridge outlet records.
        StoppedInRecord start bridge (T.StandsFor begun) (T.StandsFor outlet) (T.Refused outlet) (T.faults begun) (T.faults outlet) records };

    ghost Keeps = { λ start bridge. bridge.id ≡ start.id };

    ghost took_none = { λ start begun. took_no_record start (T.StandsFor begun) (T.faults begun) };

    fn take(&mut self, moment: Option<u64>, bytes: &[u8], into: &mut T) -> Result<(), Failed> {
        if !self.takes_packets() {
            return match self.step_frame(bytes, into) {
                Ok(()) => Ok(()),
                Err(Failed) => Err(Failed),
            };
        }
        let Some((_, packet)) = bytes.split_last_chunk::<188>() else {
            unreachable!();
        };
        match self.step_record(moment, packet, into) {
            Ok(()) => Ok(()),
            Err(Failed) => Err(Failed),
        }
    }
}
