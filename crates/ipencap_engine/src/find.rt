//! The command `find PID`: a plain recording in, the PID of the stream of each rule of its INT out.
ghost use Rattle.std.specs.Prelude.{◌≡◌, ◌≤◌, ⊤};
ghost use Rattle.ipe_io.specs.Told.{ShelfTold, RackTold};
ghost use Rattle.ipencap_engine.specs.World.{world, of_objects};
ghost use Rattle.ipencap_engine.specs.Jobs.{to_find};
ghost use Rattle.ipencap_engine.specs.Statuses.{outcome_line, status_of};
ghost use Rattle.ipencap_engine.specs.Runs.{Runs};

use crate::status::{Outcome, Status};
use find_command::find;
use ipe_io::{Sink, Source};
use std::alloc::Global;

/// Writes where the stream of each rule of the INT on a PID is, as the PAT and the PMTs of a plain recording say.
pub fn find_services<I: Source, O: Sink>(
    alloc: Global,
    pid: u16,
    input: &mut I,
    output: &mut O,
) -> Outcome
    requires { pid ≤ 8190 }
    ensures { (shelf : ShelfTold) (rack : RackTold) → Runs (to_find pid) (status_of result) (outcome_line result)
        (world shelf (I.told input.old) (O.told output.old) rack) (world shelf (I.told input.new) (O.told output.new) rack)
        (of_objects ⊤ (input.new ≡ input.old) (output.new ≡ output.old) ⊤) }
{
    match find(alloc, pid, input, output) {
        Ok(()) => Outcome::Ended(Status::Done),
        Err(fault) => Outcome::Ended(Status::from(fault)),
    }
}
