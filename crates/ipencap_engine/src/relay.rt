//! The command `relay IN OUT`: two settings files and a recording in, the stream of all that it delivers out.
ghost use Rattle.std.specs.Prelude.{◌≡◌, ⊤};
ghost use Rattle.ipe_io.specs.Told.{RackTold};
ghost use Rattle.ipencap_engine.specs.World.{world, of_objects};
ghost use Rattle.ipencap_engine.specs.Jobs.{to_relay};
ghost use Rattle.ipencap_engine.specs.Statuses.{outcome_line, status_of};
ghost use Rattle.ipencap_engine.specs.Runs.{Runs};

use crate::status::{Outcome, outcome_of};
use ipe_io::{Shelf, Sink, Source};
use relay_command::relay;
use settings_load::load_plan;
use std::alloc::Global;

/// Loads the inner settings, then the outer ones, and writes the stream under the outer plan of all that the recording delivers under the inner.
pub fn relay_recording<S: Shelf, I: Source, O: Sink>(
    alloc: Global,
    inner: &str,
    outer: &str,
    shelf: &mut S,
    input: &mut I,
    output: &mut O,
) -> Outcome
    ensures { (rack : RackTold) → Runs (to_relay inner.now outer.now) (status_of result) (outcome_line result)
        (world (S.told shelf.old) (I.told input.old) (O.told output.old) rack) (world (S.told shelf.new) (I.told input.new) (O.told output.new) rack)
        (of_objects (shelf.new ≡ shelf.old) (input.new ≡ input.old) (output.new ≡ output.old) ⊤) }
{
    let received = match load_plan(alloc, inner, shelf) {
        Ok(plan) => plan,
        Err(error) => return outcome_of(error),
    };
    let sent = match load_plan(alloc, outer, shelf) {
        Ok(plan) => plan,
        Err(error) => return outcome_of(error),
    };
    Outcome::from(relay(alloc, &received, &sent, input, output))
}
