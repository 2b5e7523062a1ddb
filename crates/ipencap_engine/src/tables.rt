//! The command `tables SETTINGS`: a settings file in, the packets of the tables that name its services out.
ghost use Rattle.std.specs.Prelude.{◌≡◌, ⊤};
ghost use Rattle.ipe_io.specs.Told.{InputTold, RackTold};
ghost use Rattle.ipencap_engine.specs.World.{world, of_objects};
ghost use Rattle.ipencap_engine.specs.Jobs.{to_tables};
ghost use Rattle.ipencap_engine.specs.Statuses.{outcome_line, status_of};
ghost use Rattle.ipencap_engine.specs.Runs.{Runs};

use crate::status::{Outcome, Status, outcome_of};
use ipe_io::{Shelf, Sink};
use settings_load::load_plan;
use std::alloc::Global;
use tables_command::write_tables;

/// Loads the settings, and writes the PAT, the PMTs and the INT of the plan that they give.
pub fn write_plan_tables<S: Shelf, O: Sink>(
    alloc: Global,
    name: &str,
    shelf: &mut S,
    output: &mut O,
) -> Outcome
    ensures { (input : InputTold) (rack : RackTold) → Runs (to_tables name.now) (status_of result) (outcome_line result)
        (world (S.told shelf.old) input (O.told output.old) rack) (world (S.told shelf.new) input (O.told output.new) rack)
        (of_objects (shelf.new ≡ shelf.old) ⊤ (output.new ≡ output.old) ⊤) }
{
    let plan = match load_plan(alloc, name, shelf) {
        Ok(plan) => plan,
        Err(error) => return outcome_of(error),
    };
    match write_tables(alloc, &plan, output) {
        Ok(()) => Outcome::Ended(Status::Done),
        Err(fault) => Outcome::Ended(Status::from(fault)),
    }
}
