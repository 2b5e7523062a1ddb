//! The whole command: a plan -> its tables, written.
ghost use Rattle.std.specs.Prelude.{◌≡◌};
ghost use Rattle.plan.specs.PlanView.{plan_fields};
ghost use Rattle.tables_command.specs.Writing.{WritesTables};

use crate::recording::recording_of;
use ipe_io::{Failed, Sink, put_all};
use plan::Plan;
use std::alloc::Global;

/// Why tables were not written.
#[derive(Clone, Copy, Debug, PartialEq, Eq)]
pub enum TablesFault {
    /// The output could not be written.
    Sink,
    /// Out of memory: nothing was written.
    OutOfMemory,
}

/// Writes a plain recording of the PAT, of the PMT of each program and of the INT of a plan as it is before any change, each once, and
/// flushes it. Without an INT it writes nothing.
pub fn write_tables<O: Sink>(alloc: Global, plan: &Plan, output: &mut O) -> Result<(), TablesFault>
    ensures writes { WritesTables result (plan_fields plan.now) (O.told output.old) (O.told output.new) (output.new ≡ output.old) }
{
    let Ok(packets) = recording_of(alloc, plan) else {
        return Err(TablesFault::OutOfMemory);
    };
    match put_all(output, &packets) {
        Ok(()) => {}
        Err(Failed) => return Err(TablesFault::Sink),
    }
    match output.flush() {
        Ok(()) => Ok(()),
        Err(Failed) => Err(TablesFault::Sink),
    }
}
