//! A recording of either carrier -> a capture for each service: files added, written with what the end gives, flushed.
ghost use Rattle.std.specs.Prelude.{◌≡◌};
ghost use Rattle.plan.specs.PlanView.{plan_fields};
ghost use Rattle.recording_reception.specs.Reception.{HasBegun};
ghost use Rattle.receive_command.specs.Receives.{Captures};

use crate::writing::write_pieces;
use capture_files::{ReceiveFault, add_files, flush_files};
use ipe_io::{Failed, Rack, Source};
use plan::Plan;
use recording_reception::Reception;
use std::alloc::Global;
use std::marker::Brand;

/// Adds the files of all services, writes what the recording delivers, its end included, and flushes them.
///
/// Answers how many bytes stood after the last piece. The reception has begun.
pub(crate) fn write_captures<I: Source, R: Rack>(
    alloc: Global,
    plan: &Plan,
    reception: &mut Reception<'_>,
    input: &mut I,
    rack: &mut R,
) -> Result<u32, ReceiveFault>
    requires begun { HasBegun (plan_fields plan.now) reception.old.receiver reception.old.pieces }
    ensures captures { Captures result (plan_fields plan.now) (I.told input.old) (I.told input.new) (R.told rack.old) (R.told rack.new) reception.new.receiver (input.new ≡ input.old) }
{
    let first = add_files(alloc, &plan.services, rack)?;
    let services = plan.services.len() as u32;
    let tail = write_pieces::<I, R, Brand>(plan, reception, input, rack, first)?;
    match flush_files(rack, first, services) {
        Ok(()) => Ok(tail),
        Err(Failed) => Err(ReceiveFault::Rack),
    }
}
