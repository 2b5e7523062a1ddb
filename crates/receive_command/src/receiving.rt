//! The command `receive` for any plan: a recording of transport packets or of baseband frames in, a capture for each service and the report out.
ghost use Rattle.std.specs.Prelude.{◌≡◌, ℕ, ◌≤◌, true, List, length, Some, slice_get};
ghost use Rattle.plan_spec.specs.Plan.{ServiceFields};
ghost use Rattle.plan_spec.specs.Checks.{is_service_name};
ghost use Rattle.plan.specs.PlanView.{plan_fields};
ghost use Rattle.demux_core.specs.Carriers.{plan_of};
ghost use Rattle.recording_reception.specs.Reception.{IsGiven, HasBegun};
ghost use Rattle.receive_command.specs.Report.{IsReport};
ghost use Rattle.receive_command.specs.Receives.{Receives, PutsReport};

use crate::captures::write_captures;
use crate::report::report_of;
use bumpalo::Bump;
use capture_files::ReceiveFault;
use demux_core::Receiver;
use ipe_io::{Failed, Rack, Sink, Source, put_all};
use plan::Plan;
use recording_reception::Reception;
use std::alloc::Global;

/// Receives a recording under a plan, of packets or of frames as the plan says: a capture for each service, `NAME.pcap` in the order of the
/// plan, and the report.
///
/// The input is read to its end. In front of the files nothing is read; after the last record or frame the files get what the end gives and
/// are flushed, and then the report is written.
pub fn receive_recording<I: Source, O: Sink, R: Rack>(
    alloc: Global,
    plan: &Plan,
    input: &mut I,
    output: &mut O,
    rack: &mut R,
) -> Result<(), ReceiveFault>
    ensures receives { Receives result (plan_fields plan.now) (I.told input.old) (I.told input.new) (R.told rack.old) (R.told rack.new) (O.told output.old) (O.told output.new)
        (input.new ≡ input.old) (output.new ≡ output.old) }
{
    let arena = Bump::new(alloc);
    let mut reception = Reception::open(&arena, plan)?;
    write_and_report(alloc, plan, &mut reception, input, output, rack)
}

/// Writes the captures, and then the report. The reception has begun.
fn write_and_report<I: Source, O: Sink, R: Rack>(
    alloc: Global,
    plan: &Plan,
    reception: &mut Reception<'_>,
    input: &mut I,
    output: &mut O,
    rack: &mut R,
) -> Result<(), ReceiveFault>
    requires begun { HasBegun (plan_fields plan.now) reception.old.receiver reception.old.pieces }
    ensures receives { Receives result (plan_fields plan.now) (I.told input.old) (I.told input.new) (R.told rack.old) (R.told rack.new) (O.told output.old) (O.told output.new)
        (input.new ≡ input.old) (output.new ≡ output.old) }
{
    let tail = write_captures(alloc, plan, reception, input, rack)?;
    put_report(alloc, plan, &reception.receiver, tail, output)
}

/// Writes the report and flushes it.
fn put_report<O: Sink>(
    alloc: Global,
    plan: &Plan,
    receiver: &Receiver<'_>,
    tail: u32,
    output: &mut O,
) -> Result<(), ReceiveFault>
    requires same { plan_of receiver.now ≡ plan_fields plan.now }
    requires few { length plan.now.services ≤ 64 }
    requires named { (k : ℕ) (service : ServiceFields) → slice_get (plan_fields plan.now).services k ≡ Some service → is_service_name service.name ≡ true }
    ensures puts { (pieces : List (List ℕ)) → IsGiven true (plan_fields plan.now) pieces receiver.now
        → PutsReport result (IsReport (plan_fields plan.now) pieces tail) (O.told output.old) (O.told output.new) (output.new ≡ output.old) }
{
    let text = report_of(alloc, plan, receiver, tail)?;
    match put_all(output, &text) {
        Ok(()) => {}
        Err(Failed) => return Err(ReceiveFault::Sink),
    }
    match output.flush() {
        Ok(()) => Ok(()),
        Err(Failed) => Err(ReceiveFault::Sink),
    }
}
