//! The command `send`, after its settings.
ghost use Rattle.std.specs.Prelude.{◌≡◌, ◌≢◌, ℕ, ◌≤◌, List, true, false, Some, None, ◌⊎◌, OnOk};
ghost use Rattle.wire_spec.specs.Causes.{Rose};
ghost use Rattle.wire_spec.specs.Content.{Stays};
ghost use Rattle.ipe_io.specs.Counts.{IsFlushed};
ghost use Rattle.pcap_file.specs.Reader.{is_cut};
ghost use Rattle.plan.specs.PlanView.{plan_fields};
ghost use Rattle.capture_intake.specs.Ends.{OnCapture, is_done, is_whole, is_begun};
ghost use Rattle.datagram_routing.specs.Offering.{IsUnderPlan};
ghost use Rattle.send_command.specs.Gathering.{IsGathered};
ghost use Rattle.send_command.specs.Sending.{Sends, Reads};

use crate::ends::Tally;
use crate::offered::send_offered;
use crate::taker::PlanTaker;
use capture_intake::{CaptureEnd, CaptureReadFault, PlacedFault, read_capture};
use datagram_routing::Offered;
use ipe_io::{Sink, Source};
use mux_core::MuxFault;
use plan::Plan;
use std::alloc::Global;

/// Writes the stream of what the services of a plan take of the capture that is read from `input`, and flushes it.
///
/// The stream is one of transport packets or of baseband frames, as the plan says. Where the capture has a fault, the stream of the records
/// before it is written and flushed, and then the fault is answered. Where the input fails or memory runs out nothing is written.
pub fn send<I: Source, O: Sink>(
    alloc: Global,
    plan: &Plan,
    input: &mut I,
    output: &mut O,
) -> CaptureEnd<Tally>

    // What stands, where the input tells its bytes.
    ensures sent { (bytes : List ℕ) → (I.told input.old).left ≡ Some bytes → Sends (plan_fields plan.now) bytes result (O.told output.old).held (O.told output.new).held }
    ensures flushed { is_whole result ≡ true → IsFlushed (O.told output.new).held (O.told output.new).flushed }
    ensures unflushed { result ≡ CaptureEnd.SinkFault → Stays (O.told output.old).flushed (O.told output.new).flushed }
    ensures unchanged { is_begun result ≡ true ⊎ (output.new ≡ output.old) }

    // What was read of the input.
    ensures reads { Reads result (I.told input.old) (I.told input.new) }
    ensures read { is_done result ≡ true → (I.told input.new).ended ≡ true }
    ensures cut { OnCapture result (λ fault place. is_cut fault ≡ true → (I.told input.new).ended ≡ true) }
    ensures goes_on { result ≡ CaptureEnd.SourceFault → (I.told input.old).ended ≡ false → (I.told input.new).ended ≡ false }

    // It ends at a fault of the input or the output only where that was counted, and no other count changes.
    ensures source { result ≡ CaptureEnd.SourceFault → Rose (I.told input.old).faults (I.told input.new).faults }
    ensures sink { result ≡ CaptureEnd.SinkFault → Rose (O.told output.old).faults (O.told output.new).faults }
    ensures input_kept { result ≢ CaptureEnd.SourceFault → (I.told input.new).faults ≡ (I.told input.old).faults }
    ensures output_kept { result ≢ CaptureEnd.SinkFault → (O.told output.new).faults ≡ (O.told output.old).faults }
{
    let offered = match Offered::new(alloc, plan) {
        Ok(offered) => offered,
        Err(_) => return CaptureEnd::OutOfMemory,
    };
    let mut taker = PlanTaker { plan, offered };
    match read_capture(alloc, input, &mut taker) {
        Ok(found) => write_stream(alloc, plan, &taker.offered, found, output),
        Err(CaptureReadFault::Source) => CaptureEnd::SourceFault,
        Err(CaptureReadFault::OutOfMemory) => CaptureEnd::OutOfMemory,
    }
}

/// Writes the stream of what the records of a capture offered, and flushes it. Then it answers the fault that was found behind them.
fn write_stream<O: Sink>(
    alloc: Global,
    plan: &Plan,
    offered: &Offered,
    found: Option<PlacedFault>,
    output: &mut O,
) -> CaptureEnd<Tally>
    requires offered { IsUnderPlan (plan_fields plan.now) offered.now }
    ensures sent { (bytes : List ℕ) → IsGathered (plan_fields plan.now) bytes offered.now found → Sends (plan_fields plan.now) bytes result (O.told output.old).held (O.told output.new).held }
    ensures flushed { is_whole result ≡ true → IsFlushed (O.told output.new).held (O.told output.new).flushed }
    ensures unchanged { is_begun result ≡ true ⊎ (output.new ≡ output.old) }
    ensures unflushed { result ≡ CaptureEnd.SinkFault → Stays (O.told output.old).flushed (O.told output.new).flushed }
    ensures done { is_done result ≡ true → found ≡ None }
    ensures fault { OnCapture result (λ fault place. found ≡ Some (record { fault = fault; place = place })) }
    ensures source { result ≢ CaptureEnd.SourceFault }
    ensures sink { result ≡ CaptureEnd.SinkFault → Rose (O.told output.old).faults (O.told output.new).faults }
    ensures output_kept { result ≢ CaptureEnd.SinkFault → (O.told output.new).faults ≡ (O.told output.old).faults }
{
    let tally = match send_offered(alloc, plan, offered, output) {
        Ok(tally) => tally,
        Err(MuxFault::Sink) => return CaptureEnd::SinkFault,
        Err(MuxFault::OutOfMemory) => return CaptureEnd::OutOfMemory,
    };
    match found {
        Some(PlacedFault { fault, place }) => CaptureEnd::Capture { fault, place },
        None => CaptureEnd::Done(tally),
    }
}
