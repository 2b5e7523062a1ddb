//! The command `bridge CARRIER`: a capture of Ethernet frames in, the packets or baseband frames that carry them out.
ghost use Rattle.std.specs.Prelude.{◌≡◌, ⊤};
ghost use Rattle.ipe_io.specs.Told.{ShelfTold, RackTold};
ghost use Rattle.ipencap_engine.specs.World.{world, of_objects};
ghost use Rattle.bridge_command.specs.Bridging.{Bridges};
ghost use Rattle.ipencap_engine.specs.Jobs.{to_bridge, bridge_carrier};
ghost use Rattle.ipencap_engine.specs.Words.{HasCarrierPid};
ghost use Rattle.ipencap_engine.specs.Statuses.{outcome_line, status_of};
ghost use Rattle.ipencap_engine.specs.Runs.{Runs};

use crate::status::{Outcome, Status};
use bridge_command::{BridgeTally, bridge_in_pdus, bridge_in_sndus};
use capture_intake::CaptureEnd;
use command_words::Carrier;
use ipe_io::{Sink, Source};
use std::alloc::Global;

/// Writes what carries the Ethernet frames of the capture that is read, of those that have room.
pub fn send_frames<I: Source, O: Sink>(
    alloc: Global,
    carrier: Carrier,
    input: &mut I,
    output: &mut O,
) -> Outcome
    requires { HasCarrierPid carrier }
    ensures { (shelf : ShelfTold) (rack : RackTold) → Runs (to_bridge carrier) (status_of result) (outcome_line result)
        (world shelf (I.told input.old) (O.told output.old) rack) (world shelf (I.told input.new) (O.told output.new) rack)
        (of_objects ⊤ (input.new ≡ input.old) (output.new ≡ output.old) ⊤) }
{
    match bridge_on(alloc, carrier, input, output) {
        CaptureEnd::Done(tally) => Outcome::Bridged(tally),
        CaptureEnd::Capture { fault, place } => Outcome::Faulty { fault, place },
        CaptureEnd::SourceFault => Outcome::Ended(Status::SourceFault),
        CaptureEnd::SinkFault => Outcome::Ended(Status::SinkFault),
        CaptureEnd::OutOfMemory => Outcome::Ended(Status::OutOfMemory),
    }
}

/// Bridges the capture on its carrier.
fn bridge_on<I: Source, O: Sink>(
    alloc: Global,
    carrier: Carrier,
    input: &mut I,
    output: &mut O,
) -> CaptureEnd<BridgeTally>
    requires { HasCarrierPid carrier }
    ensures bridges { Bridges (bridge_carrier carrier) result (I.told input.old) (I.told input.new) (O.told output.old) (O.told output.new) (output.new ≡ output.old) }
{
    match carrier {
        Carrier::Ule(pid) => bridge_in_sndus(alloc, pid, input, output),
        Carrier::Gse(isi) => bridge_in_pdus(alloc, isi, input, output),
    }
}
