//! The command `unbridge CARRIER`: a recording in, the file `bridge.pcap` of its Ethernet frames out.
ghost use Rattle.std.specs.Prelude.{◌≡◌, ⊤};
ghost use Rattle.ipe_io.specs.Told.{ShelfTold, OutputTold};
ghost use Rattle.ipencap_engine.specs.World.{world, of_objects};
ghost use Rattle.unbridge_command.specs.Unbridging.{Unbridges};
ghost use Rattle.ipencap_engine.specs.Jobs.{to_unbridge, bridge_carrier};
ghost use Rattle.ipencap_engine.specs.Words.{HasCarrierPid};
ghost use Rattle.ipencap_engine.specs.Statuses.{outcome_line, status_of};
ghost use Rattle.ipencap_engine.specs.Runs.{Runs};

use crate::status::{Outcome, Status};
use capture_files::ReceiveFault;
use command_words::Carrier;
use ipe_io::{Rack, Source};
use std::alloc::Global;
use unbridge_command::{unbridge_pdus, unbridge_sndus};

/// Writes the Ethernet frames that are received of a recording, of SNDUs on a PID or of PDUs on an ISI, to `bridge.pcap`.
pub fn receive_frames<I: Source, R: Rack>(
    alloc: Global,
    carrier: Carrier,
    input: &mut I,
    rack: &mut R,
) -> Outcome
    requires { HasCarrierPid carrier }
    ensures { (shelf : ShelfTold) (output : OutputTold) → Runs (to_unbridge carrier) (status_of result) (outcome_line result)
        (world shelf (I.told input.old) output (R.told rack.old)) (world shelf (I.told input.new) output (R.told rack.new))
        (of_objects ⊤ (input.new ≡ input.old) ⊤ (rack.new ≡ rack.old)) }
{
    match unbridge_on(alloc, carrier, input, rack) {
        Ok(()) => Outcome::Ended(Status::Done),
        Err(fault) => Outcome::Ended(Status::from(fault)),
    }
}

/// Receives the frames on their carrier.
fn unbridge_on<I: Source, R: Rack>(
    alloc: Global,
    carrier: Carrier,
    input: &mut I,
    rack: &mut R,
) -> Result<(), ReceiveFault>
    requires { HasCarrierPid carrier }
    ensures unbridges { Unbridges result (bridge_carrier carrier) (I.told input.old) (I.told input.new) (R.told rack.old) (R.told rack.new) (input.new ≡ input.old) }
{
    match carrier {
        Carrier::Ule(pid) => unbridge_sndus(alloc, pid, input, rack),
        Carrier::Gse(isi) => unbridge_pdus(alloc, isi, input, rack),
    }
}
