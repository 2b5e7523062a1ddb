//! The command `bridge`, by its carrier.
ghost use Rattle.std.specs.Prelude.{◌≡◌, ◌≤◌};
ghost use Rattle.bridge_spec.specs.Frames.{on_pid, on_isi};
ghost use Rattle.bridge_command.specs.Bridging.{Bridges};
ghost use Rattle.bridge_command.specs.Ended.{end_by};

use crate::ends::BridgeTally;
use crate::frames::Frames;
use crate::pieces::WriteFault;
use crate::sndus::Sndus;
use capture_intake::{CaptureEnd, CaptureReadFault, PlacedFault, end_of, read_capture};
use ipe_io::{Sink, Source};
use std::alloc::Global;

/// Writes the transport packets of a PID, 0 to 8190, that carry the frames of the capture that is read from `input`, and flushes them.
///
/// Each frame stands in an SNDU without address after Type 1; the SNDUs are packed, and the first packet has the counter 0. Where the
/// capture has a fault, the packets of the frames before it are written and flushed, and then the fault is answered. A capture of IP
/// datagrams has the fault Link in its head. Where the input fails or memory runs out nothing is written.
pub fn bridge_in_sndus<I: Source, O: Sink>(
    alloc: Global,
    pid: u16,
    input: &mut I,
    output: &mut O,
) -> CaptureEnd<BridgeTally>
    requires pid { pid ≤ 8190 }
    ensures bridges { Bridges (on_pid pid) result (I.told input.old) (I.told input.new) (O.told output.old) (O.told output.new) (output.new ≡ output.old) }
{
    let mut sndus = Sndus::new(alloc);
    let found = match read_capture(alloc, input, &mut sndus) {
        Ok(found) => found,
        Err(CaptureReadFault::Source) => return CaptureEnd::SourceFault,
        Err(CaptureReadFault::OutOfMemory) => return CaptureEnd::OutOfMemory,
    };
    let written = sndus.write(alloc, pid, output);
    end_after(written, found, sndus.tally)
}

/// Writes the baseband frames of an ISI that carry the frames of the capture that is read from `input`, and flushes them.
///
/// Each frame is a PDU of Protocol Type 1 for all receivers, and a baseband frame has 2,000 bytes. It ends as `bridge_in_sndus` does.
pub fn bridge_in_pdus<I: Source, O: Sink>(
    alloc: Global,
    isi: u8,
    input: &mut I,
    output: &mut O,
) -> CaptureEnd<BridgeTally>
    ensures bridges { Bridges (on_isi isi) result (I.told input.old) (I.told input.new) (O.told output.old) (O.told output.new) (output.new ≡ output.old) }
{
    let mut frames = Frames::new(alloc);
    let found = match read_capture(alloc, input, &mut frames) {
        Ok(found) => found,
        Err(CaptureReadFault::Source) => return CaptureEnd::SourceFault,
        Err(CaptureReadFault::OutOfMemory) => return CaptureEnd::OutOfMemory,
    };
    let written = frames.write(alloc, isi, output);
    end_after(written, found, frames.tally)
}

/// The end once a stream was written, or was not.
fn end_after(
    written: Result<(), WriteFault>,
    found: Option<PlacedFault>,
    tally: BridgeTally,
) -> CaptureEnd<BridgeTally>
    ensures end { result ≡ end_by written found tally }
{
    match written {
        Ok(()) => end_of(found, tally),
        Err(WriteFault::Sink) => CaptureEnd::SinkFault,
        Err(WriteFault::OutOfMemory) => CaptureEnd::OutOfMemory,
    }
}
