//! The command `unbridge` on a PID or an ISI: memory, the file with its head, the recording to its end, the flush.
ghost use Rattle.std.specs.Prelude.{◌≡◌, ◌+◌, ◌^◌, ◌<◌, ◌≤◌, false, true, [], is_some, vec_len, IfOk, OnOk, IsErrOf};
ghost use Rattle.wire_spec.specs.Content.{Stays};
ghost use Rattle.ts_spec.specs.Recording.{plain};
ghost use Rattle.ipe_io.specs.Counts.{HasAddCause};
ghost use Rattle.pcap_file.specs.Capture.{ethernet_head};
ghost use Rattle.bridge_spec.specs.Frames.{BridgeCarrier, on_pid, on_isi, size_of_piece};
ghost use Rattle.bridge_frame.specs.Taking.{HasTaken, TakesSize};
ghost use Rattle.capture_files.specs.Files.{AddsPartOf};
ghost use Rattle.unbridge_command.specs.Unbridging.{Unbridges, AddsBridge, bridge_name};

use crate::writing::write_frames;
use bridge_frame::Bridge;
use capture_files::{ReceiveFault, add_file};
use gse_reassembly::{FRAG_IDS, PDU_BUFFER_SIZE, Slot};
use ipe_io::{AddFault, Failed, OutOfMemory, Rack, Recording, Source};
use pcap_file::write_ethernet_head;
use recording_reader::{FramePieces, PacketPieces, Pieces};
use std::alloc::{Allocator, Global};
use std::marker::Brand;

/// The name of the file, before ".pcap".
const NAME: &str = "bridge";

/// The longest SNDU (RFC 4326 section 4.2).
const SNDU: usize = 32_771;

/// Bytes of a baseband frame. Profile: no other size.
const FRAME: u16 = 2_000;

/// Receives the Ethernet frames bridged in SNDUs on a PID of a recording of plain transport packets, into the capture bridge.pcap.
///
/// All memory is taken before the first record is read; where it runs out, nothing was read and no file was added.
pub fn unbridge_sndus<I: Source, R: Rack>(
    alloc: Global,
    pid: u16,
    input: &mut I,
    rack: &mut R,
) -> Result<(), ReceiveFault>
    requires { pid ≤ 8190 }
    ensures unbridges { Unbridges result (on_pid pid) (I.told input.old) (I.told input.new) (R.told rack.old) (R.told rack.new) (input.new ≡ input.old) }
{
    let buffer = zeros(alloc, SNDU)?;
    let slots = empty_slots(alloc, 0)?;
    let mut bridge = Bridge::over(buffer, slots, true);
    bridge.select(pid);
    let mut pieces = PacketPieces::new(Recording::Plain);
    unbridge(alloc, &mut bridge, &mut pieces, input, rack)
}

/// Receives the Ethernet frames bridged in the PDUs of an ISI of a recording of baseband frames of 2,000 bytes, into the capture bridge.pcap.
///
/// All memory is taken before the first frame is read; where it runs out, nothing was read and no file was added.
pub fn unbridge_pdus<I: Source, R: Rack>(
    alloc: Global,
    isi: u8,
    input: &mut I,
    rack: &mut R,
) -> Result<(), ReceiveFault>
    ensures unbridges { Unbridges result (on_isi isi) (I.told input.old) (I.told input.new) (R.told rack.old) (R.told rack.new) (input.new ≡ input.old) }
{
    let buffer = zeros(alloc, PDU_BUFFER_SIZE)?;
    let slots = empty_slots(alloc, FRAG_IDS)?;
    let mut bridge = Bridge::over(buffer, slots, false);
    bridge.select(u16::from(isi));
    let place = zeros(alloc, usize::from(FRAME))?;
    let mut pieces = FramePieces::over(FRAME, place);
    unbridge(alloc, &mut bridge, &mut pieces, input, rack)
}

/// Adds the file, writes what a bridge gives of all pieces, and flushes it. The bridge was given nothing before.
fn unbridge<I: Source, R: Rack, P: Pieces, A: Allocator>(
    alloc: Global,
    bridge: &mut Bridge<A>,
    pieces: &mut P,
    input: &mut I,
    rack: &mut R,
) -> Result<(), ReceiveFault>
    requires unread { P.HasRead pieces.old [] }
    requires uncounted { P.count pieces.old ≡ 0 }
    requires form { P.form pieces.old ≡ plain }
    requires takes { TakesSize bridge.old (P.content pieces.old) }
    requires selected { is_some bridge.old.id ≡ true }
    requires fresh { bridge.old.taken ≡ 0 }
    requires given { (carrier : BridgeCarrier) × HasTaken carrier bridge.old [] }
    ensures unbridges { (carrier : BridgeCarrier) → HasTaken carrier bridge.old [] → P.size pieces.old ≡ size_of_piece carrier
        → Unbridges result carrier (I.told input.old) (I.told input.new) (R.told rack.old) (R.told rack.new) (input.new ≡ input.old) }
{
    let at = add_bridge_file(alloc, rack)?;
    match write_frames::<I, R, P, A, Brand>(bridge, pieces, input, rack, at) {
        Ok(_) => {}
        Err(fault) => return Err(ReceiveFault::from(fault)),
    }
    match rack.flush(at) {
        Ok(()) => Ok(()),
        Err(Failed) => Err(ReceiveFault::Rack),
    }
}

/// Adds the file with the head of a capture of Ethernet frames, and answers its place.
fn add_bridge_file<R: Rack>(alloc: Global, rack: &mut R) -> Result<u32, AddFault>
    ensures place { IfOk result (λ at. (at ≡ (R.told rack.old).count) × (at < 2 ^ 32)) }
    ensures written { OnOk result (((R.told rack.new).count ≡ (R.told rack.old).count + 1) × AddsBridge false ethernet_head (R.told rack.old).files (R.told rack.new).files) }
    ensures failed { IsErrOf result AddFault.Failed → AddsPartOf ethernet_head bridge_name (R.told rack.old).files (R.told rack.new).files }
    ensures memory { IsErrOf result AddFault.OutOfMemory → ((R.told rack.new).count ≡ (R.told rack.old).count) × Stays (R.told rack.old).files (R.told rack.new).files }
    ensures most { (R.told rack.new).count ≤ (R.told rack.old).count + 1 }
    ensures cause { HasAddCause (R.told rack.old).faults (R.told rack.new).faults result }
{
    let mut head = [0u8; 24];
    write_ethernet_head(&mut head);
    add_file(alloc, NAME, &head, rack)
}

/// A buffer of zeros.
fn zeros(alloc: Global, count: usize) -> Result<Vec<u8>, OutOfMemory>
    ensures { IfOk result (λ v. vec_len v ≡ count) }
{
    vec![in alloc; 0u8; count]
}

/// So many empty slots.
fn empty_slots(alloc: Global, count: usize) -> Result<Vec<Slot>, OutOfMemory>
    ensures { IfOk result (λ v. vec_len v ≡ count) }
{
    vec![in alloc; Slot::new(); count]
}
