//! The pieces of a recording -> the Ethernet frames that a bridge gives of them, written to a file.
ghost use Rattle.std.specs.Prelude.{◌≡◌, ◌+◌, ◌^◌, ◌≤◌, true, [], is_some};
ghost use Rattle.recording_reader.specs.Reading.{Reads};
ghost use Rattle.bridge_spec.specs.Frames.{BridgeCarrier};
ghost use Rattle.bridge_frame.specs.Taking.{HasTaken, TakesSize};
ghost use Rattle.unbridge_command.specs.Writing.{HasWritten, HasStopped};

use bridge_frame::Bridge;
use capture_files::{Began, Progress, RackOutlet};
use ipe_io::{Rack, Source};
use recording_reader::{Pieces, ReadFault, read_to_end};
use std::alloc::Allocator;
use std::marker::PhantomData;

/// Writes the Ethernet frames that a bridge gives of all pieces to the file at a place. No memory is taken. The outlet begins with what
/// `B` has.
pub(crate) fn write_frames<I: Source, R: Rack, P: Pieces, A: Allocator, B: Began>(
    bridge: &mut Bridge<A>,
    pieces: &mut P,
    input: &mut I,
    rack: &mut R,
    at: u32,
) -> Result<u32, ReadFault>
    requires unread { P.HasRead pieces.old [] }
    requires uncounted { P.count pieces.old ≡ 0 }
    requires takes { TakesSize bridge.old (P.content pieces.old) }
    requires selected { is_some bridge.old.id ≡ true }
    requires fresh { bridge.old.taken ≡ 0 }
    requires there { at + 1 ≤ (R.told rack.old).count }
    requires place { at + 1 ≤ 2 ^ 32 }
    requires began_place { B.first ≡ at }
    requires began_rack { (B.count ≡ (R.told rack.old).count) × (B.faults ≡ (R.told rack.old).faults) × (B.files ≡ (R.told rack.old).files) }
    ensures writes { (carrier : BridgeCarrier) → HasTaken carrier bridge.old []
        → Reads result (P.form pieces.old) (P.size pieces.old) (I.told input.old) (I.told input.new)
        (λ records. HasWritten carrier at (R.told rack.old) (R.told rack.new) records) (λ records. HasStopped carrier at (R.told rack.old) (R.told rack.new) records) }
{
    let mut outlet: RackOutlet<'_, R, B> = RackOutlet {
        rack,
        first: at,
        services: 1,
        progress: Progress::Whole,
        began: PhantomData,
    };
    read_to_end(pieces, input, bridge, &mut outlet)
}
