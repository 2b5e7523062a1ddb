//! The pieces of a recording under a plan.
ghost use Rattle.std.specs.Prelude.{◌≡◌, [], IfOk};
ghost use Rattle.plan.specs.PlanView.{plan_fields};
ghost use Rattle.recording_reader.specs.Any.{form_in, size_in, count_in, HasReadIn};
ghost use Rattle.recording_reception.specs.Reception.{IsFormOf, HasContentOf};

use bumpalo::Bump;
use ipe_io::OutOfMemory;
use plan::Plan;
use recording_reader::{FramePieces, PacketPieces, RecordingPieces};

/// The pieces of a recording under a plan. None was read.
pub(crate) fn open_pieces<'a>(
    arena: &'a Bump,
    plan: &Plan,
) -> Result<RecordingPieces<&'a Bump>, OutOfMemory>
    ensures form { IfOk result (λ pieces. IsFormOf (plan_fields plan.now) (form_in pieces) (size_in pieces)) }
    ensures content { IfOk result (λ pieces. HasContentOf (plan_fields plan.now) pieces) }
    ensures unread { IfOk result (λ pieces. HasReadIn pieces []) }
    ensures uncounted { IfOk result (λ pieces. count_in pieces ≡ 0) }
{
    match plan.frame_bytes {
        None => Ok(RecordingPieces::Packets(PacketPieces::new(plan.recording))),
        Some(size) => {
            let place = vec![in arena; 0u8; usize::from(size)]?;
            Ok(RecordingPieces::Frames(FramePieces::over(size, place)))
        }
    }
}
