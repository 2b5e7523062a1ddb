//! A recording of either carrier -> the datagrams that it delivers, its end included, given to one outlet.
ghost use Rattle.std.specs.Prelude.{◌≡◌, ◌≤◌, length, IfOk};
ghost use Rattle.plan.specs.PlanView.{plan_fields};
ghost use Rattle.recording_reception.specs.Reception.{HasBegun, TakesPairs, RefusesAfter, ReceivesPieces};

use crate::pieces::open_pieces;
use bumpalo::Bump;
use demux_core::Receiver;
use ipe_io::{Failed, OutOfMemory, Outlet, Source};
use plan::Plan;
use recording_reader::{ReadFault, RecordingPieces, read_to_end};

/// A reception of one recording: the receiver of a plan, and the pieces of the recording.
#[derive(Drop)]
pub struct Reception<'a> {
    /// The receiver, which says what was received.
    pub receiver: Receiver<'a>,
    /// The pieces.
    pub pieces: RecordingPieces<&'a Bump>,
}

impl<'a> Reception<'a> {
    /// A reception that has begun: all its memory is taken, in an arena, and nothing was read.
    pub fn open(arena: &'a Bump, plan: &'a Plan) -> Result<Reception<'a>, OutOfMemory>
        ensures begun { IfOk result (λ reception. HasBegun (plan_fields plan.now) reception.receiver reception.pieces) }
    {
        let pieces = open_pieces(arena, plan)?;
        let receiver = Receiver::open(arena, plan)?;
        Ok(Reception { receiver, pieces })
    }

    /// Receives the recording to its end, and gives an outlet what it delivers, its end included.
    ///
    /// Answers how many bytes stood after the last piece. No memory is taken but by the outlet.
    pub fn receive<I: Source, T: Outlet>(
        &mut self,
        plan: &Plan,
        input: &mut I,
        outlet: &mut T,
    ) -> Result<u32, ReadFault>
        requires begun { HasBegun (plan_fields plan.now) self.old.receiver self.old.pieces }
        requires services { length (plan_fields plan.now).services ≤ T.services outlet.old }
        ensures receives { ReceivesPieces result (plan_fields plan.now) (I.told input.old) (I.told input.new) self.new.receiver
            (TakesPairs (T.StandsFor outlet.old) (T.StandsFor outlet.new) (T.faults outlet.old) (T.faults outlet.new))
            (RefusesAfter (T.StandsFor outlet.old) (T.StandsFor outlet.new) (T.Refused outlet.new)) }
    {
        let tail = match read_to_end(&mut self.pieces, input, &mut self.receiver, outlet) {
            Ok(tail) => tail,
            Err(fault) => return Err(fault),
        };
        match self.receiver.finish(outlet) {
            Ok(()) => Ok(tail),
            Err(Failed) => Err(ReadFault::Taker),
        }
    }
}
