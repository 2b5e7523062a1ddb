//! The frames of a recording of baseband frames.
ghost use Rattle.std.specs.Prelude.{◌≡◌, ◌<◌, [], vec_len};

use crate::fault::ReadFault;
use crate::pieces::Pieces;
use crate::taker::Taker;
use bb_frame::{FrameReader, lend_frame};
use ipe_io::{Failed, RecordFault, Source};
use std::alloc::Allocator;

/// The frames of a recording of baseband frames: lent out of the input where that has them in hand, otherwise read into a place.
#[derive(Drop)]
pub struct FramePieces<A: Allocator> {
    reader: FrameReader,
    place: Vec<u8, A>,
    ghost fits: { vec_len place ≡ reader.size },
}

impl<A: Allocator> FramePieces<A> {
    ghost use Rattle.std.specs.Prelude.{◌≡◌, ◌<◌, [], vec_len};
    ghost use Rattle.recording_reader.specs.Forms.{HasReadFrames};

    /// No frame was read. A frame has as many bytes as the place.
    pub fn over(size: u16, place: Vec<u8, A>) -> FramePieces<A>
        requires some { 0 < size }
        requires fits { vec_len place ≡ size }
        ensures size { result.reader.size ≡ size }
        ensures stands { HasReadFrames result.reader [] }
    {
        FramePieces {
            reader: FrameReader::new(size),
            place,
        }
    }
}

impl<A: Allocator> Pieces for FramePieces<A> {
    ghost use Rattle.ts_spec.specs.Recording.{plain};
    ghost use Rattle.recording_reader.specs.Forms.{HasReadFrames};

    ghost form = { λ pieces. plain };

    ghost size = { λ pieces. pieces.reader.size };

    ghost content = { λ pieces. pieces.reader.size };

    ghost count = { λ pieces. pieces.reader.count };

    ghost tail = { λ pieces. pieces.reader.tail };

    ghost HasRead = { λ pieces read. HasReadFrames pieces.reader read };

    fn give<I: Source, O, T: Taker<O>>(
        &mut self,
        input: &mut I,
        taker: &mut T,
        into: &mut O,
    ) -> Result<bool, ReadFault> {
        if let Some(frame) = lend_frame(input, &mut self.reader) {
            return match taker.take(Some(0), frame, into) {
                Ok(()) => Ok(true),
                Err(Failed) => Err(ReadFault::Taker),
            };
        }
        let place = self.place.as_mut_slice();
        match self.reader.next(input, place) {
            Ok(true) => {}
            Ok(false) => return Ok(false),
            Err(RecordFault::Failed) => return Err(ReadFault::Source),
            Err(RecordFault::TooLong) => return Err(ReadFault::TooLong),
        }
        match taker.take(Some(0), place, into) {
            Ok(()) => Ok(true),
            Err(Failed) => Err(ReadFault::Taker),
        }
    }

    fn tail(&self) -> u32 {
        self.reader.tail()
    }
}
