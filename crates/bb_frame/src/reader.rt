//! The reader of frames: it takes one frame's bytes at a time, or lends them out of the source that holds them.
ghost use Rattle.std.specs.Prelude.{◌≡◌, ◌↔◌, ℕ, ◌^◌, ◌<◌, ◌≤◌, true, false, List, [], Ok, OnOk, OnErr, IsErrOf, IfSome, IfNone, length, option_copied};
ghost use Rattle.std.specs.Borrow.{sem};
ghost use Rattle.std.specs.Io.BufRead.{Rests};
ghost use Rattle.wire_spec.specs.Causes.{Rose};
ghost use Rattle.bb_frame.specs.Reading.{ReaderOf, TakesBytes, ReadsFrame, LendsFrame, ReadsEnd, closed};

use ipe_io::{RecordFault, Source, fill};
use std::marker::Model;

/// Profile: the most frames of one recording.
const MOST_FRAMES: u64 = 1 << 32;

/// Reads the frames of a recording in order: each has the same number of bytes.
#[derive(Drop)]
pub struct FrameReader {
    frame_bytes: u16,
    count: u64,
    tail: u32,
    has_ended: bool,
    is_open: bool,
}

impl Model for FrameReader {
    ghost use Rattle.std.specs.Prelude.{◌≡◌, ◌<◌, ◌≤◌, ◌^◌, true};
    ghost use Rattle.bb_frame.specs.Reading.{ReaderState};

    ghost Value = { ReaderState };

    ghost view = { λ r. record { size = r.frame_bytes; count = r.count; tail = r.tail; has_ended = r.has_ended; is_open = r.is_open } };

    ghost invariant = { λ r. (1 ≤ r.frame_bytes) × (r.count ≤ 2 ^ 32) × (r.has_ended ≡ true → r.count < 2 ^ 32) };
}

impl FrameReader {
    /// No frame was read. A frame has `frame_bytes`, at least 1.
    pub fn new(frame_bytes: u16) -> FrameReader
        requires { 1 ≤ frame_bytes }
        ensures size { result.size ≡ frame_bytes }
        ensures stands { ReaderOf result [] }
        ensures tail { result.tail ≡ 0 }
        ensures unended { result.has_ended ≡ false }
    {
        FrameReader {
            frame_bytes,
            count: 0,
            tail: 0,
            has_ended: false,
            is_open: true,
        }
    }

    /// Reads the next frame into `into`, or answers false at the end of the input, where fewer bytes than a frame may be left over.
    ///
    /// After false it answers false again: it reads nothing more, also from a source that would go on, and the tail stays.
    ///
    /// `Failed`: the source failed, where fewer than 2^32 frames were read before. `TooLong`: so many were read before; nothing is
    /// taken from the source.
    /// After false or an Err `into` holds any bytes. After an Err the reader is closed, and may not be asked again.
    pub fn next<S: Source>(&mut self, source: &mut S, into: &mut [u8]) -> Result<bool, RecordFault>
        requires open { self.old.is_open ≡ true }
        requires room { length into.old ≡ self.old.size }
        ensures read { (frames : List (List ℕ)) → ReaderOf self.old frames → result ≡ Ok true
            → ReadsFrame self.old self.new (S.told source.old) (S.told source.new) frames into.new }
        ensures end { (frames : List (List ℕ)) → ReaderOf self.old frames → self.old.has_ended ≡ false → result ≡ Ok false
            → ReadsEnd self.old self.new (S.told source.old) (S.told source.new) frames }
        ensures size { self.new.size ≡ self.old.size }
        ensures opened { OnOk result (self.new.is_open ≡ true) }
        ensures ended { self.old.has_ended ≡ false → result ≡ Ok false → (S.told source.new).ended ≡ true }
        ensures again { self.old.has_ended ≡ true → (result ≡ Ok false) × (self.new ≡ self.old) × (source.new ≡ source.old) }
        ensures unended { result ≡ Ok true → (S.told source.old).ended ≡ false → (S.told source.new).ended ≡ false }
        ensures few { OnOk result (self.old.count < 2 ^ 32) }
        ensures too_long { IsErrOf result RecordFault.TooLong ↔ (self.old.count ≡ 2 ^ 32) }
        ensures unchanged { IsErrOf result RecordFault.TooLong → source.new ≡ source.old }
        ensures failed { IsErrOf result RecordFault.Failed → (bytes : List ℕ) × (length bytes < self.old.size)
            × TakesBytes (S.told source.old) (S.told source.new) bytes }
        ensures cause { IsErrOf result RecordFault.Failed → Rose (S.told source.old).faults (S.told source.new).faults }
        ensures soon { IsErrOf result RecordFault.Failed → self.old.count < 2 ^ 32 }
        ensures goes_on { IsErrOf result RecordFault.Failed → (S.told source.old).ended ≡ false → (S.told source.new).ended ≡ false }
        ensures later { (S.told source.old).faults ≤ (S.told source.new).faults }
        ensures kept { ¬ IsErrOf result RecordFault.Failed → (S.told source.new).faults ≡ (S.told source.old).faults }
        ensures closed { OnErr result (self.new ≡ closed self.old) }
    {
        if self.has_ended {
            return Ok(false);
        }
        if self.count == MOST_FRAMES {
            self.is_open = false;
            return Err(RecordFault::TooLong);
        }
        let Ok(count) = fill(source, into) else {
            self.is_open = false;
            return Err(RecordFault::Failed);
        };
        if count < into.len() {
            self.tail = count as u32;
            self.has_ended = true;
            return Ok(false);
        }
        self.count += 1;
        Ok(true)
    }

    /// How many bytes, fewer than a frame has, were left over at the end of the input: 0 until `next` answers false.
    pub fn tail(&self) -> u32
        ensures read { result ≡ self.now.tail }
    {
        self.tail
    }

    /// Whether no `next` has answered an Err.
    pub fn is_open(&self) -> bool
        ensures read { result ≡ self.now.is_open }
    {
        self.is_open
    }
}

/// Lends the next frame out of the source, where that has it in hand, fewer than 2^32 were read, and the reader has not seen the end.
///
/// It reads nothing. After a None, which takes nothing, go on with `FrameReader::next`.
pub fn lend_frame<'s, S: Source>(source: &'s mut S, reader: &mut FrameReader) -> Option<&'s [u8]>
    requires { reader.old.is_open ≡ true }
    ensures few { IfSome result (λ frame. reader.old.count < 2 ^ 32) }
    ensures unended { IfSome result (λ frame. reader.old.has_ended ≡ false) }
    ensures size { IfSome result (λ frame. length frame.now ≡ reader.old.size) }
    ensures same { reader.new.size ≡ reader.old.size }
    ensures none { IfNone result (reader.new ≡ reader.old) }
    ensures* after_borrow { sem 𝓛 (Rests S.row source.entry (λ new. (frames : List (List ℕ)) → ReaderOf reader.old frames
        → LendsFrame reader.old reader.new (S.told source.old) (S.told new) frames (option_copied result))) }
{
    if reader.has_ended || reader.count == MOST_FRAMES {
        return None;
    }
    let frame = source.lend(usize::from(reader.frame_bytes))?;
    reader.count += 1;
    Some(frame)
}
