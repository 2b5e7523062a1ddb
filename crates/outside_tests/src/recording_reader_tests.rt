//! Recordings by hand, read to their end.
ghost use Rattle.std.specs.Prelude.{◌≡◌, [], IfOk};
ghost use Rattle.recording_reader.specs.Any.{HasReadIn, count_in};

use ipe_io::{Failed, MemSource, Recording, Source, StdSource};
use recording_reader::{FramePieces, PacketPieces, ReadFault, RecordingPieces, Taker, read_to_end};
use std::alloc::{AllocError as OutOfMemory, Global};
use std::fmt::Write;
use std::test::Fail;
use test_lines::expect_lines;
use test_recordings::bytes_of;

/// Notes the records that it is given, and stops at one.
#[derive(Drop)]
struct Notes {
    text: String,
    count: u32,
    /// The number, from 0, of the record that it stops at.
    last: u32,
}

impl Taker<()> for Notes {
    ghost use Rattle.std.specs.Prelude.{ℕ, ◌^◌};
    ghost use Rattle.std.specs.Bool.{⊤};

    ghost room = { λ notes. 2 ^ 32 };

    ghost Ready = { λ notes nothing size. ⊤ };

    ghost Took = { λ start begun notes nothing records. ⊤ };

    ghost Stopped = { λ start begun notes nothing records. ⊤ };

    ghost Keeps = { λ start notes. ⊤ };

    ghost took_none = { λ start begun. tt };

    fn take(&mut self, moment: Option<u64>, bytes: &[u8], into: &mut ()) -> Result<(), Failed> {
        let _nothing = into;
        if self.count >= self.last {
            return Err(Failed);
        }
        self.count += 1;
        match note(&mut self.text, moment, bytes) {
            Ok(()) => Ok(()),
            Err(_) => Err(Failed),
        }
    }
}

/// Appends a moment, how many bytes there are, and the last of them.
fn note(text: &mut String, moment: Option<u64>, bytes: &[u8]) -> Result<(), OutOfMemory> {
    match moment {
        Some(moment) => write!(text, "{moment}:")?,
        None => write!(text, "none:")?,
    }
    let last = bytes.last().copied().unwrap_or(0);
    write!(text, "{}:{last:02X} ", bytes.len())
}

/// The pieces of a recording of this form: of packets, or of frames of so many bytes.
fn pieces_of(alloc: Global, form: &str) -> Result<RecordingPieces<Global>, Fail>
    ensures { IfOk result (λ pieces. HasReadIn pieces [] × (count_in pieces ≡ 0)) }
{
    let recording = match form {
        "Plain" => Recording::Plain,
        "Stamped" => Recording::Stamped,
        "M2ts" => Recording::M2ts,
        size => return frames_of(alloc, size.parse::<u16>()?),
    };
    Ok(RecordingPieces::Packets(PacketPieces::new(recording)))
}

fn frames_of(alloc: Global, size: u16) -> Result<RecordingPieces<Global>, Fail>
    ensures { IfOk result (λ pieces. HasReadIn pieces [] × (count_in pieces ≡ 0)) }
{
    if size == 0 {
        return Err(Fail::new("no size"));
    }
    let place = vec![in alloc; 0; usize::from(size)]?;
    Ok(RecordingPieces::Frames(FramePieces::over(size, place)))
}

/// Appends the answer: how many bytes are left over, or the fault.
fn put_answer(text: &mut String, answer: Result<u32, ReadFault>) -> Result<(), OutOfMemory> {
    match answer {
        Ok(tail) => write!(text, "left {tail}"),
        Err(fault) => write!(text, "{fault:?}"),
    }
}

/// What a taker notes that stops at a record, and the answer.
fn noted<I: Source>(alloc: Global, form: &str, source: &mut I, last: u32) -> Result<String, Fail> {
    let mut pieces = pieces_of(alloc, form)?;
    let mut notes = Notes {
        text: String::new(alloc),
        count: 0,
        last,
    };
    let answer = read_to_end(&mut pieces, source, &mut notes, &mut ());
    let Notes { mut text, .. } = notes;
    put_answer(&mut text, answer)?;
    Ok(text)
}

/// A form and a recording; what is noted, and the answer.
const RECORDINGS: &str = "Plain: |left 0
Plain: 00*187 01|0:188:01 left 0
Plain: 00*187 01 00*187 02 EE*187|0:188:01 0:188:02 left 187
Stamped: EE*195|left 195
Stamped: 0000000000000005 00*187 01 4000000000000000 00*187 02|5:188:01 none:188:02 left 0
Stamped: 0000000000000005 00*187 01 0000000000000009 00*187 02 EE|5:188:01 9:188:02 left 1
M2ts: 40000007 00*187 01|7:188:01 left 0
M2ts: 3FFFFFFF 00*187 01 80000009 00*187 02 EE*4|1073741823:188:01 1073741833:188:02 left 4
10: |left 0
10: 00*9 01|0:10:01 left 0
10: 00*9 01 00*9 02 EE*9|0:10:01 0:10:02 left 9
7274: EE*7273|left 7273
7274: 00*7273 01 00*7273 02|0:7274:01 0:7274:02 left 0
7274: 00*7273 01 00*7273 02 EE|0:7274:01 0:7274:02 left 1
";

/// What is noted of a form and a recording whose source lends, after the first piece.
fn noted_lent(alloc: Global, given: &str) -> Result<String, Fail> {
    let (form, text) = given.split_once(": ").unwrap_or(("", given));
    let bytes = bytes_of(alloc, text)?;
    let mut source = StdSource::new(alloc, bytes.as_slice())?;
    noted(alloc, form, &mut source, 9)
}

/// What is noted of a form and a recording whose source never lends.
fn noted_moved(alloc: Global, given: &str) -> Result<String, Fail> {
    let (form, text) = given.split_once(": ").unwrap_or(("", given));
    let mut source = MemSource::new(alloc, &bytes_of(alloc, text)?, 100, &[])?;
    noted(alloc, form, &mut source, 9)
}

#[test]
fn each_piece_is_given_once_and_in_order(rt: HostRuntime) -> Result<(), Fail> {
    expect_lines(rt.alloc(), noted_lent, RECORDINGS)?;
    expect_lines(rt.alloc(), noted_moved, RECORDINGS)
}

/// Two pieces of 188 bytes and one byte more, in reads of 100 bytes.
const TWO: &str = "00*187 01 00*187 02 EE";

/// A form, which call of the source fails, and at which record the taker stops; what is noted, and the answer.
const STOPS: &str = "Plain: 0 9|Source
Plain: 1 9|Source
Plain: 2 9|0:188:01 Source
Plain: 3 9|0:188:01 Source
Plain: 4 9|0:188:01 0:188:02 Source
Plain: 5 9|0:188:01 0:188:02 Source
Plain: 6 9|0:188:01 0:188:02 left 1
188: 0 9|Source
188: 1 9|Source
188: 2 9|0:188:01 Source
188: 3 9|0:188:01 Source
188: 4 9|0:188:01 0:188:02 Source
188: 5 9|0:188:01 0:188:02 Source
188: 6 9|0:188:01 0:188:02 left 1
Plain: 9 0|Taker
Plain: 9 1|0:188:01 Taker
Plain: 9 2|0:188:01 0:188:02 left 1
188: 9 0|Taker
188: 9 1|0:188:01 Taker
188: 9 2|0:188:01 0:188:02 left 1
";

/// What is noted of those two pieces.
fn stopped(alloc: Global, given: &str) -> Result<String, Fail> {
    let (form, rest) = given.split_once(": ").unwrap_or(("", given));
    let (call, last) = rest.split_once(' ').unwrap_or((rest, ""));
    let call = call.parse::<u32>()?;
    let last = last.parse::<u32>()?;
    let mut source = MemSource::new(alloc, &bytes_of(alloc, TWO)?, 100, &[call])?;
    noted(alloc, form, &mut source, last)
}

/// Each call of the source fails in turn, and the taker stops at each record in turn: all pieces before that are given.
#[test]
fn a_reading_stops_where_the_source_or_the_taker_does(rt: HostRuntime) -> Result<(), Fail> {
    expect_lines(rt.alloc(), stopped, STOPS)
}
