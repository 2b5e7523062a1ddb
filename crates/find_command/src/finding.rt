//! The whole command: a plain recording -> the text of what it names.
ghost use Rattle.std.specs.Prelude.{◌≡◌, OnOk, OnErr};
ghost use Rattle.wire_spec.specs.Causes.{HasCause};
ghost use Rattle.wire_spec.specs.Content.{Puts, Stays};
ghost use Rattle.ipe_io.specs.Counts.{IsFlushed};
ghost use Rattle.find_command.specs.Finding.{Finds, FindsText};

use crate::fault::{FindFault, fault_of};
use ipe_io::{Failed, Recording, Sink, Source, put_all};
use psi_tables::Finder;
use recording_reader::{PacketPieces, read_to_end};
use std::alloc::Global;

/// Reads a plain recording to its end, and writes where the stream of each rule of the INT on a PID is, and flushes it.
///
/// Nothing is written before the input has ended. Where no INT is on that PID, only the head line is written.
pub fn find<I: Source, O: Sink>(
    alloc: Global,
    pid: u16,
    input: &mut I,
    output: &mut O,
) -> Result<(), FindFault>
    ensures finds { Finds result pid (I.told input.old) (I.told input.new) (O.told output.old) (O.told output.new) (input.new ≡ input.old) (output.new ≡ output.old) }
{
    let text = match find_text(alloc, pid, input) {
        Ok(text) => text,
        Err(fault) => return Err(fault),
    };
    match put_text(&text, output) {
        Ok(()) => Ok(()),
        Err(Failed) => Err(FindFault::Sink),
    }
}

/// The text of what a recording names, which is read to its end.
fn find_text<I: Source>(alloc: Global, pid: u16, input: &mut I) -> Result<Vec<u8>, FindFault>
    ensures finds { FindsText (λ text. text.items) result pid (I.told input.old) (I.told input.new) (input.new ≡ input.old) }
{
    let Ok(mut finder) = Finder::new(alloc, pid) else {
        return Err(FindFault::OutOfMemory);
    };
    let mut pieces = PacketPieces::new(Recording::Plain);
    match read_to_end(&mut pieces, input, &mut finder, &mut ()) {
        Ok(_) => {}
        Err(fault) => return Err(fault_of(fault)),
    }
    match finder.text(alloc) {
        Ok(text) => Ok(text),
        Err(_) => Err(FindFault::OutOfMemory),
    }
}

/// Writes a text and flushes it.
fn put_text<O: Sink>(text: &[u8], output: &mut O) -> Result<(), Failed>
    ensures written { Puts result (O.told output.old).held (O.told output.new).held text.now }
    ensures flushed { OnOk result (IsFlushed (O.told output.new).held (O.told output.new).flushed) }
    ensures unflushed { OnErr result (Stays (O.told output.old).flushed (O.told output.new).flushed) }
    ensures cause { HasCause (O.told output.old).faults (O.told output.new).faults result }
{
    put_all(output, text)?;
    match output.flush() {
        Ok(()) => Ok(()),
        Err(Failed) => Err(Failed),
    }
}
