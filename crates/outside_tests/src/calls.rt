//! Calls as text, one a line: a call, `|`, what must come of it.
use ipe_io::{LoadFault, Shelf, Sink, put_all};
use std::alloc::{AllocError as OutOfMemory, Global};
use std::test::Fail;
use test_lines::expect;

/// An object whose calls a table names.
pub(crate) trait Calls {
    /// Makes a call, and says what it answers and what the object then tells.
    fn answer(&mut self, alloc: Global, call: &str) -> Result<String, Fail>;
}

/// Fails where an object answers the call of a line otherwise than it must.
pub(crate) fn expect_calls<C: Calls>(
    alloc: Global,
    object: &mut C,
    lines: &str,
) -> Result<(), Fail> {
    for line in lines.lines() {
        let Some((call, due)) = line.split_once('|') else {
            return Err(Fail::new(format_args!("{line}: no bar")));
        };
        expect(call, &object.answer(alloc, call)?, due)?;
    }
    Ok(())
}

/// Writes a piece once, or all of it, or flushes.
pub(crate) fn sink_answer<K: Sink>(
    alloc: Global,
    sink: &mut K,
    call: &str,
) -> Result<String, OutOfMemory> {
    let (kind, piece) = call.split_once(' ').unwrap_or((call, ""));
    let piece = piece.as_bytes();
    match kind {
        "write" => format!(in alloc; "{:?}", sink.write(piece)),
        "put" => format!(in alloc; "{:?}", put_all(sink, piece)),
        _ => format!(in alloc; "{:?}", sink.flush()),
    }
}

/// The text of a file that is loaded, or the fault.
pub(crate) fn loaded<S: Shelf>(alloc: Global, shelf: &mut S, name: &str) -> Result<String, Fail> {
    match shelf.load(alloc, name) {
        Ok(bytes) => Ok(std::str::from_utf8(&bytes)?.to_string(alloc)?),
        Err(LoadFault::Failed) => Ok("Failed".to_string(alloc)?),
        Err(fault) => Err(Fail::from(fault)),
    }
}
