//! One run of the engine over the objects of the outside, and what follows it whatever its status is.
ghost use Rattle.std.specs.Prelude.{◌≡◌, ℕ, List, drop, map, string_bytes};
ghost use Rattle.std.specs.Process.{exit_status};
ghost use Rattle.ipencap_engine.specs.Jobs.{Job, Asks};
ghost use Rattle.ipencap_engine.specs.Statuses.{Complains};
ghost use Rattle.ipencap_cli.specs.Exit.{exit_number};
ghost use Rattle.ipencap_cli.specs.Program.{RunsAndFlushes};

use ipe_io::{Creates, FileRack, Shelf, Sink, Source};
use ipencap_engine::{Status, run};
use std::alloc::Global;
use std::process::ExitCode;

/// The exit status where there is no memory for the words or the objects, as of `OutOfMemory`.
pub(crate) const NO_MEMORY: u8 = 9;

/// Hands `run` the words after the first one, which is the program's name; then writes out all that rack and output still hold, whatever
/// the status is, and answers its number. What fails only then changes no status.
pub(crate) fn run_and_flush<S: Shelf, I: Source, O: Sink, R: Creates + Drop, E: Sink>(
    alloc: Global,
    words: &[String],
    shelf: &mut S,
    input: &mut I,
    output: &mut O,
    rack: &mut FileRack<R>,
    complaints: &mut E,
) -> ExitCode
    ensures { (job : Job) → Asks (map (λ word. string_bytes word) (drop 1 words.now)) job
        → RunsAndFlushes O.told R.tells job (exit_status result) (S.told shelf.old) (S.told shelf.new) (I.told input.old) (I.told input.new)
        output.old output.new rack.old rack.new (shelf.new ≡ shelf.old) (input.new ≡ input.old)
        (Complains (E.told complaints.old).held (E.told complaints.new).held (E.told complaints.old).faults (E.told complaints.new).faults) }
{
    let status = run(
        alloc,
        after_first(words),
        shelf,
        input,
        output,
        rack,
        complaints,
    );
    let _ = rack.flush_all();
    let _ = output.flush();
    ExitCode::from(number_of(status))
}

/// The words after the first one.
fn after_first(words: &[String]) -> &[String]
    ensures { result.now ≡ drop 1 words.now }
{
    if words.is_empty() {
        return words;
    }
    &words[1..]
}

/// The exit status of a run's status: 0 and 2 to 10. 1 is none of them, since shells and the launcher end with it.
fn number_of(status: Status) -> u8
    ensures { result ≡ exit_number status }
{
    match status {
        Status::Done => 0,
        Status::Usage => 2,
        Status::Settings => 3,
        Status::Capture => 4,
        Status::ShelfFault => 5,
        Status::SourceFault => 6,
        Status::SinkFault => 7,
        Status::RackFault => 8,
        Status::OutOfMemory => NO_MEMORY,
        Status::TooLong => 10,
    }
}
