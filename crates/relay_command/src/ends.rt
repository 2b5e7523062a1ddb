//! How a relay ends.
use ipe_io::OutOfMemory;
use send_command::Tally;

/// How a relay ends.
#[derive(Clone, Copy, Debug, PartialEq, Eq)]
pub enum RelayEnd {
    /// All was received, and the stream of it is written and flushed.
    Done(Tally),
    /// The input could not be read. Nothing was written.
    SourceFault,
    /// The output could not be written or flushed.
    SinkFault,
    /// The recording has 2^32 records or more, or delivers more than 4,194,304 datagrams or 268,435,456 bytes. Nothing was written.
    TooLong,
    /// Out of memory. Nothing was written.
    OutOfMemory,
}

/// Why the datagrams of a recording were not gathered.
#[derive(Clone, Copy, Debug, PartialEq, Eq)]
pub(crate) enum GatherEnd {
    /// The input could not be read.
    Source,
    /// Too many records, or too many datagrams or bytes of them.
    TooLong,
    /// Out of memory.
    OutOfMemory,
}

impl From<OutOfMemory> for GatherEnd {
    ghost use Rattle.std.specs.Prelude.{◌≡◌};
    ghost use Rattle.relay_command.specs.declared.ends.GatherEnd.TheVariants as end;

    ghost from_gives = { λ _ fault. fault ≡ end.OutOfMemory };

    fn from(_: OutOfMemory) -> GatherEnd {
        GatherEnd::OutOfMemory
    }
}
