//! Pieces of a text -> a sink.
ghost use Rattle.std.specs.Prelude.{map};
ghost use Rattle.wire_spec.specs.Causes.{HasCause};
ghost use Rattle.wire_spec.specs.Content.{Puts, Stays};
ghost use Rattle.wire_spec.specs.Lists.{joined};

use ipe_io::{Failed, Sink, put_all};

/// Appends all pieces, one after another. On `Failed` a prefix of them was appended.
pub(crate) fn put_pieces<K: Sink>(sink: &mut K, pieces: &[&[u8]]) -> Result<(), Failed>
    ensures written { Puts result (K.told sink.old).held (K.told sink.new).held (joined (map (λ piece. piece.now) pieces.now)) }
    ensures flushed { Stays (K.told sink.old).flushed (K.told sink.new).flushed }
    ensures cause { HasCause (K.told sink.old).faults (K.told sink.new).faults result }
{
    for piece in pieces {
        put_all(sink, piece)?;
    }
    Ok(())
}
