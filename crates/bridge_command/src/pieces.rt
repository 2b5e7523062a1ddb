//! The pieces of a stream, packets or baseband frames -> the sink, many at once.
ghost use Rattle.std.specs.Prelude.{◌≡◌, ◌<◌, ◌≤◌, ◌+◌, ◌++◌, ◌∷◌, ℕ, List, length, take, drop, nat_lt};
ghost use Rattle.wire_spec.specs.Causes.{HasCause};
ghost use Rattle.wire_spec.specs.Content.{Puts, Stays};
ghost use Rattle.wire_spec.specs.Lists.{joined};
ghost use Rattle.bridge_command.specs.Writing.{Writes};

use byte_slices::zeros;
use ipe_io::{Failed, Sink, put_all};
use std::alloc::Global;

/// Bytes that are handed to the sink at once: 1,024 packets, which are 47 pages of memory, or 96 baseband frames.
const BATCH: usize = 192_512;

/// The pieces of a stream that are left, all of one size.
pub(crate) trait Pieces {
    /// Those that are left.
    ghost left: { Self → List (List ℕ) };

    /// The bytes of each.
    ghost size: { Self → ℕ };

    /// The bytes of each.
    fn size(&self) -> usize
        ensures read { result ≡ size self.now };

    /// Whether one is left.
    fn has_next(&self) -> bool
        ensures read { result ≡ nat_lt 0 (length (left self.now)) };

    /// Writes the next one, which has as many bytes as `into`.
    fn write_next(&mut self, into: &mut [u8])
        requires some { 0 < length (left self.old) }
        requires room { length into.old ≡ size self.old }
        ensures written { left self.old ≡ into.new ∷ left self.new }
        ensures size { size self.new ≡ size self.old };
}

/// Why a stream was not written.
#[derive(Clone, Copy, Debug, PartialEq, Eq)]
pub(crate) enum WriteFault {
    /// The output could not be written or flushed.
    Sink,
    /// Out of memory: nothing was written.
    OutOfMemory,
}

/// Writes the next piece between two places of the batch.
fn write_between<P: Pieces>(pieces: &mut P, batch: &mut [u8], at: usize, end: usize)
    requires some { 0 < length (P.left pieces.old) }
    requires end { end ≡ at + P.size pieces.old }
    requires room { end ≤ length batch.old }
    ensures written { (piece : List ℕ) × (P.left pieces.old ≡ piece ∷ P.left pieces.new) × (length piece ≡ P.size pieces.old)
        × (batch.new ≡ take at batch.old ++ (piece ++ drop end batch.old)) }
    ensures size { P.size pieces.new ≡ P.size pieces.old }
    ensures same { length batch.new ≡ length batch.old }
{
    pieces.write_next(&mut batch[at..end]);
}

/// Writes as many pieces as the batch has room for; answers where the last of them ends.
fn fill_batch<P: Pieces>(pieces: &mut P, batch: &mut [u8]) -> usize
    requires some { 0 < P.size pieces.old }
    requires room { P.size pieces.old ≤ length batch.old }
    ensures within { result ≤ length batch.new }
    ensures written { joined (P.left pieces.old) ≡ take result batch.new ++ joined (P.left pieces.new) }
    ensures fewer { 0 < length (P.left pieces.old) → length (P.left pieces.new) < length (P.left pieces.old) }
    ensures size { P.size pieces.new ≡ P.size pieces.old }
    ensures same { length batch.new ≡ length batch.old }
{
    let size = pieces.size();
    let mut end = 0;
    while batch.len() - end >= size && pieces.has_next() {
        write_between(pieces, batch, end, end + size);
        end += size;
    }
    end
}

/// Puts all pieces into the sink. On `Failed` a prefix of them was appended.
fn put_pieces<P: Pieces, O: Sink>(
    pieces: &mut P,
    batch: &mut [u8],
    output: &mut O,
) -> Result<(), Failed>
    requires some { 0 < P.size pieces.old }
    requires room { P.size pieces.old ≤ length batch.old }
    ensures written { Puts result (O.told output.old).held (O.told output.new).held (joined (P.left pieces.old)) }
    ensures flushed { Stays (O.told output.old).flushed (O.told output.new).flushed }
    ensures cause { HasCause (O.told output.old).faults (O.told output.new).faults result }
{
    while pieces.has_next() {
        let end = fill_batch(pieces, batch);
        put_all(output, &batch[..end])?;
    }
    Ok(())
}

/// Writes all pieces, of 2,000 bytes at most, and flushes them.
pub(crate) fn write_pieces<P: Pieces, O: Sink>(
    alloc: Global,
    pieces: &mut P,
    output: &mut O,
) -> Result<(), WriteFault>
    requires some { 0 < P.size pieces.old }
    requires few { P.size pieces.old ≤ 2000 }
    ensures writes { Writes result (joined (P.left pieces.old)) (O.told output.old) (O.told output.new) (output.new ≡ output.old) }
{
    let Ok(mut batch) = zeros(alloc, BATCH) else {
        return Err(WriteFault::OutOfMemory);
    };
    match put_pieces(pieces, &mut batch, output) {
        Ok(()) => {}
        Err(Failed) => return Err(WriteFault::Sink),
    }
    match output.flush() {
        Ok(()) => Ok(()),
        Err(Failed) => Err(WriteFault::Sink),
    }
}
