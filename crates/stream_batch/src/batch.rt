//! Records or frames, which no sink has yet -> the sink, many in one piece.

use byte_slices::zeros;
use ipe_io::{Failed, Sink, put_all};
use std::alloc::{AllocError as OutOfMemory, Global};
use std::marker::Model;

/// Bytes with which a batch is full: 47 pages of memory, and 1,024 transport packets, so that a file of packets is written page by page.
const FULL: usize = 192_512;

/// The longest piece: a baseband frame of 58,192 bits.
const LONGEST: usize = 7274;

/// Bytes that no sink has yet; contracts see them.
#[derive(Drop)]
pub struct Batch {
    /// The next piece is written after those that are here.
    pub buffer: Vec<u8>,
    /// How many bytes of the buffer are of pieces.
    pub fill: usize,
}

impl Model for Batch {
    ghost use Rattle.std.specs.Prelude.{◌≡◌, ◌≤◌, ℕ, List, length, take};
    ghost use Rattle.stream_batch.specs.Handing.{batch_room};

    ghost Value = { List ℕ };

    ghost view = { λ b. take b.fill b.buffer.items };

    ghost invariant = { λ b. (b.fill ≤ length b.buffer.items) × (length b.buffer.items ≡ batch_room) };
}

impl Batch {
    ghost use Rattle.std.specs.Prelude.{◌≡◌, ◌≤◌, [], length, IfOk, OnOk};
    ghost use Rattle.wire_spec.specs.Causes.{HasCause};
    ghost use Rattle.wire_spec.specs.Content.{Puts, Stays};
    ghost use Rattle.stream_batch.specs.Handing.{Hands, full_batch};

    /// Takes memory for the bytes; there are none yet.
    pub fn new(alloc: Global) -> Result<Batch, OutOfMemory>
        ensures empty { IfOk result (λ batch. batch ≡ []) }
    {
        let buffer = zeros(alloc, FULL + LONGEST)?;
        Ok(Batch { buffer, fill: 0 })
    }

    /// Appends all bytes to the sink. On `Failed` a prefix of them was appended.
    pub fn put<K: Sink>(&mut self, sink: &mut K) -> Result<(), Failed>
        ensures written { Puts result (K.told sink.old).held (K.told sink.new).held self.old }
        ensures emptied { OnOk result (self.new ≡ []) }
        ensures flushed { Stays (K.told sink.old).flushed (K.told sink.new).flushed }
        ensures cause { HasCause (K.told sink.old).faults (K.told sink.new).faults result }
    {
        put_all(sink, &self.buffer[..self.fill])?;
        self.fill = 0;
        Ok(())
    }

    /// Appends all bytes to the sink where the batch is full. On `Failed` a prefix of them was appended.
    ///
    /// It is inlined, so that a piece that does not fill the batch costs no call.
    #[inline(always)]
    pub fn put_full<K: Sink>(&mut self, sink: &mut K) -> Result<(), Failed>
        ensures handed { Hands result (K.told sink.old).held (K.told sink.new).held self.old self.new }
        ensures room { OnOk result (length self.new ≤ full_batch) }
        ensures flushed { Stays (K.told sink.old).flushed (K.told sink.new).flushed }
        ensures cause { HasCause (K.told sink.old).faults (K.told sink.new).faults result }
    {
        if self.fill < FULL {
            return Ok(());
        }
        self.put(sink)
    }
}
