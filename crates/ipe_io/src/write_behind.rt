//! A writer behind a buffer: short pieces come in, and go out together.
ghost use Rattle.std.specs.Prelude.{◌≡◌, ◌+◌, ◌<◌, ◌≤◌, ℕ, [], length, take, vec_len, IfOk, OnOk};
ghost use Rattle.std.specs.Io.KnownBytes.{Appends, Keeps, WriteAppends};
ghost use Rattle.ipe_io.specs.Real.{all_put};

use crate::Failed;
use std::alloc::{AllocError as OutOfMemory, Global};
use std::io::{ErrorKind, Write};
use std::marker::Model;

/// A writer behind a buffer, for many short pieces. Behind a buffer without room, each piece goes down at once. What the writer refuses stays
/// held, in order. When it is dropped, it tries to write out what it holds.
pub(crate) struct WriteBehind<W: Write + Drop> {
    inner: W,
    buffer: Vec<u8>,
    // So many bytes at the front of the buffer are held.
    fill: usize,
}

// It is seen as what its writer has, what waits, and how much may wait.
impl<W: Write + Drop> Model for WriteBehind<W> {
    ghost use Rattle.std.specs.Prelude.{◌≤◌, take, vec_len};
    ghost use Rattle.ipe_io.specs.Real.{WriterState};

    ghost Value = { WriterState };

    ghost view = { λ s. record { down = W.contents s.inner; waiting = take s.fill s.buffer.items; room = vec_len s.buffer } };

    ghost invariant = { λ s. s.fill ≤ vec_len s.buffer };
}

impl<W: Write + Drop> WriteBehind<W> {
    /// It holds nothing.
    pub(crate) fn over(inner: W, buffer: Vec<u8>) -> WriteBehind<W>
        ensures { result ≡ record { down = W.contents inner; waiting = []; room = vec_len buffer } }
    {
        WriteBehind {
            inner,
            buffer,
            fill: 0,
        }
    }

    /// Takes a prefix of the piece, and answers its length: 1 or more where the piece is not empty.
    #[inline(always)]
    pub(crate) fn write(&mut self, piece: &[u8]) -> Result<usize, Failed>
        ensures bound { IfOk result (λ n. n ≤ length piece.now) }
        ensures some { IfOk result (λ n. 0 < length piece.now → 0 < n) }
        ensures written { WriteAppends (all_put self.old) (all_put self.new) result piece.now }
        ensures room { self.new.room ≡ self.old.room }
    {
        if piece.len() < self.buffer.len() - self.fill {
            self.hold(piece);
            return Ok(piece.len());
        }
        self.write_out_first(piece)
    }

    // The piece joins what is held.
    #[inline(always)]
    fn hold(&mut self, piece: &[u8])
        requires { length self.old.waiting + length piece.now ≤ self.old.room }
        ensures written { Appends (all_put self.old) (all_put self.new) piece.now }
        ensures room { self.new.room ≡ self.old.room }
    {
        let end = self.fill + piece.len();
        self.buffer[self.fill..end].copy_from_slice(piece);
        self.fill = end;
    }

    // The same as `write`, where there is no room. It stands apart, so that the test for room is inlined.
    #[cold]
    #[inline(never)]
    fn write_out_first(&mut self, piece: &[u8]) -> Result<usize, Failed>
        ensures bound { IfOk result (λ n. n ≤ length piece.now) }
        ensures some { IfOk result (λ n. 0 < length piece.now → 0 < n) }
        ensures written { WriteAppends (all_put self.old) (all_put self.new) result piece.now }
        ensures room { self.new.room ≡ self.old.room }
    {
        self.write_held()?;
        if piece.len() < self.buffer.len() {
            self.hold(piece);
            return Ok(piece.len());
        }
        if piece.is_empty() {
            return Ok(0);
        }
        write_some(&mut self.inner, piece)
    }

    /// Writes out what is held, and flushes the writer.
    pub(crate) fn flush(&mut self) -> Result<(), Failed>
        ensures empty { OnOk result (self.new.waiting ≡ []) }
        ensures kept { Keeps (all_put self.old) (all_put self.new) }
        ensures room { self.new.room ≡ self.old.room }
    {
        self.write_held()?;
        match self.inner.flush() {
            Ok(()) => Ok(()),
            Err(_) => Err(Failed),
        }
    }

    // Writes out what is held. On `Failed` a part of it may be written, and the rest stays held.
    fn write_held(&mut self) -> Result<(), Failed>
        ensures empty { OnOk result (self.new.waiting ≡ []) }
        ensures kept { Keeps (all_put self.old) (all_put self.new) }
        ensures room { self.new.room ≡ self.old.room }
    {
        let written = write_front(&mut self.inner, &self.buffer[..self.fill]);
        let left = self.fill - written;
        self.buffer.copy_within(written..self.fill, 0);
        self.fill = left;
        if left == 0 { Ok(()) } else { Err(Failed) }
    }
}

impl<W: Write + Drop> Drop for WriteBehind<W> {
    fn drop(mut self) {
        let _ = self.write_held();
        let WriteBehind {
            inner: _inner,
            buffer: _,
            fill: _,
        } = self;
    }
}

/// A buffer of zeros.
pub(crate) fn zeros(alloc: Global, size: usize) -> Result<Vec<u8>, OutOfMemory>
    ensures { IfOk result (λ buffer. vec_len buffer ≡ size) }
{
    vec![in alloc; 0; size]
}

// Writes the bytes, and answers how many were written: fewer than all where the writer failed.
fn write_front<W: Write>(inner: &mut W, bytes: &[u8]) -> usize
    ensures bound { result ≤ length bytes.now }
    ensures written { Appends (W.contents inner.old) (W.contents inner.new) (take result bytes.now) }
{
    let mut written = 0;
    while written < bytes.len() {
        match write_some(inner, &bytes[written..]) {
            Ok(count) => written += count,
            Err(Failed) => return written,
        }
    }
    written
}

// One write, made again where a signal interrupts it. A write that takes nothing has failed.
fn write_some<W: Write>(inner: &mut W, piece: &[u8]) -> Result<usize, Failed>
    ensures bound { IfOk result (λ n. n ≤ length piece.now) }
    ensures some { IfOk result (λ n. 0 < n) }
    ensures written { WriteAppends (W.contents inner.old) (W.contents inner.new) result piece.now }
{
    for _ in 0..u64::MAX {
        match inner.write(piece) {
            Ok(0) => return Err(Failed),
            Ok(count) => return Ok(count),
            Err(e) if e.kind() == ErrorKind::Interrupted => {}
            Err(_) => return Err(Failed),
        }
    }
    Err(Failed)
}
