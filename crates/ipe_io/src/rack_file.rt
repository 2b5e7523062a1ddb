//! A file of a rack: its name, its writer behind a buffer, and how much was put and flushed.
ghost use Rattle.std.specs.Prelude.{◌≡◌, ◌<◌, ◌≤◌, ℕ, [], true, length, take, vec_len, string_bytes, Some, IfOk, OnOk, OnErr};
ghost use Rattle.std.specs.Io.KnownBytes.{Keeps, WriteAppends};
ghost use Rattle.wire_spec.specs.Content.{grown, flushed_file};
ghost use Rattle.ipe_io.specs.Real.{all_put, told_file};

use crate::write_behind::WriteBehind;
use crate::{Creates, Failed};
use std::marker::Model;

/// A file that was created, and what was put into it since then.
#[derive(Drop)]
pub(crate) struct RackFile<R: Creates> {
    name: String,
    writer: WriteBehind<R::Writer>,
    // So many bytes were put.
    put: u64,
    // So many were put at the last flush that did not fail.
    flushed: u64,
}

// It is seen as its name, its writer, and how many bytes were flushed.
impl<R: Creates> Model for RackFile<R> {
    ghost use Rattle.std.specs.Prelude.{◌≡◌, true, string_bytes};
    ghost use Rattle.ipe_io.specs.Real.{FileState, HasBytes, all_put};

    ghost Value = { FileState };

    ghost view = { λ s. record { name = string_bytes s.name; writer = s.writer; flushed = s.flushed } };

    ghost invariant = { λ s. R.tells ≡ true → HasBytes (all_put s.writer) s.put };
}

impl<R: Creates> RackFile<R> {
    /// A file of this name, into which nothing was put since this writer was created.
    pub(crate) fn over(name: String, inner: R::Writer, buffer: Vec<u8>) -> RackFile<R>
        requires { R.tells ≡ true → R.Writer.contents inner ≡ Some [] }
        ensures { result ≡ record { name = string_bytes name; writer = record { down = R.Writer.contents inner; waiting = []; room = vec_len buffer }; flushed = 0 } }
    {
        RackFile {
            name,
            writer: WriteBehind::over(inner, buffer),
            put: 0,
            flushed: 0,
        }
    }

    /// Puts a prefix of the piece, and answers its length: 1 or more where the piece is not empty.
    #[inline(always)]
    pub(crate) fn write(&mut self, piece: &[u8]) -> Result<usize, Failed>
        ensures bound { IfOk result (λ n. n ≤ length piece.now) }
        ensures some { IfOk result (λ n. 0 < length piece.now → 0 < n) }
        ensures written { WriteAppends (all_put self.old.writer) (all_put self.new.writer) result piece.now }
        ensures name { self.new.name ≡ self.old.name }
        ensures grown { R.tells ≡ true → IfOk result (λ n. told_file self.new ≡ grown (told_file self.old) (take n piece.now)) }
        ensures unchanged { R.tells ≡ true → OnErr result (told_file self.new ≡ told_file self.old) }
    {
        if piece.len() as u64 > u64::MAX - self.put {
            return Err(Failed);
        }
        match self.writer.write(piece) {
            Ok(count) => {
                self.put += count as u64;
                Ok(count)
            }
            Err(Failed) => Err(Failed),
        }
    }

    /// Writes out what waits, and flushes the writer.
    pub(crate) fn flush(&mut self) -> Result<(), Failed>
        ensures empty { OnOk result (self.new.writer.waiting ≡ []) }
        ensures kept { Keeps (all_put self.old.writer) (all_put self.new.writer) }
        ensures name { self.new.name ≡ self.old.name }
        ensures flushed { R.tells ≡ true → OnOk result (told_file self.new ≡ flushed_file (told_file self.old)) }
        ensures unchanged { R.tells ≡ true → OnErr result (told_file self.new ≡ told_file self.old) }
    {
        match self.writer.flush() {
            Ok(()) => {
                self.flushed = self.put;
                Ok(())
            }
            Err(Failed) => Err(Failed),
        }
    }
}
