//! Loops over a source, a sink and a rack: a whole buffer read, a whole piece written.
ghost use Rattle.std.specs.Prelude.{◌≡◌, ℕ, ◌+◌, ◌<◌, ◌≤◌, true, false, List, length, take, IfOk, OnOk, OnErr};
ghost use Rattle.std.specs.Io.KnownBytes.{Consumes, IsAtEnd};
ghost use Rattle.wire_spec.specs.Causes.{HasCause, raised};
ghost use Rattle.wire_spec.specs.Content.{Puts, PutsInFile, Stays};

use crate::{Failed, Rack, Sink, Source};

/// Reads until the buffer is full or the input ends, and answers how many bytes came.
///
/// On `Failed` fewer bytes than the buffer has came, and they stand at its front. Where the buffer became full, or the
/// source failed, the input has not ended by this call.
pub fn fill<S: Source>(source: &mut S, buf: &mut [u8]) -> Result<usize, Failed>
    ensures bound { IfOk result (λ n. n ≤ length buf.new) }
    ensures read { IfOk result (λ n. Consumes (S.told source.old).left (S.told source.new).left (take n buf.new)) }
    ensures taken { IfOk result (λ n. (S.told source.new).taken ≡ raised (S.told source.old).taken n) }
    ensures end { IfOk result (λ n. n < length buf.new → ((S.told source.new).ended ≡ true) × IsAtEnd (S.told source.new).left) }
    ensures goes_on { IfOk result (λ n. n ≡ length buf.new) → (S.told source.old).ended ≡ false → (S.told source.new).ended ≡ false }
    ensures failed { OnErr result ((n : ℕ) × (n < length buf.new) × ((S.told source.new).taken ≡ raised (S.told source.old).taken n) × Consumes (S.told source.old).left (S.told source.new).left (take n buf.new)) }
    ensures cause { HasCause (S.told source.old).faults (S.told source.new).faults result }
{
    let mut got = 0;
    while got < buf.len() {
        let count = source.read(&mut buf[got..])?;
        if count == 0 {
            return Ok(got);
        }
        got += count;
    }
    Ok(got)
}

/// Appends the whole piece. On `Failed` a prefix of it was appended.
pub fn put_all<K: Sink>(sink: &mut K, piece: &[u8]) -> Result<(), Failed>
    ensures written { Puts result (K.told sink.old).held (K.told sink.new).held piece.now }
    ensures flushed { Stays (K.told sink.old).flushed (K.told sink.new).flushed }
    ensures cause { HasCause (K.told sink.old).faults (K.told sink.new).faults result }
{
    let mut done = 0;
    while done < piece.len() {
        done += sink.write(&piece[done..])?;
    }
    Ok(())
}

/// Appends the whole piece to the file at a place. On `Failed` a prefix of it was appended.
pub fn put_file<R: Rack>(rack: &mut R, at: u32, piece: &[u8]) -> Result<(), Failed>
    requires { at < (R.told rack.old).count }
    ensures written { PutsInFile result (R.told rack.old).files (R.told rack.new).files at piece.now }
    ensures count { (R.told rack.new).count ≡ (R.told rack.old).count }
    ensures cause { HasCause (R.told rack.old).faults (R.told rack.new).faults result }
{
    let mut put = 0;
    while put < piece.len() {
        put += rack.write(at, &piece[put..])?;
    }
    Ok(())
}
