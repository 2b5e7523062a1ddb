//! The bytes of one record: the stamp and the packet, each into its own place.
ghost use Rattle.std.specs.Prelude.{◌≡◌, ℕ, ◌+◌, ◌<◌, ◌≤◌, ◌++◌, true, false, length, take, IfOk, OnErr};
ghost use Rattle.std.specs.Io.KnownBytes.{Consumes, IsAtEnd};
ghost use Rattle.wire_spec.specs.Causes.{HasCause, raised};

use ipe_io::{Failed, Source, fill};

/// Reads until both are full or the input ends, and answers how many bytes came. Where both
/// became full, or the source failed, the input has not ended by this call.
pub(crate) fn fill_both<S: Source>(
    source: &mut S,
    stamp: &mut [u8],
    packet: &mut [u8; 188],
) -> Result<usize, Failed>
    requires { length stamp.old ≤ 8 }
    ensures size { length packet.new ≡ 188 }
    ensures bound { IfOk result (λ n. n ≤ length stamp.new + 188) }
    ensures read { IfOk result (λ n.
        Consumes (S.told source.old).left (S.told source.new).left (take n (stamp.new ++ packet.new))) }
    ensures taken { IfOk result (λ n. (S.told source.new).taken ≡ raised (S.told source.old).taken n) }
    ensures end { IfOk result (λ n. n < length stamp.new + 188
        → ((S.told source.new).ended ≡ true) × IsAtEnd (S.told source.new).left) }
    ensures goes_on { IfOk result (λ n. n ≡ length stamp.new + 188) → (S.told source.old).ended ≡ false → (S.told source.new).ended ≡ false }
    ensures failed { OnErr result ((n : ℕ) × (n < length stamp.new + 188)
        × ((S.told source.new).taken ≡ raised (S.told source.old).taken n)
        × Consumes (S.told source.old).left (S.told source.new).left (take n (stamp.new ++ packet.new))) }
    ensures cause { HasCause (S.told source.old).faults (S.told source.new).faults result }
{
    let front = fill(source, stamp)?;
    if front < stamp.len() {
        return Ok(front);
    }
    Ok(front + fill(source, packet)?)
}
