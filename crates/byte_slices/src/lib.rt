//! Slices of bytes: a piece put to its place, zeros, and bytes seen as numbers below 256.
//!
//! What writes units, sections, packets and records stands on [byte_slices].
#![tactic(auto)]

ghost use Rattle.std.specs.Prelude.{◌≡◌, ◌+◌, ◌≤◌, ◌++◌, length, take, drop, replicate, IfOk};
ghost use Rattle.wire_spec.specs.Bytes.{AreBytes};

use std::alloc::{AllocError as OutOfMemory, Allocator};

/// Puts `piece` into `into`, from byte `at` on.
pub fn put(into: &mut [u8], at: usize, piece: &[u8])
    requires room { at + length piece.now ≤ length into.old }
    ensures put { into.new ≡ take at into.old ++ (piece.now ++ drop (at + length piece.now) into.old) }
{
    into[at..at + piece.len()].copy_from_slice(piece);
}

/// So many zeros.
pub fn zeros<A: Allocator>(alloc: A, count: usize) -> Result<Vec<u8, A>, OutOfMemory>
    ensures zeros { IfOk result (λ bytes. bytes.items ≡ replicate count 0) }
{
    vec![in alloc; 0u8; count]
}

/// The slice, of which this says that it has bytes.
pub fn as_bytes(bytes: &[u8]) -> &[u8]
    ensures same { result.now ≡ bytes.now }
    ensures bytes { AreBytes result.now }
{
    bytes
}

/// The array, of which this says that it has so many bytes.
pub fn array_bytes<const N: usize>(bytes: &[u8; N]) -> &[u8]
    ensures same { result.now ≡ bytes.now }
    ensures bytes { AreBytes result.now }
    ensures size { length result.now ≡ N }
{
    as_bytes(bytes)
}
