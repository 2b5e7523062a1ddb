//! Datagrams, copied into a list in order and lent out of it.
ghost use Rattle.std.specs.Prelude.{◌≡◌, ℕ, ◌+◌, ◌<◌, ◌≤◌, List, [], ◌∷◌, ◌++◌, length, Some, OnOk, OnErr, slice_get, slice_index};
ghost use Rattle.ip_datagram.specs.Held.{pieces_from, AreEndsFrom};

use std::alloc::{AllocError as OutOfMemory, Global};
use std::marker::Model;

/// Byte lists in the order in which they were pushed; contracts see them as a list of lists.
///
/// They stand one after another in one buffer, so that a list takes memory for few calls and no room beside its bytes.
#[derive(Drop)]
pub struct DatagramList {
    bytes: Vec<u8>,
    /// Where each of them ends.
    ends: Vec<usize>,
}

impl Model for DatagramList {
    ghost use Rattle.std.specs.Prelude.{ℕ, List, length};
    ghost use Rattle.ip_datagram.specs.Held.{pieces_from, AreEndsFrom};

    ghost Value = { List (List ℕ) };

    ghost view = { λ list. pieces_from 0 list.bytes.items list.ends.items };

    ghost invariant = { λ list. AreEndsFrom 0 (length list.bytes.items) list.ends.items };
}

/// Where the piece at a place begins, of pieces that end at these places.
fn begin_of(ends: &[usize], place: usize) -> usize
    requires { place ≤ length ends.now }
    ensures read { result ≡ slice_index (0 ∷ ends.now) place }
{
    if place == 0 { 0 } else { ends[place - 1] }
}

/// The piece at a place, of pieces that end at these places.
#[tactic(auto, using(crate::proofs::Held::piece_is, crate::proofs::Held::piece_ordered, crate::proofs::Held::piece_within))]
fn piece<'a>(bytes: &'a [u8], ends: &[usize], place: usize) -> &'a [u8]
    requires ends { AreEndsFrom 0 (length bytes.now) ends.now }
    requires place { place < length ends.now }
    ensures read { slice_get (pieces_from 0 bytes.now ends.now) place ≡ Some result.now }
{
    &bytes[begin_of(ends, place)..ends[place]]
}

impl DatagramList {
    /// An empty list, which keeps `alloc` for its pushes.
    pub fn new(alloc: Global) -> DatagramList
        ensures written { result ≡ [] }
    {
        DatagramList {
            bytes: Vec::new(alloc),
            ends: Vec::new(alloc),
        }
    }

    /// Copies `datagram` after the others. When out of memory the list stays as it was.
    pub fn push(&mut self, datagram: &[u8]) -> Result<(), OutOfMemory>
        ensures written { OnOk result (self.new ≡ self.old ++ datagram.now ∷ []) }
        ensures unchanged { OnErr result (self.new ≡ self.old) }
    {
        let size = self.bytes.len();
        self.bytes.extend_from_slice(datagram)?;
        match self.ends.push(self.bytes.as_slice().len()) {
            Ok(()) => Ok(()),
            Err(fault) => {
                self.bytes.truncate(size);
                Err(fault.into())
            }
        }
    }

    /// How many there are.
    #[tactic(auto, using(crate::proofs::Held::pieces_count))]
    pub fn len(&self) -> usize
        ensures read { result ≡ length self.now }
    {
        self.ends.len()
    }

    /// Lends the one at a place, counted from 0.
    #[tactic(auto, using(crate::proofs::Held::pieces_count))]
    pub fn at(&self, place: usize) -> &[u8]
        requires { place < length self.now }
        ensures read { slice_get self.now place ≡ Some result.now }
    {
        piece(&self.bytes, &self.ends, place)
    }
}
