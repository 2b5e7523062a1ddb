//! Units, one after another in a buffer whose memory is taken before.

use byte_slices::zeros;
use std::alloc::{AllocError as OutOfMemory, Global};
use std::marker::Model;

/// Units that are put one after another where there is room for them.
#[derive(Drop)]
pub(crate) struct UnitBuffer {
    /// Their bytes are the first `used`.
    bytes: Vec<u8>,
    used: usize,
    /// Where each ends: the first `count`.
    ends: Vec<usize>,
    count: usize,
}

impl Model for UnitBuffer {
    ghost use Rattle.std.specs.Prelude.{◌≤◌, length, take};
    ghost use Rattle.fec_units.specs.Timed.{AreHeld, UnitRoom};

    ghost Value = { UnitRoom };

    ghost view = { λ b. record {
      bytes = take b.used b.bytes.items;
      ends = take b.count b.ends.items;
      bytes_most = length b.bytes.items;
      units_most = length b.ends.items;
    } };

    ghost invariant = { λ b. (b.used ≤ length b.bytes.items) × (b.count ≤ length b.ends.items)
        × AreHeld (take b.used b.bytes.items) (take b.count b.ends.items) };
}

impl UnitBuffer {
    ghost use Rattle.std.specs.Prelude.{◌≡◌, ◌+◌, ◌++◌, ◌∷◌, [], ◌<◌, ◌≤◌, length, IfOk};
    ghost use Rattle.unit_stream.specs.Packers.{units_of};
    ghost use Rattle.fec_units.specs.Timed.{AreHeld};

    /// A buffer without units, with room for so many units of so many bytes in all.
    pub(crate) fn with_room(
        alloc: Global,
        bytes: usize,
        units: usize,
    ) -> Result<UnitBuffer, OutOfMemory>
        ensures none { IfOk result (λ made. made ≡ record { bytes = []; ends = []; bytes_most = bytes; units_most = units }) }
    {
        Ok(UnitBuffer {
            bytes: zeros(alloc, bytes)?,
            used: 0,
            ends: vec![in alloc; 0; units]?,
            count: 0,
        })
    }

    /// Lets go of all units.
    pub(crate) fn clear(&mut self)
        ensures none { self.new ≡ record { bytes = []; ends = []; bytes_most = self.old.bytes_most; units_most = self.old.units_most } }
    {
        self.used = 0;
        self.count = 0;
    }

    /// Copies `unit`, which has bytes, after the others.
    pub(crate) fn push(&mut self, unit: &[u8])
        requires some { 0 < length unit.now }
        requires bytes { length self.old.bytes + length unit.now ≤ self.old.bytes_most }
        requires units { length self.old.ends < self.old.units_most }
        ensures written { units_of self.new.bytes self.new.ends ≡ units_of self.old.bytes self.old.ends ++ unit.now ∷ [] }
        ensures bytes { self.new.bytes ≡ self.old.bytes ++ unit.now }
        ensures units { length self.new.ends ≡ length self.old.ends + 1 }
        ensures held { AreHeld self.new.bytes self.new.ends }
        ensures bytes_most { self.new.bytes_most ≡ self.old.bytes_most }
        ensures units_most { self.new.units_most ≡ self.old.units_most }
    {
        let end = self.used + unit.len();
        self.bytes[self.used..end].copy_from_slice(unit);
        self.ends[self.count] = end;
        self.used = end;
        self.count += 1;
    }

    /// The units, one after another.
    pub(crate) fn bytes(&self) -> &[u8]
        ensures read { result.now ≡ self.now.bytes }
    {
        &self.bytes[..self.used]
    }

    /// Where each of them ends.
    pub(crate) fn ends(&self) -> &[usize]
        ensures read { result.now ≡ self.now.ends }
    {
        &self.ends[..self.count]
    }
}
