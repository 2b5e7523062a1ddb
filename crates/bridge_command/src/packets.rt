//! SNDUs -> the packets of a PID that carry them, one after another.
ghost use Rattle.std.specs.Prelude.{◌≡◌, ◌≤◌};

use crate::pieces::Pieces;
use std::marker::Model;
use ule_unit::UleForm;
use unit_stream::Packer;

/// Bytes of a packet (ISO/IEC 13818-1 clause 2.4.3.2).
const PACKET: usize = 188;

/// The packets of SNDUs that stand one after another; contracts see those that are left.
#[derive(Drop)]
pub(crate) struct SnduPackets<'a> {
    bytes: &'a [u8],
    ends: &'a [usize],
    packer: Packer<UleForm>,
}

impl<'a> Model for SnduPackets<'a> {
    ghost use Rattle.std.specs.Prelude.{List, ℕ, length, map};
    ghost use Rattle.ts_spec.specs.Sndu.{sndu_form};
    ghost use Rattle.unit_stream.specs.Packers.{AreEnds, IsOnWay, packets_left, written};

    ghost Value = { List (List ℕ) };

    ghost view = { λ p. map written (packets_left sndu_form p.packer p.bytes.now p.ends.now) };

    ghost invariant = { λ p. AreEnds 2 (length p.bytes.now) p.ends.now × IsOnWay p.packer p.ends.now };
}

impl<'a> SnduPackets<'a> {
    ghost use Rattle.std.specs.Prelude.{◌≡◌, ◌≤◌, true, length, map};
    ghost use Rattle.ts_spec.specs.Sndu.{sndu_form};
    ghost use Rattle.unit_stream.specs.Packers.{AreEnds, units_of, written};
    ghost use Rattle.unit_stream.specs.Packing.{packetized};

    /// The packets of SNDUs that end at these places, packed, from counter 0 on. The PID is 0 to 8191.
    pub(crate) fn new(bytes: &'a [u8], ends: &'a [usize], pid: u16) -> SnduPackets<'a>
        requires ends { AreEnds 2 (length bytes.now) ends.now }
        requires pid { pid ≤ 8191 }
        ensures packets { result ≡ map written (packetized sndu_form true pid 0 (units_of bytes.now ends.now)) }
    {
        SnduPackets {
            bytes,
            ends,
            packer: Packer::new(pid, true),
        }
    }
}

impl<'a> Pieces for SnduPackets<'a> {
    ghost left = { λ packets. packets };

    ghost size = { λ packets. 188 };

    fn size(&self) -> usize {
        PACKET
    }

    fn has_next(&self) -> bool {
        self.packer.has_next(self.ends)
    }

    fn write_next(&mut self, into: &mut [u8]) {
        let mut packet = [0; PACKET];
        if !self.packer.next(self.bytes, self.ends, &mut packet) {
            unreachable!();
        }
        into.copy_from_slice(&packet);
    }
}
