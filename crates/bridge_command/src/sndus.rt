//! Captured Ethernet frames -> their SNDUs, one after another.
ghost use Rattle.std.specs.Prelude.{◌≡◌, ◌≤◌, ◌++◌, ◌∷◌, [], List, ℕ, length, OnOk};

use crate::ends::BridgeTally;
use crate::packets::SnduPackets;
use crate::pieces::{WriteFault, write_pieces};
use crate::sorting::sort;
use capture_intake::CaptureTaker;
use ipe_io::Sink;
use pcap_file::LinkType;
use std::alloc::{AllocError as OutOfMemory, Global};

/// Type of a bridged frame (RFC 4326 section 5.2).
const BRIDGED: u16 = 1;

/// Profile: the longest frame, which Length counts beside an address and the CRC-32.
const LONGEST: usize = 32_757;

/// Bytes of a CRC-32.
const CRC: usize = 4;

/// The most bytes around a frame: D and Length, Type, an address and the CRC-32 (RFC 4326 section 4).
const MOST_AROUND: usize = 14;

/// The SNDUs of captured frames, and the numbers of these.
#[derive(Drop)]
pub(crate) struct Sndus {
    bytes: Vec<u8>,
    /// Where each SNDU ends.
    ends: Vec<usize>,
    pub(crate) tally: BridgeTally,
}

impl Sndus {
    ghost use Rattle.std.specs.Prelude.{◌≡◌, ◌≤◌, ◌++◌, ◌∷◌, [], List, ℕ, length, OnOk};
    ghost use Rattle.bridge_spec.specs.Frames.{on_pid};
    ghost use Rattle.bridge_spec.specs.Sending.{sndu_with_frame};
    ghost use Rattle.bridge_command.specs.Bridging.{bridged_stream};
    ghost use Rattle.bridge_command.specs.Holding.{HoldsSndus};
    ghost use Rattle.bridge_command.specs.Writing.{Writes};

    /// None is held yet.
    pub(crate) fn new(alloc: Global) -> Sndus
        ensures none { HoldsSndus result [] }
    {
        Sndus {
            bytes: Vec::new(alloc),
            ends: Vec::new(alloc),
            tally: BridgeTally {
                offered: 0,
                too_short: 0,
                too_long: 0,
            },
        }
    }

    /// Writes the SNDU of a frame, 32,757 bytes at most, after the others.
    fn push(&mut self, frame: &[u8]) -> Result<(), OutOfMemory>
        requires size { length frame.now ≤ 32757 }
        ensures bytes { OnOk result (self.new.bytes.items ≡ self.old.bytes.items ++ sndu_with_frame frame.now) }
        ensures ends { OnOk result (self.new.ends.items ≡ self.old.ends.items ++ length self.new.bytes.items ∷ []) }
        ensures tally { OnOk result (self.new.tally ≡ self.old.tally) }
    {
        let mut around = [0; MOST_AROUND];
        let start = ule_unit::write_around(None, BRIDGED, frame, &mut around);
        self.bytes.extend_from_slice(&around[..start])?;
        self.bytes.extend_from_slice(frame)?;
        self.bytes.extend_from_slice(&around[start..start + CRC])?;
        self.ends.push(self.bytes.len())?;
        Ok(())
    }

    /// Writes the packets of a PID that carry the SNDUs, and flushes them.
    pub(crate) fn write<O: Sink>(
        &self,
        alloc: Global,
        pid: u16,
        output: &mut O,
    ) -> Result<(), WriteFault>
        requires pid { pid ≤ 8191 }
        requires held { (captured : List (List ℕ)) × HoldsSndus self.now captured }
        ensures writes { (captured : List (List ℕ)) → HoldsSndus self.now captured
            → Writes result (bridged_stream (on_pid pid) captured) (O.told output.old) (O.told output.new) (output.new ≡ output.old) }
    {
        let mut packets = SnduPackets::new(&self.bytes, &self.ends, pid);
        write_pieces(alloc, &mut packets, output)
    }
}

impl CaptureTaker for Sndus {
    ghost use Rattle.capture_intake.specs.Wanted.{is_ethernet};
    ghost use Rattle.bridge_command.specs.Holding.{HoldsSndus};

    ghost wants = { is_ethernet };

    ghost Took = { λ start now link captured. HoldsSndus now captured };

    fn wants(link: LinkType) -> bool {
        link == LinkType::Ethernet
    }

    fn take(&mut self, _link: LinkType, captured: &[u8]) -> Result<(), OutOfMemory> {
        if sort(&mut self.tally, captured, LONGEST) {
            return self.push(captured);
        }
        Ok(())
    }
}
