//! Captured Ethernet frames -> the baseband frames that carry them as PDUs.
ghost use Rattle.std.specs.Prelude.{◌≡◌};

use crate::ends::BridgeTally;
use crate::pieces::{Pieces, WriteFault, write_pieces};
use crate::sorting::sort;
use capture_intake::CaptureTaker;
use gse_pack::Packer;
use ip_datagram::DatagramList;
use ipe_io::Sink;
use pcap_file::LinkType;
use std::alloc::{AllocError as OutOfMemory, Global};

/// Protocol Type of a bridged frame (RFC 4326 section 5.2).
const BRIDGED: u16 = 1;

/// The longest frame, which Total Length counts beside Protocol Type and a label.
const LONGEST: usize = 65_527;

/// Profile: the bytes of a baseband frame.
const FRAME_BYTES: u16 = 2000;

/// Captured frames, and the numbers of these.
#[derive(Drop)]
pub(crate) struct Frames {
    list: DatagramList,
    pub(crate) tally: BridgeTally,
}

impl Frames {
    ghost use Rattle.std.specs.Prelude.{◌≡◌, [], List, ℕ};
    ghost use Rattle.bridge_spec.specs.Frames.{on_isi};
    ghost use Rattle.bridge_command.specs.Bridging.{bridged_stream};
    ghost use Rattle.bridge_command.specs.Holding.{HoldsFrames};
    ghost use Rattle.bridge_command.specs.Writing.{Writes};

    /// None is held yet.
    pub(crate) fn new(alloc: Global) -> Frames
        ensures none { HoldsFrames result [] }
    {
        Frames {
            list: DatagramList::new(alloc),
            tally: BridgeTally {
                offered: 0,
                too_short: 0,
                too_long: 0,
            },
        }
    }

    /// Writes the baseband frames of an ISI that carry the frames, and flushes them.
    pub(crate) fn write<O: Sink>(
        &self,
        alloc: Global,
        isi: u8,
        output: &mut O,
    ) -> Result<(), WriteFault>
        requires held { (captured : List (List ℕ)) × HoldsFrames self.now captured }
        ensures writes { (captured : List (List ℕ)) → HoldsFrames self.now captured
            → Writes result (bridged_stream (on_isi isi) captured) (O.told output.old) (O.told output.new) (output.new ≡ output.old) }
    {
        let mut packer = Packer::over_as(&self.list, BRIDGED, isi, FRAME_BYTES);
        write_pieces(alloc, &mut packer, output)
    }
}

impl CaptureTaker for Frames {
    ghost use Rattle.capture_intake.specs.Wanted.{is_ethernet};
    ghost use Rattle.bridge_command.specs.Holding.{HoldsFrames};

    ghost wants = { is_ethernet };

    ghost Took = { λ start now link captured. HoldsFrames now captured };

    fn wants(link: LinkType) -> bool {
        link == LinkType::Ethernet
    }

    fn take(&mut self, _link: LinkType, captured: &[u8]) -> Result<(), OutOfMemory> {
        if sort(&mut self.tally, captured, LONGEST) {
            return self.list.push(captured);
        }
        Ok(())
    }
}

impl<'a> Pieces for Packer<'a> {
    ghost left = { λ packer. packer.frames };

    ghost size = { λ packer. packer.size };

    fn size(&self) -> usize {
        self.frame_bytes()
    }

    fn has_next(&self) -> bool {
        self.has_frame()
    }

    fn write_next(&mut self, into: &mut [u8]) {
        self.write_frame(into);
    }
}
