//! A small recording on which the laws are tried.
ghost use Rattle.intact_law.specs.Examples.{SmallErrors};

/// One packet of four SNDUs is dropped, and one altered so that its CRC-32 is right again: the two others are delivered, as the law on
/// intact units says, where the loss law says nothing.
pub fn a_small_recording_gives_what_arrived_intact()
    ensures small { SmallErrors }
{}
