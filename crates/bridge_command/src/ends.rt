//! What a bridge reports of captured frames.

/// What became of captured Ethernet frames.
#[derive(Clone, Copy, Debug, PartialEq, Eq)]
pub struct BridgeTally {
    /// Frames that are carried.
    pub offered: u32,
    /// Frames of fewer than 14 bytes, which are not carried.
    pub too_short: u32,
    /// Frames of more bytes than a unit of the carrier has room for, which are not carried.
    pub too_long: u32,
}
