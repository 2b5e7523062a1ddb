//! What a send reports of captured records.

/// What became of the records of a capture.
#[derive(Clone, Copy, Debug, PartialEq, Eq)]
pub struct Tally {
    /// Datagrams that a service took.
    pub offered: u32,
    /// Records without a datagram.
    pub not_ip: u32,
    /// Datagrams that no service takes.
    pub unrouted: u32,
    /// Datagrams that are too long for their service.
    pub too_long: u32,
}
