//! How much of a stream was sent, whatever carries it.

/// How much was sent.
#[derive(Clone, Copy, Debug, PartialEq, Eq)]
pub struct Sent {
    /// The packets of the stream: one in each slot, null packets among them. Of a stream in baseband frames its frames.
    pub packets: u64,
    /// The datagrams of all services.
    pub datagrams: u32,
}
