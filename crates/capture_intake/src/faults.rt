//! Why a capture was not read on.
use pcap_file::CaptureFault;

/// A fault of a capture.
#[derive(Clone, Copy, Debug, PartialEq, Eq)]
pub struct PlacedFault {
    pub fault: CaptureFault,
    /// The number of the record that has it, from 1; 0 for the capture's head.
    pub place: u32,
}

/// Why a capture was not read to its end or its fault.
#[derive(Clone, Copy, Debug, PartialEq, Eq)]
pub enum CaptureReadFault {
    /// The input could not be read.
    Source,
    /// Out of memory.
    OutOfMemory,
}
