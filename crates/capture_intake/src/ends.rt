//! How a command ends that reads a capture and writes a stream of it.
ghost use Rattle.std.specs.Prelude.{◌≡◌, ◌≢◌, true, None, Some};
ghost use Rattle.capture_intake.specs.Ends.{OnCapture, is_done, is_whole};

use crate::faults::PlacedFault;
use pcap_file::CaptureFault;

/// How it ends, with its numbers.
#[derive(Clone, Copy, Debug, PartialEq, Eq)]
pub enum CaptureEnd<T> {
    /// All was read, and its stream is written and flushed.
    Done(T),
    /// The capture has a fault. The stream of the records before it is written and flushed.
    Capture {
        /// The fault.
        fault: CaptureFault,
        /// The number of the record that has it, from 1; 0 for the capture's head.
        place: u32,
    },
    /// The input could not be read. Nothing was written.
    SourceFault,
    /// The output could not be written or flushed.
    SinkFault,
    /// Out of memory. Nothing was written.
    OutOfMemory,
}

/// The end once a whole stream is written: at the capture's fault, or with the numbers.
pub fn end_of<T: Copy>(found: Option<PlacedFault>, tally: T) -> CaptureEnd<T>
    ensures whole { is_whole result ≡ true }
    ensures done { found ≡ None → result ≡ CaptureEnd.Done tally }
    ensures fault { OnCapture result (λ fault place. found ≡ Some (record { fault = fault; place = place })) }
    ensures only { is_done result ≡ true → found ≡ None }
{
    match found {
        Some(PlacedFault { fault, place }) => CaptureEnd::Capture { fault, place },
        None => CaptureEnd::Done(tally),
    }
}
