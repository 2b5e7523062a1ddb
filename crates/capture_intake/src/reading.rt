//! The loop over all records.
ghost use Rattle.std.specs.Prelude.{◌≡◌, ℕ, ◌∷◌, [], ◌++◌, true, false, List, Ok, Some, None, IfSome, IsErrOf};
ghost use Rattle.pcap_file.specs.Told.{Tells};
ghost use Rattle.pcap_file.specs.Reader.{HasReadRecords, is_cut, rest_of};
ghost use Rattle.pcap_file.specs.declared.captured.LinkType.{LinkType as Link};
ghost use Rattle.pcap_file.specs.declared.faults.CaptureFault.{CaptureFault as FaultFound};
ghost use Rattle.capture_intake.specs.Taken.{Intakes};
ghost use Rattle.capture_intake.specs.Steps.{HasReadCause, IsGoing, ReadsNext, TakesIn};

use crate::faults::{CaptureReadFault, PlacedFault};
use crate::taker::CaptureTaker;
use ipe_io::Source;
use pcap_file::{CaptureFault, CaptureReader, NextFault, OpenFault};
use std::alloc::Global;

/// What stood next in a capture.
#[derive(Clone, Copy)]
enum Next {
    Record,
    End,
    Fault(CaptureFault),
}

/// Reads a capture to its end or its fault, and gives its records to a taker. Answers the fault, None where there is none.
///
/// Of a capture whose link type the taker does not want it is given no record: that has the fault Link in its head. Memory is taken for the
/// longest record and 65,536 bytes, and what the taker takes.
pub fn read_capture<I: Source, T: CaptureTaker>(
    alloc: Global,
    input: &mut I,
    taker: &mut T,
) -> Result<Option<PlacedFault>, CaptureReadFault>
    requires fresh { (link : Link) → T.Took taker.old taker.old link [] }
    ensures intakes { Intakes T.wants result (I.told input.old) (I.told input.new) (λ link records. T.Took taker.old taker.new link records) }
{
    let mut reader = match CaptureReader::open(alloc, input) {
        Ok(reader) => reader,
        Err(OpenFault::Capture(fault)) => return Ok(Some(PlacedFault { fault, place: 0 })),
        Err(OpenFault::Failed) => return Err(CaptureReadFault::Source),
        Err(OpenFault::OutOfMemory) => return Err(CaptureReadFault::OutOfMemory),
    };
    if !T::wants(reader.link()) {
        let fault = CaptureFault::Link;
        return Ok(Some(PlacedFault { fault, place: 0 }));
    }
    'records: loop {
        match take_next(&mut reader, input, taker)? {
            Next::Record => {}
            Next::End => return Ok(None),
            Next::Fault(fault) => {
                let place = reader.records() + 1;
                return Ok(Some(PlacedFault { fault, place }));
            }
        }
    }
}

/// Gives the next record to the taker.
fn take_next<I: Source, T: CaptureTaker>(
    reader: &mut CaptureReader,
    input: &mut I,
    taker: &mut T,
) -> Result<Next, CaptureReadFault>
    requires going { (start : T) × (front : List ℕ) × (captured : List (List ℕ))
        × IsGoing T.wants reader.old (λ link records. T.Took start taker.old link records) front captured }
    ensures more { (start : T) (front : List ℕ) (captured : List (List ℕ)) → IsGoing T.wants reader.old (λ link records. T.Took start taker.old link records) front captured
        → result ≡ Ok Next.Record → TakesIn T.wants reader.old reader.new (λ link records. T.Took start taker.new link records) front captured (I.told input.old) (I.told input.new) }
    ensures end { (front : List ℕ) (captured : List (List ℕ)) → HasReadRecords reader.old front captured
        → result ≡ Ok Next.End → IfSome (rest_of reader.old.held (I.told input.old).left) (λ rest. Tells (front ++ rest) captured None) }
    ensures fault { (front : List ℕ) (captured : List (List ℕ)) (fault : FaultFound) → HasReadRecords reader.old front captured
        → result ≡ Ok (Next.Fault fault) → IfSome (rest_of reader.old.held (I.told input.old).left) (λ rest. Tells (front ++ rest) captured (Some fault)) }
    ensures records { (fault : FaultFound) → result ≡ Ok (Next.Fault fault) → reader.new.records ≡ reader.old.records }
    ensures kept_end { result ≡ Ok Next.End → taker.new ≡ taker.old }
    ensures kept_fault { (fault : FaultFound) → result ≡ Ok (Next.Fault fault) → taker.new ≡ taker.old }
    ensures ended { result ≡ Ok Next.End → (I.told input.new).ended ≡ true }
    ensures cut { (fault : FaultFound) → result ≡ Ok (Next.Fault fault) → is_cut fault ≡ true → (I.told input.new).ended ≡ true }
    ensures reads { (front : List ℕ) (captured : List (List ℕ)) → HasReadRecords reader.old front captured
        → ReadsNext reader.old.held front captured result (I.told input.old) (I.told input.new) }
    ensures on { result ≡ Ok Next.Record → (I.told input.old).ended ≡ false → (I.told input.new).ended ≡ false }
    ensures goes_on { IsErrOf result CaptureReadFault.Source → (I.told input.old).ended ≡ false → (I.told input.new).ended ≡ false }
    ensures cause { HasReadCause (I.told input.old).faults (I.told input.new).faults result }
{
    let link = reader.link();
    match reader.next(input) {
        Ok(Some(captured)) => match taker.take(link, captured) {
            Ok(()) => Ok(Next::Record),
            Err(_) => Err(CaptureReadFault::OutOfMemory),
        },
        Ok(None) => Ok(Next::End),
        Err(NextFault::Capture(fault)) => Ok(Next::Fault(fault)),
        Err(NextFault::Failed) => Err(CaptureReadFault::Source),
    }
}
