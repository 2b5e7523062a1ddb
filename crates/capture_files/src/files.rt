//! The files of services: added with their heads, flushed at the end.
ghost use Rattle.std.specs.Prelude.{◌≡◌, ℕ, ◌+◌, ◌^◌, ◌<◌, ◌≤◌, false, length, map, string_bytes, IfOk, OnOk, OnErr, IsErrOf};
ghost use Rattle.wire_spec.specs.Causes.{HasCause};
ghost use Rattle.wire_spec.specs.Content.{Stays, AddsFile};
ghost use Rattle.ipe_io.specs.Counts.{HasAddCause};
ghost use Rattle.pcap_file.specs.Capture.{capture_head};
ghost use Rattle.plan.specs.Parts.{service_seen};
ghost use Rattle.capture_files.specs.Files.{file_name as name_of_file, file_with, AddsPart, AddsPartOf, AddsCaptures, AddsHeads, AddsHeadsPart, head_of};
ghost use Rattle.capture_files.specs.Flushes.{Flush};

use ipe_io::{AddFault, Failed, OutOfMemory, Rack, put_file};
use pcap_file::write_head;
use plan::ServiceList;
use std::alloc::Global;

/// The name of the file of a service.
fn file_name(alloc: Global, name: &str) -> Result<String, OutOfMemory>
    ensures written { IfOk result (λ text. string_bytes text ≡ name_of_file name.now) }
{
    let mut text = String::from_str(alloc, name)?;
    text.push_str(".pcap")?;
    Ok(text)
}

/// Adds the file `NAME.pcap`, writes the head of its capture, and answers its place.
pub fn add_file<R: Rack>(
    alloc: Global,
    name: &str,
    head: &[u8; 24],
    rack: &mut R,
) -> Result<u32, AddFault>
    ensures place { IfOk result (λ at. (at ≡ (R.told rack.old).count) × (at < 2 ^ 32)) }
    ensures written { OnOk result (((R.told rack.new).count ≡ (R.told rack.old).count + 1) × AddsFile (R.told rack.old).files (R.told rack.new).files (file_with false name.now head.now)) }
    ensures failed { IsErrOf result AddFault.Failed → AddsPartOf head.now name.now (R.told rack.old).files (R.told rack.new).files }
    ensures memory { IsErrOf result AddFault.OutOfMemory → ((R.told rack.new).count ≡ (R.told rack.old).count) × Stays (R.told rack.old).files (R.told rack.new).files }
    ensures most { (R.told rack.new).count ≤ (R.told rack.old).count + 1 }
    ensures cause { HasAddCause (R.told rack.old).faults (R.told rack.new).faults result }
{
    let text = file_name(alloc, name)?;
    let at = rack.add(alloc, text.as_str())?;
    match put_file(rack, at, head) {
        Ok(()) => Ok(at),
        Err(Failed) => Err(AddFault::Failed),
    }
}

/// Adds the file of a service, with the head of a capture of datagrams.
fn add_capture<R: Rack>(alloc: Global, name: &str, rack: &mut R) -> Result<u32, AddFault>
    ensures place { IfOk result (λ at. (at ≡ (R.told rack.old).count) × (at < 2 ^ 32)) }
    ensures written { OnOk result (((R.told rack.new).count ≡ (R.told rack.old).count + 1) × AddsFile (R.told rack.old).files (R.told rack.new).files (file_with false name.now capture_head)) }
    ensures failed { IsErrOf result AddFault.Failed → AddsPart name.now (R.told rack.old).files (R.told rack.new).files }
    ensures memory { IsErrOf result AddFault.OutOfMemory → ((R.told rack.new).count ≡ (R.told rack.old).count) × Stays (R.told rack.old).files (R.told rack.new).files }
    ensures most { (R.told rack.new).count ≤ (R.told rack.old).count + 1 }
    ensures cause { HasAddCause (R.told rack.old).faults (R.told rack.new).faults result }
{
    let mut head = [0u8; 24];
    write_head(&mut head);
    add_file(alloc, name, &head, rack)
}

/// Adds the files of all services in order, with their heads, and answers the place of the first.
pub fn add_files<R: Rack>(
    alloc: Global,
    services: &ServiceList,
    rack: &mut R,
) -> Result<u32, AddFault>
    requires some { 0 < length services.now }
    ensures place { IfOk result (λ first. (first ≡ (R.told rack.old).count) × (first + length services.now ≤ 2 ^ 32)) }
    ensures written { OnOk result (((R.told rack.new).count ≡ (R.told rack.old).count + length services.now) × AddsCaptures false head_of (map service_seen services.now) (R.told rack.old).files (R.told rack.new).files) }
    ensures failed { IsErrOf result AddFault.Failed → (count : ℕ) × AddsHeadsPart (map service_seen services.now) count (R.told rack.old).files (R.told rack.new).files }
    ensures memory { IsErrOf result AddFault.OutOfMemory → (heads : AddsHeads (map service_seen services.now) (R.told rack.old).files (R.told rack.new).files)
        × ((R.told rack.new).count ≡ (R.told rack.old).count + heads.count) }
    ensures most { (R.told rack.new).count ≤ (R.told rack.old).count + length services.now }
    ensures cause { HasAddCause (R.told rack.old).faults (R.told rack.new).faults result }
{
    let mut last = 0;
    for k in 0..services.len() {
        last = add_capture(alloc, services.at(k).name.text(), rack)?;
    }
    Ok(last - (services.len() - 1) as u32)
}

/// Flushes the files of all services, the first of them at a place.
pub fn flush_files<R: Rack>(rack: &mut R, first: u32, services: u32) -> Result<(), Failed>
    requires there { first + services ≤ (R.told rack.old).count }
    requires places { first + services ≤ 2 ^ 32 }
    ensures count { (R.told rack.new).count ≡ (R.told rack.old).count }
    ensures flushed { OnOk result (Flush (R.told rack.old).files (R.told rack.new).files first services) }
    ensures stopped { OnErr result ((count : ℕ) × (count < services) × Flush (R.told rack.old).files (R.told rack.new).files first count) }
    ensures cause { HasCause (R.told rack.old).faults (R.told rack.new).faults result }
{
    for k in 0..services {
        rack.flush(first + k)?;
    }
    Ok(())
}
