//! What no clause says: that with ample memory settings files are loaded so; and lines by hand.

use ipe_io::{MemShelf, MemSink};
use service_plan::{Key, Plan, PlanFault};
use settings_load::{FileFault, SettingsError, list_services, load_plan, put_fault};
use std::alloc::Global;
use std::test::Fail;
use test_lines::expect;

/// Two services in baseband frames.
const FRAMES: &str = "carrier = 'bb'
[[service]]
name = 'a'
kind = 'gse'
isi = 0
rules = ['10.0.0.0/8']
[[service]]
name = 'b-2'
kind = 'gse'
isi = 255
rules = ['11.0.0.0/8']
";

/// What a sink holds, and how many bytes of it are flushed.
fn held_in(alloc: Global, sink: &MemSink) -> Result<String, Fail> {
    let text = std::str::from_utf8(sink.bytes())?;
    Ok(format!(in alloc; "{text}{} bytes flushed", sink.flushed())?)
}

/// The lines of the services of a plan.
fn lines_of(alloc: Global, plan: &Plan) -> Result<String, Fail> {
    let mut output = MemSink::new(alloc, 100, &[])?;
    list_services(plan, &mut output)?;
    held_in(alloc, &output)
}

/// A plan, or the fault, from a shelf that has the file `a` and whose calls of some numbers fail.
fn loaded(
    alloc: Global,
    name: &str,
    file: &str,
    fails: &[u32],
) -> Result<Result<Plan, SettingsError>, Fail> {
    let mut shelf = MemShelf::new(alloc, "a", file.as_bytes(), fails)?;
    Ok(load_plan(alloc, name, &mut shelf))
}

/// The lines of the services of that plan, or the fault.
fn listed(alloc: Global, name: &str, file: &str, fails: &[u32]) -> Result<String, Fail> {
    match loaded(alloc, name, file, fails)? {
        Ok(plan) => lines_of(alloc, &plan),
        Err(error) => Ok(format!(in alloc; "{error:?}")?),
    }
}

#[test]
fn files_are_loaded_and_listed(rt: HostRuntime) -> Result<(), Fail> {
    let alloc = rt.alloc();
    let lines = "a gse 0\nb-2 gse 255\n20 bytes flushed";
    expect("a file", &listed(alloc, "a", FRAMES, &[])?, lines)?;
    expect("no file", &listed(alloc, "b", FRAMES, &[])?, "ShelfFault")?;
    expect(
        "a load that fails",
        &listed(alloc, "a", FRAMES, &[0])?,
        "ShelfFault",
    )?;
    let fault = "File(Plan(Missing(Service)))";
    expect("no service", &listed(alloc, "a", "", &[])?, fault)
}

/// What is told of a fault.
fn told(alloc: Global, fault: FileFault) -> Result<String, Fail> {
    let mut complaints = MemSink::new(alloc, 100, &[])?;
    put_fault(fault, &mut complaints)?;
    Ok(std::str::from_utf8(complaints.bytes())?.to_string(alloc)?)
}

/// Faults and their lines.
const FAULTS: [(FileFault, &str); 5] = [
    (FileFault::TooLong, "ipencap: settings too long\n"),
    (FileFault::Plan(PlanFault::Text), "ipencap: settings 1\n"),
    (
        FileFault::Plan(PlanFault::Missing(Key::OriginalNetworkId)),
        "ipencap: settings 2 original_network_id\n",
    ),
    (
        FileFault::Plan(PlanFault::Type_(Key::Pid)),
        "ipencap: settings 3 pid\n",
    ),
    (
        FileFault::Plan(PlanFault::Unknown),
        "ipencap: settings 13\n",
    ),
];

#[test]
fn faults_have_their_lines(rt: HostRuntime) -> Result<(), Fail> {
    for (fault, want) in &FAULTS {
        expect(want, &told(rt.alloc(), *fault)?, want)?;
    }
    Ok(())
}
