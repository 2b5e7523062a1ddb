//! A finder, record by record: what it prints after each.
use psi_tables::Finder;
use std::alloc::{AllocError as OutOfMemory, Global};
use std::test::Fail;
use test_lines::expect;
use test_recordings::{bytes_of, on_pid, start};
use ts_record::Record;

/// Records, and the PIDs of two rules after each: what comes, its PID, its continuity_counter and its section, of whose CRC_32 an
/// independent program made each.
const STEPS: &str =
    "a PMT before the PAT|8190|0|02B01D 000A C1 0000 FFFF F000 80E202F003520101 80E203F003520102 52C616CD|
the INT|600|0|4CF03B 0101 C1 0000 00000100 F000 F0070F05EF01000010 F00B1309000200030004000A01 F0070F05EF02000010 F00B1309000200030004000A02 50EBF7F3|- -
the PAT|0|0|00B00D 0004 C1 0000 000AFFFE 1F4B477D|- -
a PMT of program 11|8190|1|02B015 000B C1 0000 FFFF F000 80E202F003520101 9A91E1B8|- -
the PMT|8190|2|02B01D 000A C1 0000 FFFF F000 80E200F003520101 80E201F003520102 EB7991BF|512 513
its duplicate|8190|2|02B01D 000A C1 0000 FFFF F000 80E200F003520101 80E201F003520102 EB7991BF|512 513
another PMT|8190|3|02B01D 000A C1 0000 FFFF F000 80E202F003520101 80E203F003520102 52C616CD|512 513
another PAT|0|1|00B00D 0004 C3 0000 000AFFFD 8CA6B186|512 513
the PMT that it names|8189|0|02B01D 000A C1 0000 FFFF F000 80E202F003520101 80E203F003520102 52C616CD|512 513";

/// What is printed where there are no rules.
const NO_RULE: &str = "rule,service,tag,pid\n";

/// What is printed where the rules have these PIDs, if there are any.
fn text_of(alloc: Global, pids: &str) -> Result<String, OutOfMemory> {
    let Some((first, second)) = pids.split_once(' ') else {
        return NO_RULE.to_string(alloc);
    };
    format!(in alloc; "{NO_RULE}239.1.0.0/16,10,1,{first}\n239.2.0.0/16,10,2,{second}\n")
}

/// Gives a finder the packet of a section, where it is open.
fn give(finder: &mut Finder, pid: u16, counter: u8, section: &[u8]) -> Result<(), Fail> {
    if !finder.is_open() {
        return Err(Fail::new("closed"));
    }
    let item = Record {
        moment: Some(0),
        bytes: on_pid(start(counter, 0, section), pid),
    };
    finder.step(&item)?;
    Ok(())
}

/// Gives a finder the packet of a line, and fails where it prints something else then.
fn take(alloc: Global, finder: &mut Finder, line: &str) -> Result<(), Fail> {
    let Some((case, rest)) = line.split_once('|') else {
        return Err(Fail::new("no bar"));
    };
    let Some((pid, rest)) = rest.split_once('|') else {
        return Err(Fail::new("one bar"));
    };
    let Some((counter, rest)) = rest.split_once('|') else {
        return Err(Fail::new("two bars"));
    };
    let Some((section, pids)) = rest.split_once('|') else {
        return Err(Fail::new("three bars"));
    };
    let pid = pid.parse::<u16>()?;
    let counter = counter.parse::<u8>()?;
    give(finder, pid, counter, &bytes_of(alloc, section)?)?;
    let text = finder.text(alloc)?;
    expect(case, std::str::from_utf8(&text)?, &text_of(alloc, pids)?)
}

#[test]
fn the_first_tables_count_and_pmts_after_the_pat(rt: HostRuntime) -> Result<(), Fail> {
    let alloc = rt.alloc();
    let mut finder = Finder::new(alloc, 600)?;
    for line in STEPS.lines() {
        take(alloc, &mut finder, line)?;
    }
    Ok(())
}
