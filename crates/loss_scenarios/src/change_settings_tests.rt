//! What `check` says of settings with changes: their lines, or the fault in them.
use crate::settings_words::settings_of;
use scenario_runs::expect;
use std::alloc::{AllocError as OutOfMemory, Global};
use std::test::Fail;
use test_recordings::{Left, faultless};

/// Settings as words, and after a bar what `check` says: `lists` with the lines of services as they are at first, and after them those of
/// each change, `;` between them, or the line of a fault.
const CASES: &str =
    "INT LECTURE FILES [[change]] at=2 [[change.service]] name=files pid=514 [[change]] at=3 [[change.service]] name=files pid=515|lists lecture mpe 512;files ule 513;change 2;files ule 514;change 3;files ule 515
# rules alone: the PID stays; services in the change's order
INT LECTURE FILES [[change]] at=4194304 [[change.service]] name=files rules=239.1.0.0/16 [[change.service]] name=lecture pid=514|lists lecture mpe 512;files ule 513;change 4194304;files ule 513;lecture mpe 514
cycle=100 INT FILES MOVED MOVED|settings 14
# the INT's PID, that of another service, in any version, and one that was left
INT FILES [[change]] at=3 [[change.service]] name=files pid=600|settings 14
INT LECTURE FILES [[change]] at=9 [[change.service]] name=files pid=512|settings 14
INT LECTURE FILES [[change]] at=3 [[change.service]] name=lecture pid=700 [[change]] at=9 [[change.service]] name=files pid=512|settings 14
INT FILES MOVED [[change]] at=9 [[change.service]] name=files pid=513|settings 14
# an unknown name, and one that stands twice
INT FILES [[change]] at=3 [[change.service]] name=file|settings 14
INT FILES MOVED [[change.service]] name=files|settings 14
FILES MOVED|settings 2 int
carrier=bb INT [[service]] name=files kind=gse isi=0 rules=239.2.0.0/16 MOVED|settings 12
INT FILES [[change]] at=1 [[change.service]] name=files|settings 4 at
INT FILES [[change]] at=3|settings 2 service
# checks of all versions: rules, and a first check before this one
INT FILES [[change]] at=3 [[change.service]] name=files rules=[]|settings 7
INT FILES FILES MOVED MOVED|settings 6";

/// Lines with a `;` between.
fn lines_of(alloc: Global, lines: &str) -> Result<String, OutOfMemory> {
    let mut text = String::new(alloc);
    for line in lines.split(';') {
        write!(&mut text, "{line}\n")?;
    }
    Ok(text)
}

/// Checks the settings of words, and compares all that is left.
fn ends(alloc: Global, words: &str, output: &str, line: &str) -> Result<(), Fail> {
    let settings = settings_of(alloc, words)?;
    let left = Left::flushed(output.as_bytes(), line, &[]);
    let given = faultless(&["check", "a.toml"], settings.as_bytes(), &[]);
    expect(alloc, words, &given, &left)
}

/// The settings of a line are listed, or have the fault that it says.
fn line_ends(alloc: Global, case: &str) -> Result<(), Fail> {
    if case.starts_with("#") {
        return Ok(());
    }
    let (words, said) = case.split_once('|').ok_or("no end")?;
    match said.strip_prefix("lists ") {
        Some(lines) => ends(alloc, words, &lines_of(alloc, lines)?, ""),
        None => ends(alloc, words, "", said),
    }
}

#[test]
fn changes_are_listed_or_have_the_line_of_their_fault(rt: HostRuntime) -> Result<(), Fail> {
    for case in CASES.lines() {
        line_ends(rt.alloc(), case)?;
    }
    Ok(())
}
