//! What no clause says of `sample NUMBER`: that a run over objects in memory ends so, with ample memory, and what it prints.
use scenario_runs::expect;
use std::test::Fail;
use test_recordings::{Failing, Given, Left, faultless};

/// The summary of the sample of number 1. Two programs that were written apart from this one compute it.
const SUMMARY: &str = "offered 4000
packets 29068
dropped 898
lecture 2037 2037
files 1963 1694
";

/// The first calls of what a sample does not use.
const UNUSED: &[Failing] = &[Failing::Shelf(0), Failing::Input(0), Failing::Rack(0)];

#[test]
fn a_sample_prints_its_summary(rt: HostRuntime) -> Result<(), Fail> {
    let given = Given {
        fails: UNUSED,
        ..faultless(&["sample", "1"], &[], &[])
    };
    let left = Left::flushed(SUMMARY.as_bytes(), "", &[]);
    expect(rt.alloc(), "sample 1", &given, &left)
}
