//! Words that form no command, PIDs at their limits, settings that are missing or refused, and an output that is full. The carriers at their
//! limits stand in `bridge_tests`. The columns are those of `runs`.
use crate::runs::{all_end, columns_end};
use std::alloc::Global;
use std::test::Fail;

/// What it is, and calls, with a slash between.
const WORDS: &str = "no name, no PID and no carrier|bridge/unbridge/tables/find/relay/relay,a
two and more of them|bridge,ule:1,ule:2/unbridge,gse:1,a.toml/tables,a,b/find,600,601/relay,a,b,c/send,a,b
no carrier|bridge,256/bridge,ule:8191/bridge,ule:00256/bridge,ULE:1/unbridge,ule:/unbridge,ule: 1/unbridge,gse:256/unbridge,gse:0007
no PID of an INT|find,x/find,31/find,8191/find,0x258/find,+600/find,-600/find,00600
a name that is empty or begins with a dash|relay,,b/relay,a,/relay,-a,b/relay,a,-b
no such command|-relay,a,b";

/// What is reported of each.
const USAGE: &str =
    "usage: send SETTINGS, receive SETTINGS, ule PID, check SETTINGS, sample NUMBER, tables SETTINGS, find PID, bridge CARRIER, unbridge CARRIER, relay IN OUT";

/// The PID of an INT is 32 to 8190.
const PIDS: &str = "the first PID|find,32||head|
the last PID|find,8190||head|
a PID with a zero before it|find,0600||head|";

/// X is no TOML. The text and the packets are written as far as the output takes them.
const DISCOVERIES: &str =
    "no such file|tables,a.toml;b=INT+LECTURE;input=0;output=0;rack=0|||fault of the settings file
no TOML|tables,a.toml;a=X;input=0;output=0;rack=0|||settings 1
two services of one name|tables,a.toml;a=INT+FILES+FILES;input=0;output=0;rack=0|||settings 6
no room for the text|find,600;room=30|PAT@0 PMT@8190 INT@600|30 of both|fault of the output
no room for the packets|tables,a.toml;a=INT+LECTURE;room=10||10 of PAT@0|fault of the output";

/// The first fault of settings ends the run, and nothing is read or written, though each such call would fail. SPEED is an unknown key.
const RELAYS: &str =
    "neither is there|relay,a.toml,b.toml;input=0;output=0;rack=0|||fault of the settings file
the inner ones are missing|relay,a.toml,b.toml;b=SECTIONS;input=0;output=0;rack=0|||fault of the settings file
the inner ones are missing, and the outer ones refused|relay,a.toml,b.toml;b=X;input=0;output=0;rack=0|||fault of the settings file
the outer ones are missing|relay,a.toml,b.toml;a=SNDUS;input=0;output=0;rack=0|||fault of the settings file
the inner ones are refused|relay,a.toml,b.toml;a=X;b=SECTIONS;input=0;output=0;rack=0|||settings 1
the inner ones are refused, and the outer ones missing|relay,a.toml,b.toml;a=X;input=0;output=0;rack=0|||settings 1
both are refused, the inner ones as no TOML|relay,a.toml,b.toml;a=X;b=SPEED;input=0;output=0;rack=0|||settings 1
both are refused, the inner ones for a key|relay,a.toml,b.toml;a=SPEED;b=X;input=0;output=0;rack=0|||settings 13
the outer ones are refused|relay,a.toml,b.toml;a=SNDUS;b=SPEED;input=0;output=0;rack=0|||settings 13";

/// The usage line is reported, and no object is called.
fn is_refused(alloc: Global, words: &str) -> Result<(), Fail> {
    let call = format!(in alloc; "{words};shelf=0;input=0;output=0;rack=0")?;
    columns_end(alloc, words, &call, ("", "", USAGE))
}

/// All calls of a line are refused.
fn are_refused(alloc: Global, calls: &str) -> Result<(), Fail> {
    for words in calls.split('/') {
        is_refused(alloc, words)?;
    }
    Ok(())
}

#[test]
fn other_words_form_no_command(rt: HostRuntime) -> Result<(), Fail> {
    for line in WORDS.lines() {
        let (_, calls) = line.split_once('|').ok_or("no calls")?;
        are_refused(rt.alloc(), calls)?;
    }
    Ok(())
}

#[test]
fn pids_of_an_int_are_taken(rt: HostRuntime) -> Result<(), Fail> {
    all_end(rt.alloc(), PIDS)
}

#[test]
fn settings_and_a_full_output_end_a_run(rt: HostRuntime) -> Result<(), Fail> {
    all_end(rt.alloc(), DISCOVERIES)
}

#[test]
fn the_first_fault_of_settings_ends_a_relay(rt: HostRuntime) -> Result<(), Fail> {
    all_end(rt.alloc(), RELAYS)
}
