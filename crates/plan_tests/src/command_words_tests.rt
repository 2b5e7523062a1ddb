//! What no clause says: that with ample memory words are read so.

use command_words::{Carrier, Command, WordsFault, parse_words};
use std::alloc::{AllocError, Global};
use std::test::Fail;
use test_lines::expect_lines;

/// The words of a text with a slash between two; none where the text is empty.
fn words_of(alloc: Global, text: &str) -> Result<Vec<String>, Fail> {
    let mut words = Vec::new(alloc);
    if !text.is_empty() {
        for word in text.split('/') {
            words.push(word.to_string(alloc)?)?;
        }
    }
    Ok(words)
}

/// Writes a job and its carrier.
fn put_carrier(text: &mut String, job: &str, carrier: Carrier) -> Result<(), AllocError> {
    match carrier {
        Carrier::Ule(pid) => write!(text, "{job} PID {pid}"),
        Carrier::Gse(isi) => write!(text, "{job} ISI {isi}"),
    }
}

/// Writes a command.
fn put_command(text: &mut String, command: &Command<'_>) -> Result<(), AllocError> {
    match command {
        Command::Send(name) => write!(text, "send {name}"),
        Command::Receive(name) => write!(text, "receive {name}"),
        Command::Check(name) => write!(text, "check {name}"),
        Command::Ule(pid) => write!(text, "ule {pid}"),
        Command::Sample(number) => write!(text, "sample {number}"),
        Command::Tables(name) => write!(text, "tables {name}"),
        Command::Find(pid) => write!(text, "find {pid}"),
        Command::Bridge(carrier) => put_carrier(text, "bridge", *carrier),
        Command::Unbridge(carrier) => put_carrier(text, "unbridge", *carrier),
        Command::Relay(inner, outer) => write!(text, "relay {inner} {outer}"),
    }
}

/// What words are read as.
fn read_of(alloc: Global, given: &str) -> Result<String, Fail> {
    let words = words_of(alloc, given)?;
    let mut text = String::new(alloc);
    match parse_words(alloc, &words) {
        Ok(command) => put_command(&mut text, &command),
        Err(WordsFault::Usage) => text.push_str("usage"),
        Err(WordsFault::OutOfMemory) => text.push_str("out of memory"),
    }?;
    Ok(text)
}

/// Words, with a slash between two, and what they are read as.
const LINES: &str = "send/a.toml|send a.toml
receive/a.toml|receive a.toml
check/a-b|check a-b
check/check|check check
ule/0|ule 0
ule/0256|ule 256
ule/8190|ule 8190
sample/0000000001|sample 1
sample/4294967295|sample 4294967295
tables/a.toml|tables a.toml
find/32|find 32
find/0600|find 600
find/8190|find 8190
bridge/ule:0|bridge PID 0
bridge/ule:0256|bridge PID 256
bridge/ule:8190|bridge PID 8190
bridge/gse:007|bridge ISI 7
bridge/gse:255|bridge ISI 255
unbridge/ule:8190|unbridge PID 8190
unbridge/gse:0|unbridge ISI 0
relay/a.toml/b.toml|relay a.toml b.toml
relay/a/a|relay a a
|usage
send|usage
send/a/b|usage
send/|usage
send/-a|usage
sen/a|usage
Send/a|usage
help/a|usage
help/send|usage
--help|usage
--help/a|usage
-h/a|usage
--version/a|usage
--/a|usage
check/--|usage
/a|usage
ule/|usage
ule/8191|usage
ule/00256|usage
ule/0x100|usage
ule/+256|usage
ule/-1|usage
sample/4294967296|usage
sample/00000000001|usage
sample/1 |usage
tables|usage
tables/a/b|usage
find/31|usage
find/8191|usage
find/00600|usage
find/x|usage
bridge|usage
bridge/ule:1/a|usage
bridge/ule:8191|usage
bridge/ule:00256|usage
bridge/ule:+1|usage
bridge/ule: 1|usage
bridge/ule:|usage
bridge/ule|usage
bridge/1|usage
bridge/ULE:1|usage
bridge/gse:256|usage
bridge/gse:0007|usage
bridge/gse:-1|usage
unbridge|usage
unbridge/gse:1/gse:2|usage
unbridge/gse:256|usage
unbridge/ule:8191|usage
relay|usage
relay/a|usage
relay/a/b/c|usage
relay//b|usage
relay/a/|usage
relay/-a/b|usage
relay/a/-b|usage";

#[test]
fn words_are_read_so(rt: HostRuntime) -> Result<(), Fail> {
    expect_lines(rt.alloc(), read_of, LINES)
}
