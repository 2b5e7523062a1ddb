//! What a recording of baseband frames must leave: the capture of each service, and the report. An independent program gave the numbers.
use scenario_runs::expect;
use std::alloc::{AllocError as OutOfMemory, Global};
use std::test::Fail;
use test_recordings::settings::settings_of;
use test_recordings::{
    Datagram, FileLeft, Given, Left, capture_of, faultless, numbers_in, put_scope,
};

/// Settings, and how many bytes a frame has under them.
#[derive(Clone, Copy)]
pub struct Form<'a> {
    pub settings: &'a [&'a str],
    pub size: usize,
}

/// A service and its file, its numbers, and which of the datagrams that were sent it gives.
#[derive(Clone, Copy)]
pub struct ServiceDue<'a> {
    pub name: &'a str,
    pub file: &'a str,
    /// Lines of the report as `heard=7 units=8`. What is not named is 0.
    pub numbers: &'a str,
    pub sent: &'a [Datagram],
    /// The numbers of the datagrams, as `0-1 3`.
    pub given: &'a str,
}

/// What must be left of a recording.
#[derive(Clone, Copy)]
pub struct Due<'a> {
    /// Lines of the report as `records=12 unreadable=3`.
    pub stream: &'a str,
    pub services: &'a [ServiceDue<'a>],
}

/// How many bytes the output and the files take.
const ROOM: usize = 100_000;

/// Appends the lines of a service.
fn put_service(alloc: Global, report: &mut String, service: &ServiceDue<'_>) -> Result<(), Fail> {
    let given = numbers_in(alloc, service.given)?.len();
    let words = format!(in alloc; "{} datagrams={given}", service.numbers)?;
    put_scope(report, service.name, &words)
}

/// The text of the report.
fn report_of(alloc: Global, due: &Due<'_>) -> Result<String, Fail> {
    let mut text = "scope,name,value\n".to_string(alloc)?;
    put_scope(&mut text, "stream", due.stream)?;
    for service in due.services {
        put_service(alloc, &mut text, service)?;
    }
    Ok(text)
}

/// The datagrams that a service gives.
fn given_of(alloc: Global, service: &ServiceDue<'_>) -> Result<Vec<Datagram>, Fail> {
    let numbers = numbers_in(alloc, service.given)?;
    let mut given = Vec::new(alloc);
    for number in &numbers {
        let datagram = service.sent.get(usize::from(*number));
        given.push(*datagram.ok_or("no such datagram")?)?;
    }
    Ok(given)
}

/// The captures of all services.
fn captures_of(alloc: Global, services: &[ServiceDue<'_>]) -> Result<Vec<Vec<u8>>, Fail> {
    let mut captures = Vec::new(alloc);
    for service in services {
        let given = given_of(alloc, service)?;
        captures.push(capture_of(alloc, &given)?)?;
    }
    Ok(captures)
}

/// The files of all services, with their captures.
fn files_of<'a>(
    alloc: Global,
    services: &[ServiceDue<'a>],
    captures: &'a [Vec<u8>],
) -> Result<Vec<FileLeft<'a>>, OutOfMemory> {
    let mut files = Vec::new(alloc);
    for (service, bytes) in services.iter().zip(captures) {
        files.push(FileLeft::whole(service.file, bytes))?;
    }
    Ok(files)
}

/// Runs a command under these settings, and compares all that is left.
fn leaves(
    alloc: Global,
    case: &str,
    form: &Form<'_>,
    command: &str,
    input: &[u8],
    left: &Left<'_>,
) -> Result<(), Fail> {
    let words = [command, "a.toml"];
    let settings = settings_of(alloc, form.settings)?;
    let given = Given {
        room: ROOM,
        ..faultless(&words, settings.as_bytes(), input)
    };
    expect(alloc, case, &given, left)
}

/// Receives a recording, and compares all that is left.
pub fn comes(
    alloc: Global,
    case: &str,
    form: &Form<'_>,
    recording: &[u8],
    due: &Due<'_>,
) -> Result<(), Fail> {
    let report = report_of(alloc, due)?;
    let captures = captures_of(alloc, due.services)?;
    let files = files_of(alloc, due.services, &captures)?;
    let left = Left::flushed(report.as_bytes(), "", &files);
    leaves(alloc, case, form, "receive", recording, &left)
}

/// The line that is reported where so many of these datagrams are unrouted.
fn line_of(alloc: Global, datagrams: &[Datagram], unrouted: usize) -> Result<String, OutOfMemory> {
    let offered = datagrams.len().saturating_sub(unrouted);
    let mut line = String::new(alloc);
    write!(
        &mut line,
        "offered {offered}, not IP 0, unrouted {unrouted}, too long 0"
    )?;
    Ok(line)
}

/// Sends datagrams, of which so many are unrouted, and compares the stream and the reported line.
pub fn goes_out(
    alloc: Global,
    case: &str,
    form: &Form<'_>,
    datagrams: &[Datagram],
    unrouted: usize,
    stream: &[u8],
) -> Result<(), Fail> {
    let capture = capture_of(alloc, datagrams)?;
    let line = line_of(alloc, datagrams, unrouted)?;
    let left = Left::flushed(stream, &line, &[]);
    leaves(alloc, case, form, "send", &capture, &left)
}
