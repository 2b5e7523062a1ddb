//! A line of a table -> what a receiver must leave; a receiver -> what it has left.
//!
//! A line has columns with `|` between.
//!
//! 1. What the case shows.
//! 2. What is received, a word a record or a frame: each table says what the words are. After `refuses=3` the outlet refuses the third
//!    datagram and all after it.
//! 3. The services of the datagrams that are delivered, numbered from 0, in their order; `-` is an offered one that is not. Then `fails`,
//!    where one is refused at the end; `open`, where the receiver is left open; `int` or `next`, where it lends this section of an INT.
//! 4. The columns of the report (`test_recordings::report_of`). Services are `one`, `two` and `three` in their order. A service of which
//!    nothing is counted has no column, nor has the INT without a section.
ghost use Rattle.std.specs.Prelude.{◌≤◌, length};
ghost use Rattle.demux_core.specs.Carriers.{plan_of as plan_in};

use demux_core::Receiver;
use loss_report::{Report, ServiceCounts};
use std::alloc::{AllocError as OutOfMemory, Global};
use std::test::Fail;
use test_recordings::units::{INT, NEXT_INT};
use test_recordings::{NotedOutlet, report_of};

/// The columns of a line.
#[derive(Clone, Copy)]
pub(crate) struct Case<'a> {
    name: &'a str,
    pub(crate) received: &'a str,
    /// From which call on the outlet refuses.
    pub(crate) refuses_from: usize,
    delivered: &'a str,
    report: &'a str,
}

/// Reads a line.
pub(crate) fn read_line(line: &str) -> Option<Case<'_>> {
    let (name, rest) = line.split_once('|')?;
    let (given, rest) = rest.split_once('|')?;
    let (delivered, report) = rest.split_once('|')?;
    let (received, refuses_from) = given.split_once(" refuses=").unwrap_or((given, "100"));
    Some(Case {
        name,
        received,
        refuses_from: refuses_from.parse::<usize>().ok()?,
        delivered,
        report,
    })
}

/// The numbers of a service; none where there is no such service.
fn numbers(receiver: &Receiver<'_>, service: u32, count: usize) -> ServiceCounts
    requires { count ≤ length (plan_in receiver.now).services }
{
    if service as usize >= count {
        return ServiceCounts::default();
    }
    receiver.counts(service)
}

/// Adds the services of which something is counted.
fn add_services(
    report: &mut Report,
    receiver: &Receiver<'_>,
    count: usize,
) -> Result<(), OutOfMemory>
    requires { count ≤ length (plan_in receiver.now).services }
{
    let nothing = ServiceCounts::default();
    let one = numbers(receiver, 0, count);
    let two = numbers(receiver, 1, count);
    let three = numbers(receiver, 2, count);
    if one != nothing {
        report.add_service("one", one)?;
    }
    if two != nothing {
        report.add_service("two", two)?;
    }
    if three != nothing {
        report.add_service("three", three)?;
    }
    Ok(())
}

/// The report of all that a receiver has counted.
fn report_by(alloc: Global, receiver: &Receiver<'_>, count: usize) -> Result<Vec<u8>, OutOfMemory>
    requires { count ≤ length (plan_in receiver.now).services }
{
    let mut report = Report::new(alloc, receiver.stream_counts());
    add_services(&mut report, receiver, count)?;
    if receiver.table_units() > 0 {
        report.add_table(receiver.table_units(), 0)?;
    }
    report.text(alloc)
}

/// The word for the section of an INT that is lent.
fn lent_by(receiver: &Receiver<'_>) -> &'static str {
    match receiver.table_section() {
        None => "",
        Some(section) => {
            if section == INT.as_slice() {
                "int"
            } else if section == NEXT_INT.as_slice() {
                "next"
            } else {
                "another"
            }
        }
    }
}

/// Appends a word for each datagram that was offered.
fn put_offered(text: &mut String, noted: &NotedOutlet) -> Result<(), OutOfMemory> {
    for service in noted.order() {
        write!(text, "{service} ")?;
    }
    for _ in noted.order().len()..noted.calls() {
        text.push_str("- ")?;
    }
    Ok(())
}

/// The third column of what is left.
fn delivered_by(
    alloc: Global,
    receiver: &Receiver<'_>,
    noted: &NotedOutlet,
    is_finished: bool,
) -> Result<String, OutOfMemory> {
    let mut text = String::new(alloc);
    put_offered(&mut text, noted)?;
    text.push_str(if is_finished { "" } else { "fails " })?;
    text.push_str(if receiver.is_open() { "open " } else { "" })?;
    text.push_str(lent_by(receiver))?;
    Ok(text)
}

/// Compares what is left with the columns of a case.
fn expect(case: &Case<'_>, delivered: &str, report: &[u8], due: &str) -> Result<(), Fail> {
    let name = case.name;
    if delivered.trim() != case.delivered {
        return Err(Fail::new(format_args!("{name}: {delivered}")));
    }
    if report != due.as_bytes() {
        return Err(Fail::new(format_args!("{name}: the report")));
    }
    Ok(())
}

/// Compares what a receiver of so many services has left with a case.
pub(crate) fn expect_left(
    alloc: Global,
    case: &Case<'_>,
    receiver: &Receiver<'_>,
    count: usize,
    noted: &NotedOutlet,
    is_finished: bool,
) -> Result<(), Fail>
    requires { count ≤ length (plan_in receiver.now).services }
{
    let delivered = delivered_by(alloc, receiver, noted, is_finished)?;
    let report = report_by(alloc, receiver, count)?;
    let due = report_of(alloc, case.report)?;
    expect(case, &delivered, &report, &due)
}
