//! What comes of frames that are lost or damaged: tables of text, a case a line, in columns with `|` between.
//!
//! 1. What is lost.
//! 2. What happens to the frames, as `2-6` or `5@0^10`, in the words of `test_recordings::left_of`.
//! 3. Lines of the report about the stream, as `records=12 unreadable=3`. Here and below, what is not named is 0.
//! 4. For each service its lines, as `heard=7 units=8`, and the numbers of the datagrams that it gives, in order, as `0-2 4`.
use crate::report::{Due, Form, ServiceDue, comes};
use std::alloc::Global;
use std::test::Fail;
use test_recordings::{Datagram, left_of};

/// A service, its file, and the datagrams that it was sent.
#[derive(Clone, Copy)]
pub struct Sent<'a> {
    pub name: &'a str,
    pub file: &'a str,
    pub datagrams: &'a [Datagram],
}

/// What the columns of all services say.
fn dues_of<'a>(
    alloc: Global,
    sent: &[Sent<'a>],
    columns: &'a str,
) -> Result<Vec<ServiceDue<'a>>, Fail> {
    if columns.split('|').count() != sent.len().saturating_mul(2) {
        return Err("other columns".into());
    }
    let mut dues = Vec::new(alloc);
    let mut columns = columns.split('|');
    for service in sent {
        dues.push(ServiceDue {
            name: service.name,
            file: service.file,
            numbers: columns.next().ok_or("no numbers")?,
            sent: service.datagrams,
            given: columns.next().ok_or("no datagrams")?,
        })?;
    }
    Ok(dues)
}

/// Receives what is left of a stream, and compares what comes.
pub fn line_comes(
    alloc: Global,
    form: &Form<'_>,
    stream: &[u8],
    sent: &[Sent<'_>],
    line: &str,
) -> Result<(), Fail> {
    let (name, rest) = line.split_once('|').ok_or("no harms")?;
    let (harms, rest) = rest.split_once('|').ok_or("no stream")?;
    let (numbers, columns) = rest.split_once('|').ok_or("no services")?;
    let recording = left_of(alloc, stream, form.size, harms)?;
    let services = dues_of(alloc, sent, columns)?;
    let due = Due {
        stream: numbers,
        services: &services,
    };
    comes(alloc, name, form, &recording, &due)
}

/// Of each case of a table comes what must come.
pub fn all_come(
    alloc: Global,
    form: &Form<'_>,
    stream: &[u8],
    sent: &[Sent<'_>],
    table: &str,
) -> Result<(), Fail> {
    for line in table.lines() {
        line_comes(alloc, form, stream, sent, line)?;
    }
    Ok(())
}
