//! What must come of a recording, as text -> the captures and the report, compared with those that a run leaves.
//!
//! The text has a column for each scope of the report with `|` between: `stream`, the name of each service, and `table` where there is an
//! INT. After the scope a column has words:
//!
//! - `heard=23 units=12` are lines of the report, as `test_recordings::put_scope` reads them: a line that is not named is 0. `version=3` is
//!   the last one of the table, which has none where it is not named.
//! - `gives 0 3-13` after them are the numbers of a service's datagrams, `0*101` a datagram 101 times. `altered 1@60` after these says that
//!   the second that is given has other bytes from byte 60 on, as `undetected_errors` has them.
//! - `rules 239.1.0.0/16 239.2.0.0/16` after them are the rules of the table, with component_tag 0, 1 and so on.
//!
//! A scope without a column has that of `whole`.
use crate::datagrams::datagrams_of;
use crate::settings_words::settings_of;
use scenario_runs::expect;
use std::alloc::{AllocError as OutOfMemory, Global};
use std::test::Fail;
use test_recordings::{Datagram, FileLeft, Left, capture_of, faultless, put_scope};

/// The name of a service, and the list of datagrams of which it has some.
pub type Service = (&'static str, &'static str);

/// Settings as words, their services, and what must come where nothing is lost.
#[derive(Clone, Copy)]
pub struct Reception<'a> {
    pub settings: &'a str,
    pub services: &'a [Service],
    pub whole: &'a str,
}

/// The bits of five bytes that are flipped where an error goes undetected: the generator polynomial of a CRC-32 (ISO/IEC 13818-1 Annex A).
pub const UNDETECTED: [u8; 5] = [0x01, 0x04, 0xC1, 0x1D, 0xB7];

/// What must be left: the report, and the captures of the services in their order.
#[derive(Drop)]
struct Due {
    report: String,
    captures: Vec<Vec<u8>>,
}

/// The words of a scope's column.
fn column_of<'a>(columns: &'a str, scope: &str) -> Option<&'a str> {
    for column in columns.split('|') {
        let (name, words) = column.split_once(' ').unwrap_or((column, ""));
        if name == scope {
            return Some(words);
        }
    }
    None
}

/// Fails where there is a column of another scope, or a second one of a scope.
fn expect_scopes(columns: &str, services: &[Service]) -> Result<(), Fail> {
    let mut scopes = 0usize;
    for scope in ["stream", "table", ""] {
        scopes = scopes.saturating_add(usize::from(column_of(columns, scope).is_some()));
    }
    for service in services {
        let (name, _) = *service;
        scopes = scopes.saturating_add(usize::from(column_of(columns, name).is_some()));
    }
    if scopes != columns.split('|').count() {
        return Err(Fail::new(format_args!("other columns in {columns}")));
    }
    Ok(())
}

/// Flips the bits of five bytes that leave a CRC-32 right, in the capture's datagram of a number, from a place of it on.
///
/// A capture has 24 bytes before its first record, and 16 before each datagram.
fn alter(capture: &mut [u8], given: &[Datagram], word: &str) -> Result<(), Fail> {
    let (number, place) = word.split_once('@').ok_or("no place")?;
    let mut at = 40usize.saturating_add(place.parse()?);
    for datagram in given.iter().take(number.parse()?) {
        at = at
            .saturating_add(16)
            .saturating_add(usize::from(datagram.size));
    }
    for bits in UNDETECTED {
        *capture.get_mut(at).ok_or("no such byte")? ^= bits;
        at = at.saturating_add(1);
    }
    Ok(())
}

/// Appends the lines of a service, and its capture.
fn put_service(alloc: Global, due: &mut Due, service: &Service, words: &str) -> Result<(), Fail> {
    let (name, list) = *service;
    let (words, numbers) = words.split_once("gives").unwrap_or((words, ""));
    let (numbers, altered) = numbers.split_once("altered").unwrap_or((numbers, ""));
    let given = datagrams_of(alloc, list, numbers)?;
    let words = format!(in alloc; "{words} datagrams={}", given.len())?;
    put_scope(&mut due.report, name, &words)?;
    let mut capture = capture_of(alloc, &given)?;
    for word in altered.split_whitespace() {
        alter(&mut capture, &given, word)?;
    }
    due.captures.push(capture)?;
    Ok(())
}

/// Appends the lines of the table.
fn put_table(report: &mut String, words: &str) -> Result<(), Fail> {
    let (words, rules) = words.split_once("rules").unwrap_or((words, ""));
    let (words, version) = words.split_once("version=").unwrap_or((words, ""));
    put_scope(report, "table", words)?;
    if !version.is_empty() {
        write!(report, "table,version,{}\n", version.trim())?;
    }
    for (tag, rule) in rules.split_whitespace().enumerate() {
        write!(report, "rule,{rule},{tag}\n")?;
    }
    Ok(())
}

/// The words of a scope: those of a case, or of `whole` where it has none.
fn words_of<'a>(reception: &Reception<'a>, columns: &'a str, scope: &str) -> Option<&'a str> {
    match column_of(columns, scope) {
        Some(words) => Some(words),
        None => column_of(reception.whole, scope),
    }
}

/// Appends what the columns of a case say.
fn put_columns<'a>(
    alloc: Global,
    due: &mut Due,
    reception: &Reception<'a>,
    columns: &'a str,
) -> Result<(), Fail> {
    expect_scopes(columns, reception.services)?;
    expect_scopes(reception.whole, reception.services)?;
    let stream = words_of(reception, columns, "stream").ok_or("no stream")?;
    put_scope(&mut due.report, "stream", stream)?;
    for service in reception.services {
        let (name, _) = *service;
        let words = words_of(reception, columns, name).ok_or("no service")?;
        put_service(alloc, due, service, words)?;
    }
    match words_of(reception, columns, "table") {
        Some(table) => put_table(&mut due.report, table),
        None => Ok(()),
    }
}

/// The file of a service, all of it flushed.
fn file_of<'a>(service: &Service, bytes: &'a [u8]) -> FileLeft<'a> {
    let (name, _) = *service;
    match name {
        "lecture" => FileLeft::whole("lecture.pcap", bytes),
        "maps" => FileLeft::whole("maps.pcap", bytes),
        _ => FileLeft::whole("files.pcap", bytes),
    }
}

/// The files of all services.
fn files_of<'a>(
    alloc: Global,
    services: &[Service],
    captures: &'a [Vec<u8>],
) -> Result<Vec<FileLeft<'a>>, OutOfMemory> {
    let mut files = Vec::new(alloc);
    for (service, capture) in services.iter().zip(captures) {
        files.push(file_of(service, capture))?;
    }
    Ok(files)
}

/// Receives a recording, and compares all that is left.
fn leaves(
    alloc: Global,
    case: &str,
    reception: &Reception<'_>,
    recording: &[u8],
    due: &Due,
) -> Result<(), Fail> {
    let settings = settings_of(alloc, reception.settings)?;
    let files = files_of(alloc, reception.services, &due.captures)?;
    let left = Left::flushed(due.report.as_bytes(), "", &files);
    let given = faultless(&["receive", "a.toml"], settings.as_bytes(), recording);
    expect(alloc, case, &given, &left)
}

/// Of a recording comes what the columns of a case say.
pub fn comes<'a>(
    alloc: Global,
    case: &str,
    reception: &Reception<'a>,
    recording: &[u8],
    columns: &'a str,
) -> Result<(), Fail> {
    let mut due = Due {
        report: "scope,name,value\n".to_string(alloc)?,
        captures: Vec::new(alloc),
    };
    put_columns(alloc, &mut due, reception, columns)?;
    leaves(alloc, case, reception, recording, &due)
}
