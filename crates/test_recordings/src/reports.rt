//! Words as `heard=7 units=8` -> the report of a reception, and the numbers of a service.
//!
//! A report has columns with `|` between, in its order:
//!
//! | Column | Lines of the report |
//! |---|---|
//! | `stream records=637 other=91` | those about the stream |
//! | `lecture heard=637 units=148` | those about a service |
//! | `table units=2` | those about the INT, but for its version and its rules |
//! | `rule,239.1.0.0/16,0` | a column without a space is a line itself |
//!
//! What no word names is 0, what several name is their sum, and a word that names nothing fails.
use service_counts::ServiceCounts;
use std::alloc::Global;
use std::test::Fail;

/// The lines about a service, in their order.
const SERVICE: &str =
    "heard repeats gaps units bad_check delimited bad_length unread filtered frames rows_mended rows_left datagrams";

/// The lines of a scope, in their order.
fn lines_of(scope: &str) -> &'static str {
    match scope {
        "stream" => "records tail_bytes unreadable without_payload other",
        "table" => "units refused",
        _ => SERVICE,
    }
}

/// Fails where a word has none of these names.
fn expect_names(words: &str, names: &str) -> Result<(), Fail> {
    for word in words.split_whitespace() {
        let (name, _) = word.split_once('=').ok_or("no number")?;
        if !names.split_whitespace().any(|known| known == name) {
            return Err(Fail::new(format_args!("{word} is none of {names}")));
        }
    }
    Ok(())
}

/// The number that these words give a name.
pub fn number_of(words: &str, name: &str) -> Result<u64, Fail> {
    let mut sum = 0u64;
    for word in words.split_whitespace() {
        let (named, number) = word.split_once('=').ok_or("no number")?;
        if named == name {
            sum = sum.saturating_add(number.parse()?);
        }
    }
    Ok(sum)
}

/// Appends the lines of a scope.
pub fn put_scope(report: &mut String, scope: &str, words: &str) -> Result<(), Fail> {
    let lines = lines_of(scope);
    expect_names(words, lines)?;
    for line in lines.split_whitespace() {
        let number = number_of(words, line)?;
        write!(report, "{scope},{line},{number}\n")?;
    }
    Ok(())
}

/// Appends the lines of a column.
fn put_column(report: &mut String, column: &str) -> Result<(), Fail> {
    if let Some((scope, words)) = column.split_once(' ') {
        return put_scope(report, scope, words);
    }
    write!(report, "{column}\n")?;
    Ok(())
}

/// The report of these columns.
pub fn report_of(alloc: Global, columns: &str) -> Result<String, Fail> {
    let mut text = "scope,name,value\n".to_string(alloc)?;
    for column in columns.split('|') {
        put_column(&mut text, column)?;
    }
    Ok(text)
}

/// The numbers of a service that these words give.
pub fn counts_of(words: &str) -> Result<ServiceCounts, Fail> {
    expect_names(words, SERVICE)?;
    Ok(ServiceCounts {
        heard: number_of(words, "heard")?,
        repeats: number_of(words, "repeats")?,
        gaps: number_of(words, "gaps")?,
        units: number_of(words, "units")?,
        bad_check: number_of(words, "bad_check")?,
        delimited: number_of(words, "delimited")?,
        bad_length: number_of(words, "bad_length")?,
        unread: number_of(words, "unread")?,
        filtered: number_of(words, "filtered")?,
        frames: number_of(words, "frames")?,
        rows_mended: number_of(words, "rows_mended")?,
        rows_left: number_of(words, "rows_left")?,
        datagrams: number_of(words, "datagrams")?,
    })
}
