//! Words -> the text of settings.
//!
//! `INT`, `LECTURE`, `FILES` and `MOVED` stand for parts. `[[change]]` and the other heads of tables are lines themselves, and `pid=514` is
//! the line `pid = 514`. Texts stand without their quotes, those of a list with `,` between: `rules=239.1.0.0/16,239.2.0.0/16`.
use std::alloc::{AllocError as OutOfMemory, Global};
use std::test::Fail;
use test_recordings::settings::{FILES, INT, LECTURE};

/// The files move to PID 514 at record 3.
const MOVED: &str = "[[change]]
at = 3
[[change.service]]
name = \"files\"
pid = 514
";

/// Appends a list of texts.
fn put_list(text: &mut String, items: &str) -> Result<(), OutOfMemory> {
    text.push_str("[")?;
    for (number, item) in items.split(',').enumerate() {
        if number > 0 {
            text.push_str(", ")?;
        }
        write!(text, "\"{item}\"")?;
    }
    text.push_str("]\n")
}

/// Appends the value of a key.
fn put_value(text: &mut String, key: &str, value: &str) -> Result<(), OutOfMemory> {
    if value == "false" || value == "[]" || value.parse::<u64>().is_ok() {
        write!(text, "{value}\n")
    } else if key == "rules" || key == "filter" {
        put_list(text, value)
    } else {
        write!(text, "\"{value}\"\n")
    }
}

/// Appends a line: the head of a table, or a key with its value.
fn put_line(text: &mut String, word: &str) -> Result<(), Fail> {
    if word.starts_with("[") {
        write!(text, "{word}\n")?;
        return Ok(());
    }
    let (key, value) = word.split_once('=').ok_or("no such word")?;
    write!(text, "{key} = ")?;
    put_value(text, key, value)?;
    Ok(())
}

/// Appends what a word stands for.
fn put_word(text: &mut String, word: &str) -> Result<(), Fail> {
    match word {
        "INT" => text.push_str(INT)?,
        "LECTURE" => text.push_str(LECTURE)?,
        "FILES" => text.push_str(FILES)?,
        "MOVED" => text.push_str(MOVED)?,
        _ => put_line(text, word)?,
    }
    Ok(())
}

/// The settings of words.
pub fn settings_of(alloc: Global, words: &str) -> Result<String, Fail> {
    let mut text = String::new(alloc);
    for word in words.split_whitespace() {
        put_word(&mut text, word)?;
    }
    Ok(text)
}
