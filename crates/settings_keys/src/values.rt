//! The value of one key of a table: the table and the key come in, the value or what is wrong with it goes out.
ghost use Rattle.std.specs.Prelude.{◌≡◌, ℕ, ◌≤◌, Bool, true, false, [], ◌∷◌, length, map, codes, Some, None, IfOk, IfSome, is_none, option_map, unwrap_or, bytes_eq};
ghost use Rattle.std.specs.List.{list_all, list_any};
ghost use Rattle.toml.specs.Data.{get_member};
ghost use Rattle.toml.specs.View.{view, table_view};
ghost use Rattle.plan_spec.specs.Checks.{is_between, is_row_count, is_service_name, is_name_character as is_character, is_reserved as is_reserved_name};
ghost use Rattle.settings_spec.specs.Keys.{one_of, name_text as name_values, address_text, any_text, range, row_count, flag as flag_values, natural as natural_of, text_or, number_or, number_at, flag_or, address_or};
ghost use Rattle.settings_keys.specs.Keys.{key_text};
ghost use Rattle.settings_keys.specs.Reading.{Reads, rule_for, within, words_of};

use crate::fault::PlanFault;
use crate::key::Key;
use addr_rules::parse_mac;
use toml::{Table, Value};

/// What stands at a key.
pub fn find<'t>(table: &'t Table, key: Key) -> Option<&'t Value>
    ensures found { option_map (λ v. view v.now) result ≡ get_member (key_text key) (table_view table.now) }
{
    table.get(key.name())
}

/// The number, from 0 on.
fn natural(number: i64) -> Option<u64>
    ensures read { result ≡ natural_of number }
{
    if number < 0 {
        return None;
    }
    Some(number as u64)
}

/// The number, from `least` to `most`.
fn between(number: i64, least: u32, most: u32) -> Option<u32>
    ensures read { result ≡ within (is_between least most) (natural_of number) }
{
    match natural(number) {
        Some(n) if n >= u64::from(least) && n <= u64::from(most) => Some(n as u32),
        _ => None,
    }
}

/// The number of rows that frames may have.
fn row_number(number: i64) -> Option<u16>
    ensures read { result ≡ within is_row_count (natural_of number) }
{
    match natural(number) {
        Some(n) if n == 256 || n == 512 || n == 768 || n == 1024 => Some(n as u16),
        _ => None,
    }
}

/// A whole number from `least` to `most`. A key that must be there has no default.
pub fn number(
    table: &Table,
    key: Key,
    least: u32,
    most: u32,
    default: Option<u32>,
) -> Result<u32, PlanFault>
    requires { IfSome default (λ d. (least ≤ d) × (d ≤ most)) }
    ensures read { Reads result (rule_for key (is_none default) (range least most)) (table_view table.now) (λ n. n ≡ number_or (unwrap_or default 0) (key_text key) (table_view table.now)) }
    ensures within { IfOk result (λ n. (least ≤ n) × (n ≤ most)) }
{
    let value = match find(table, key) {
        Some(value) => value,
        None => match default {
            Some(default) => return Ok(default),
            None => return Err(PlanFault::Missing(key)),
        },
    };
    let number = match value.as_integer() {
        Some(number) => number,
        None => return Err(PlanFault::Type_(key)),
    };
    match between(number, least, most) {
        Some(number) => Ok(number),
        None => Err(PlanFault::Range(key)),
    }
}

/// The PID of the INT or of a service.
#[tactic(auto, using(crate::proofs::KeyLemmas::first_here, crate::proofs::KeyLemmas::first_later))]
pub fn pid(table: &Table) -> Result<u16, PlanFault>
    ensures read { Reads result (rule_for Key.Pid true (range 32 8190)) (table_view table.now) (λ n. n ≡ number_or 0 (codes "pid") (table_view table.now)) }
    ensures within { IfOk result (λ n. (32 ≤ n) × (n ≤ 8190)) }
{
    let number = number(table, Key::Pid, 32, 8190, None)?;
    Ok(number as u16)
}

/// The PID of a service that a change moves, where it changes.
pub fn moved_pid(table: &Table) -> Result<Option<u16>, PlanFault>
    ensures read { Reads result (rule_for Key.Pid false (range 32 8190)) (table_view table.now) (λ o. o ≡ number_at (codes "pid") (table_view table.now)) }
{
    match find(table, Key::Pid) {
        Some(_) => Ok(Some(pid(table)?)),
        None => Ok(None),
    }
}

/// The rows of a frame: 256, 512, 768 or 1024, which is the default.
pub fn rows(table: &Table) -> Result<u16, PlanFault>
    ensures read { Reads result (rule_for Key.Rows false row_count) (table_view table.now) (λ n. n ≡ number_or 1024 (codes "rows") (table_view table.now)) }
    ensures within { IfOk result (λ n. is_row_count n ≡ true) }
{
    let value = match find(table, Key::Rows) {
        Some(value) => value,
        None => return Ok(1024),
    };
    let number = match value.as_integer() {
        Some(number) => number,
        None => return Err(PlanFault::Type_(Key::Rows)),
    };
    match row_number(number) {
        Some(number) => Ok(number),
        None => Err(PlanFault::Range(Key::Rows)),
    }
}

/// Whether a key says true, which is the default.
pub fn flag(table: &Table, key: Key) -> Result<bool, PlanFault>
    ensures read { Reads result (rule_for key false flag_values) (table_view table.now) (λ b. b ≡ flag_or true (key_text key) (table_view table.now)) }
{
    let value = match find(table, key) {
        Some(value) => value,
        None => return Ok(true),
    };
    match value.as_bool() {
        Some(flag) => Ok(flag),
        None => Err(PlanFault::Type_(key)),
    }
}

/// The words that a key may hold.
fn words(key: Key) -> &'static [&'static str]
    ensures read { map (λ word. word.now) result.now ≡ words_of key }
{
    match key {
        Key::Carrier => &["ts", "bb"],
        Key::Recording => &["plain", "stamped", "m2ts"],
        Key::Kind => &["ule", "mpe", "fec", "gse"],
        Key::Mode => &["indexed", "sliced"],
        _ => &[],
    }
}

/// Whether a text is one of the words.
fn has_word(words: &[&str], text: &str) -> bool
    ensures read { result ≡ list_any (λ word. bytes_eq text.now word.now) words.now }
{
    words.iter().any(|word| text == *word)
}

/// Whether a key may hold a word.
fn is_word(key: Key, text: &str) -> bool
    ensures read { result ≡ list_any (bytes_eq text.now) (words_of key) }
{
    has_word(words(key), text)
}

/// One of the words of a key, or the default.
pub fn word<'t>(table: &'t Table, key: Key, default: &'t str) -> Result<&'t str, PlanFault>
    ensures read { Reads result (rule_for key false (one_of (words_of key))) (table_view table.now) (λ w. w.now ≡ text_or default.now (key_text key) (table_view table.now)) }
{
    let value = match find(table, key) {
        Some(value) => value,
        None => return Ok(default),
    };
    let text = match value.as_str() {
        Some(text) => text,
        None => return Err(PlanFault::Type_(key)),
    };
    if is_word(key, text) {
        Ok(text)
    } else {
        Err(PlanFault::Range(key))
    }
}

/// The kind of a service.
pub fn kind_word(table: &Table) -> Result<&str, PlanFault>
    ensures read { Reads result (rule_for Key.Kind true (one_of (words_of Key.Kind))) (table_view table.now) (λ w. w.now ≡ text_or [] (codes "kind") (table_view table.now)) }
{
    let value = match find(table, Key::Kind) {
        Some(value) => value,
        None => return Err(PlanFault::Missing(Key::Kind)),
    };
    let text = match value.as_str() {
        Some(text) => text,
        None => return Err(PlanFault::Type_(Key::Kind)),
    };
    if is_word(Key::Kind, text) {
        Ok(text)
    } else {
        Err(PlanFault::Range(Key::Kind))
    }
}

/// Whether a name has one of its lengths.
fn has_name_length(text: &str) -> bool
    ensures read { result ≡ is_between 1 32 (length text.now) }
{
    text.len() >= 1 && text.len() <= 32
}

/// Whether all characters are those of names.
fn has_name_characters(text: &str) -> bool
    ensures read { result ≡ list_all is_character text.now }
{
    text.as_bytes().iter().all(|byte| is_name_character(*byte))
}

/// Whether the report has this word for itself.
fn is_reserved(text: &str) -> bool
    ensures read { result ≡ is_reserved_name text.now }
{
    has_word(&["stream", "table", "rule"], text)
}

/// Whether a service may have this name.
fn is_name(text: &str) -> bool
    ensures read { result ≡ is_service_name text.now }
{
    has_name_length(text) && has_name_characters(text) && !is_reserved(text)
}

/// A letter, a digit, - or _.
fn is_name_character(byte: u8) -> bool
    ensures read { result ≡ is_character byte }
{
    byte >= b'a' && byte <= b'z' || byte >= b'0' && byte <= b'9' || byte == b'-' || byte == b'_'
}

/// The name of a service.
pub fn name_text(table: &Table) -> Result<&str, PlanFault>
    ensures read { Reads result (rule_for Key.Name true name_values) (table_view table.now) (λ w. w.now ≡ text_or [] (codes "name") (table_view table.now)) }
    ensures valid { IfOk result (λ w. is_service_name w.now ≡ true) }
{
    let value = match find(table, Key::Name) {
        Some(value) => value,
        None => return Err(PlanFault::Missing(Key::Name)),
    };
    let text = match value.as_str() {
        Some(text) => text,
        None => return Err(PlanFault::Type_(Key::Name)),
    };
    if is_name(text) {
        Ok(text)
    } else {
        Err(PlanFault::Range(Key::Name))
    }
}

/// The name of a service that a change moves, any text.
pub fn moved_name(table: &Table) -> Result<&str, PlanFault>
    ensures read { Reads result (rule_for Key.Name true any_text) (table_view table.now) (λ w. w.now ≡ text_or [] (codes "name") (table_view table.now)) }
{
    let value = match find(table, Key::Name) {
        Some(value) => value,
        None => return Err(PlanFault::Missing(Key::Name)),
    };
    match value.as_str() {
        Some(text) => Ok(text),
        None => Err(PlanFault::Type_(Key::Name)),
    }
}

/// A MAC address, FF:FF:FF:FF:FF:FF by default.
pub fn unicast(table: &Table) -> Result<[u8; 6], PlanFault>
    ensures read { Reads result (rule_for Key.Unicast false address_text) (table_view table.now) (λ a. a ≡ address_or (255 ∷ 255 ∷ 255 ∷ 255 ∷ 255 ∷ 255 ∷ []) (codes "unicast") (table_view table.now)) }
{
    let value = match find(table, Key::Unicast) {
        Some(value) => value,
        None => return Ok([0xFF; 6]),
    };
    let text = match value.as_str() {
        Some(text) => text,
        None => return Err(PlanFault::Type_(Key::Unicast)),
    };
    match parse_mac(text) {
        Some(address) => Ok(address),
        None => Err(PlanFault::Range(Key::Unicast)),
    }
}
