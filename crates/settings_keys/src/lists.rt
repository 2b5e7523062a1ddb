//! The lists of settings: rules, filters, services, changes.
ghost use Rattle.std.specs.Prelude.{◌≡◌, ℕ, ◌≤◌, Bool, true, false, List, codes, length, Some, None, IfOk, IfErr, MatchOption, option_map};
ghost use Rattle.std.specs.List.{list_all};
ghost use Rattle.std.specs.Option.{option_and_then};
ghost use Rattle.toml.specs.Data.{as_str, get_member};
ghost use Rattle.toml.specs.View.{view, table_view};
ghost use Rattle.addr_rules.specs.Texts.{mac_of_text};
ghost use Rattle.addr_rules.specs.declared.rules.Rule.{Rule};
ghost use Rattle.plan_spec.specs.Checks.{is_between};
ghost use Rattle.settings_spec.specs.Keys.{as_list, is_text, is_table, is_address, holds, texts, tables, items_at, texts_if_any, key_fault};
ghost use Rattle.settings_spec.specs.Refusal.{AreRules};
ghost use Rattle.settings_spec.specs.Settings.{filter_key};
ghost use Rattle.settings_keys.specs.Keys.{key_text, fault_seen};
ghost use Rattle.settings_keys.specs.Lists.{views, texts_of, macs_of, IsTextList};
ghost use Rattle.settings_keys.specs.Reading.{Reads, rule_for, items_where};

use crate::fault::PlanFault;
use crate::key::Key;
use crate::values::find;
use addr_rules::{MacList, RuleList, parse_mac, parse_rule};
use std::alloc::{AllocError as OutOfMemory, Global};
use toml::{Table, Value};

/// Whether each item is a text.
fn are_texts(items: &[Value]) -> bool
    ensures read { result ≡ list_all (λ v. is_text (view v)) items.now }
{
    items.iter().all(|item| item.is_str())
}

/// Whether each item is a table.
fn are_tables(items: &[Value]) -> bool
    ensures read { result ≡ list_all (λ v. is_table (view v)) items.now }
{
    items.iter().all(|item| item.is_table())
}

/// Whether there are 1 to `most`.
fn is_count(n: usize, most: usize) -> bool
    ensures read { result ≡ is_between 1 most n }
{
    n >= 1 && n <= most
}

/// The items of a list of texts.
fn text_list(value: &Value) -> Option<&[Value]>
    ensures read { option_map (λ v. views v.now) result ≡ items_where is_text (as_list (view value.now)) }
{
    let items = match value.as_array() {
        Some(items) => items.as_slice(),
        None => return None,
    };
    if are_texts(items) { Some(items) } else { None }
}

/// The items of a list of tables.
fn table_list(value: &Value) -> Option<&[Value]>
    ensures read { option_map (λ v. views v.now) result ≡ items_where is_table (as_list (view value.now)) }
{
    let items = match value.as_array() {
        Some(items) => items.as_slice(),
        None => return None,
    };
    if are_tables(items) { Some(items) } else { None }
}

/// The items of `rules`, texts.
pub fn rule_items(table: &Table) -> Result<&[Value], PlanFault>
    ensures read { Reads result (rule_for Key.Rules true texts) (table_view table.now) (λ v. views v.now ≡ items_at (codes "rules") (table_view table.now)) }
{
    let value = match find(table, Key::Rules) {
        Some(value) => value,
        None => return Err(PlanFault::Missing(Key::Rules)),
    };
    match text_list(value) {
        Some(items) => Ok(items),
        None => Err(PlanFault::Type_(Key::Rules)),
    }
}

/// The items of `urgent`, texts, or none where the key is absent.
pub fn urgent_items(table: &Table) -> Result<&[Value], PlanFault>
    ensures read { Reads result (rule_for Key.Urgent false texts) (table_view table.now) (λ v. views v.now ≡ items_at (codes "urgent") (table_view table.now)) }
{
    let value = match find(table, Key::Urgent) {
        Some(value) => value,
        None => return Ok(&[]),
    };
    match text_list(value) {
        Some(items) => Ok(items),
        None => Err(PlanFault::Type_(Key::Urgent)),
    }
}

/// The items of `filter`, texts, where there is one.
pub fn filter_items(table: &Table) -> Result<Option<&[Value]>, PlanFault>
    ensures there { IfOk result (λ o. MatchOption o (None ≡ get_member (codes "filter") (table_view table.now)) (λ v. IsTextList (get_member (codes "filter") (table_view table.now)) (views v.now))) }
    ensures fault { IfErr result (λ f. key_fault filter_key (table_view table.now) ≡ Some (fault_seen f)) }
{
    let value = match find(table, Key::Filter) {
        Some(value) => value,
        None => return Ok(None),
    };
    match text_list(value) {
        Some(items) => Ok(Some(items)),
        None => Err(PlanFault::Type_(Key::Filter)),
    }
}

/// The items of a list of 1 to `most` tables, which must be there.
pub fn table_items(table: &Table, key: Key, most: usize) -> Result<&[Value], PlanFault>
    ensures read { Reads result (rule_for key true (tables most)) (table_view table.now) (λ v. views v.now ≡ items_at (key_text key) (table_view table.now)) }
    ensures within { IfOk result (λ v. (1 ≤ length v.now) × (length v.now ≤ most)) }
    ensures all { IfOk result (λ v. list_all is_table (views v.now) ≡ true) }
{
    let value = match find(table, key) {
        Some(value) => value,
        None => return Err(PlanFault::Missing(key)),
    };
    let items = match table_list(value) {
        Some(items) => items,
        None => return Err(PlanFault::Type_(key)),
    };
    if is_count(items.len(), most) {
        Ok(items)
    } else {
        Err(PlanFault::Range(key))
    }
}

/// The items of `change`, 1 to 31 tables, or none where the key is absent.
pub fn change_items(table: &Table) -> Result<&[Value], PlanFault>
    ensures read { Reads result (rule_for Key.Change false (tables 31)) (table_view table.now) (λ v. views v.now ≡ items_at (codes "change") (table_view table.now)) }
{
    match find(table, Key::Change) {
        Some(_) => table_items(table, Key::Change, 31),
        None => Ok(&[]),
    }
}

/// The items of `rules` of a service that a change moves, texts, where its rules change.
pub fn moved_rules(table: &Table) -> Result<Option<&[Value]>, PlanFault>
    ensures read { Reads result (rule_for Key.Rules false texts) (table_view table.now) (λ o. option_map (λ v. texts_of (views v.now)) o ≡ texts_if_any (codes "rules") (table_view table.now)) }
{
    match find(table, Key::Rules) {
        Some(_) => Ok(Some(rule_items(table)?)),
        None => Ok(None),
    }
}

/// The rules that the texts among the items spell, and whether all of them are rules.
pub fn rules(alloc: Global, items: &[Value]) -> Result<(RuleList, bool), OutOfMemory>
    ensures spelled { IfOk result (λ r. r.1 ≡ true → AreRules (texts_of (views items.now)) r.0) }
    ensures only { IfOk result (λ r. (others : List Rule) → AreRules (texts_of (views items.now)) others → (r.1 ≡ true) × (others ≡ r.0)) }
{
    let mut list = RuleList::new(alloc);
    for item in items {
        let text = match item.as_str() {
            Some(text) => text,
            None => continue,
        };
        match parse_rule(text) {
            Some(rule) => list.push(rule)?,
            None => return Ok((list, false)),
        }
    }
    Ok((list, true))
}

/// The MAC address that an item is.
fn address(item: &Value) -> Option<[u8; 6]>
    ensures read { result ≡ option_and_then mac_of_text (as_str (view item.now)) }
{
    match item.as_str() {
        Some(text) => parse_mac(text),
        None => None,
    }
}

/// The MAC addresses that the items are, or None where one is none.
pub fn addresses(alloc: Global, items: &[Value]) -> Result<Option<MacList>, OutOfMemory>
    ensures read { IfOk result (λ r. MatchOption r (list_all (λ v. holds is_address (as_str v)) (views items.now) ≡ false) (λ list. (list_all (λ v. holds is_address (as_str v)) (views items.now) ≡ true) × (list ≡ macs_of (views items.now)))) }
{
    let mut list = MacList::new(alloc);
    for item in items {
        match address(item) {
            Some(mac) => list.push(mac)?,
            None => return Ok(None),
        }
    }
    Ok(Some(list))
}
