//! The list of changes in settings.
ghost use Rattle.std.specs.Prelude.{◌≡◌, ◌≤◌, nat_lt, IfOk, unwrap_or, length, option_map};
ghost use Rattle.toml.specs.View.{table_view};
ghost use Rattle.settings_spec.specs.Keys.{table_fault};
ghost use Rattle.settings_spec.specs.Changes.{place_of_name};
ghost use Rattle.settings_spec.specs.Settings.{moved_fault, moved_keys, change_fault, changes_fault};
ghost use Rattle.plan.specs.Parts.{services_seen};
ghost use Rattle.settings_keys.specs.Lists.{views, tables_of, texts_of};
ghost use Rattle.service_plan.specs.Reading.{AnswersOrWants};
ghost use Rattle.plan.specs.Moves.{services_after, service_after, pid_after as pid_seen};
ghost use Rattle.service_plan.specs.Changes.{AreNew, IsMoveOf, AreMovesOf, IsChangeOf, AreChangesOf};

use crate::fault::PlanError;
use addr_rules::RuleList;
use plan::{Change, ChangeList, Moved, MovedList, Service, pid_after, rules_after};
use settings_keys::{
    Key, moved_name, moved_pid, moved_rules, number, refuse_unknown, rules, table_items,
};
use std::alloc::{AllocError as OutOfMemory, Global};
use toml::{Table, Value};

/// The keys of a change.
const CHANGE_KEYS: [Key; 2] = [Key::At, Key::Service];

/// The keys of a service that a change moves.
const MOVED_KEYS: [Key; 3] = [Key::Name, Key::Pid, Key::Rules];

/// A moved service, and whether each text of its rules is one.
#[derive(Drop)]
struct MovedDraft {
    moved: Moved,
    spelled: bool,
}

/// Moved services, and whether each text of their rules is one.
#[derive(Drop)]
struct MovesDraft {
    moved: MovedList,
    spelled: bool,
}

/// A change, and whether each text of its rules is one.
#[derive(Drop)]
struct ChangeDraft {
    change: Change,
    spelled: bool,
}

/// Changes, and whether each text of their rules is one.
#[derive(Drop)]
pub(crate) struct ChangesDraft {
    pub(crate) changes: ChangeList,
    pub(crate) spelled: bool,
}

/// The place of the service of this name, their number where none has it.
fn place_named(services: &[Service], name: &str) -> usize
    ensures read { result ≡ place_of_name (services_seen services.now) name.now }
    ensures within { result ≤ length services.now }
{
    for i in 0..services.len() {
        let service = &services[i];
        if service.name.text() == name {
            return i;
        }
    }
    services.len()
}

/// The same rules once more.
fn copy_of(alloc: Global, rules: &RuleList) -> Result<RuleList, OutOfMemory>
    ensures { IfOk result (λ copy. copy ≡ rules.now) }
{
    let mut copy = RuleList::new(alloc);
    for i in 0..rules.len() {
        copy.push(*rules.at(i))?;
    }
    Ok(copy)
}

/// Whether a place is that of a service.
fn is_there(services: &[Service], place: u32) -> bool
    ensures { result ≡ nat_lt place (length services.now) }
{
    (place as usize) < services.len()
}

/// The PID of a service after some changes, 0 where there is none.
fn old_pid(services: &[Service], before: &[Change], place: u32) -> u16
    ensures { result ≡ unwrap_or (pid_seen services.now before.now place) 0 }
{
    if is_there(services, place) {
        pid_after(services, before, place).unwrap_or(0)
    } else {
        0
    }
}

/// The rules of a service after some changes, none where it is not there.
fn old_rules(
    alloc: Global,
    services: &[Service],
    before: &[Change],
    place: u32,
) -> Result<RuleList, OutOfMemory>
    ensures { IfOk result (λ rules. rules ≡ (service_after services.now before.now place).rules) }
{
    if is_there(services, place) {
        copy_of(alloc, rules_after(services, before, place))
    } else {
        Ok(RuleList::new(alloc))
    }
}

/// The rules that a service has from now on, and whether each text of them is one.
fn new_rules(
    alloc: Global,
    services: &[Service],
    before: &[Change],
    place: u32,
    items: Option<&[Value]>,
) -> Result<(RuleList, bool), OutOfMemory>
    ensures read { IfOk result (λ r. AreNew (option_map (λ v. texts_of (views v.now)) items.entry) (service_after services.now before.now place).rules r.0 r.1) }
{
    match items {
        Some(items) => {
            let read = rules(alloc, items)?;
            Ok(read)
        }
        None => {
            let old = old_rules(alloc, services, before, place)?;
            Ok((old, true))
        }
    }
}

/// The PID that a service has from now on.
fn new_pid(services: &[Service], before: &[Change], place: u32, pid: Option<u16>) -> u16
    ensures { result ≡ unwrap_or pid (unwrap_or (pid_seen services.now before.now place) 0) }
{
    match pid {
        Some(pid) => pid,
        None => old_pid(services, before, place),
    }
}

/// Reads a service that a change moves, after the changes before it.
#[tactic(auto, using(settings_keys::proofs::KeyLemmas::first_here, settings_keys::proofs::KeyLemmas::first_later))]
fn read_moved(
    alloc: Global,
    services: &[Service],
    before: &[Change],
    table: &Table,
) -> Result<MovedDraft, PlanError>
    requires { length services.now ≤ 64 }
    ensures read { AnswersOrWants result (table_fault moved_keys (table_view table.now)) (IsMoveOf (services_after services.now before.now) (table_view table.now)) }
{
    refuse_unknown(table, &MOVED_KEYS)?;
    let name = moved_name(table)?;
    let pid = moved_pid(table)?;
    let items = moved_rules(table)?;
    let place = place_named(services, name) as u32;
    let new = new_rules(alloc, services, before, place, items)?;
    let (rules, spelled) = new;
    let moved = Moved {
        service: place,
        pid: new_pid(services, before, place, pid),
        rules,
    };
    Ok(MovedDraft { moved, spelled })
}

/// Reads the services that a change moves.
fn read_moves(
    alloc: Global,
    services: &[Service],
    before: &[Change],
    items: &[Value],
) -> Result<MovesDraft, PlanError>
    requires { length services.now ≤ 64 }
    ensures read { AnswersOrWants result (moved_fault (tables_of (views items.now))) (AreMovesOf (services_after services.now before.now) (tables_of (views items.now))) }
{
    let mut moved = MovedList::new(alloc);
    let mut spelled = true;
    for item in items {
        let table = match item.as_table() {
            Some(table) => table,
            None => continue,
        };
        let draft = read_moved(alloc, services, before, table)?;
        spelled &= draft.spelled;
        moved.push(draft.moved)?;
    }
    Ok(MovesDraft { moved, spelled })
}

/// Reads a change, after the changes before it.
#[tactic(auto, using(settings_keys::proofs::KeyLemmas::first_here, settings_keys::proofs::KeyLemmas::first_later, crate::proofs::KeyLemmas::error_here, crate::proofs::KeyLemmas::error_later), unfolding(settings_spec::specs::Settings::change_fault))]
fn read_change(
    alloc: Global,
    services: &[Service],
    before: &[Change],
    table: &Table,
) -> Result<ChangeDraft, PlanError>
    requires { length services.now ≤ 64 }
    ensures read { AnswersOrWants result (change_fault (table_view table.now)) (IsChangeOf (services_after services.now before.now) (table_view table.now)) }
{
    refuse_unknown(table, &CHANGE_KEYS)?;
    let at = number(table, Key::At, 2, 4_194_304, None)?;
    let items = table_items(table, Key::Service, 64)?;
    let read = read_moves(alloc, services, before, items)?;
    let change = Change {
        at,
        moved: read.moved,
    };
    Ok(ChangeDraft {
        change,
        spelled: read.spelled,
    })
}

/// Reads the changes of a plan with these services.
pub(crate) fn read_changes(
    alloc: Global,
    services: &[Service],
    items: &[Value],
) -> Result<ChangesDraft, PlanError>
    requires { length services.now ≤ 64 }
    ensures read { AnswersOrWants result (changes_fault (tables_of (views items.now))) (AreChangesOf (services_seen services.now) (tables_of (views items.now))) }
{
    let mut changes = ChangeList::new(alloc);
    let mut spelled = true;
    for item in items {
        let table = match item.as_table() {
            Some(table) => table,
            None => continue,
        };
        let draft = read_change(alloc, services, changes.items(), table)?;
        spelled &= draft.spelled;
        changes.push(draft.change)?;
    }
    Ok(ChangesDraft { changes, spelled })
}
