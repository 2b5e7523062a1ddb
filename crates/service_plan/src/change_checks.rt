//! Change: what a list of changes may not have.
ghost use Rattle.std.specs.Prelude.{◌≡◌, ◌+◌, ◌<◌, ◌≤◌, ◌==◌, ◌||◌, length, drop, slice_index, map, nat_le, option_map, IfOk, OnOk};
ghost use Rattle.std.specs.List.{list_any};
ghost use Rattle.plan_spec.specs.Plan.{PlanFields, table_pids as pids_of_table};
ghost use Rattle.plan_spec.specs.Checks.{has_pair as has_pair_of};
ghost use Rattle.plan_spec.specs.Changes.{rises_from, with_last, with_pid_behind, all_pids as pids_of_all, moves_wrongly as moves_so, has_wrong_change as has_bad_change};
ghost use Rattle.plan.specs.Parts.{int_seen, changes_seen};
ghost use Rattle.service_plan.specs.Moves.{ends_so, pids_seen};
ghost use Rattle.service_plan.specs.Plans.{draft_seen};

use crate::settings_draft::Draft;
use plan::{Change, IntPlan, Moved, Service, pid_after};
use std::alloc::{AllocError as OutOfMemory, Global};

/// Whether the numbers of the changes' records rise, from 2 on.
fn rises(changes: &[Change]) -> bool
    ensures { result ≡ rises_from 2 (changes_seen changes.now) }
{
    let mut least = 2;
    for change in changes {
        let at = u64::from(change.at);
        if at < least {
            return false;
        }
        least = at + 1;
    }
    true
}

/// Whether a number is one of these.
fn has_number(numbers: &[u32], number: u32) -> bool
    ensures { result ≡ list_any (λ n. number == n) numbers.now }
{
    numbers.iter().any(|other| number == *other)
}

/// The number at a place.
fn number_at(numbers: &[u32], place: usize) -> u32
    requires { place < length numbers.now }
    ensures { result ≡ slice_index numbers.now place }
{
    numbers[place]
}

/// The numbers after a place.
fn rest(numbers: &[u32], place: usize) -> &[u32]
    requires { place < length numbers.now }
    ensures { result.now ≡ drop (place + 1) numbers.now }
{
    &numbers[place + 1..]
}

/// Whether one number stands twice.
fn has_pair(numbers: &[u32]) -> bool
    ensures { result ≡ has_pair_of (λ a b. a == b) numbers.now }
{
    for i in 0..numbers.len() {
        if has_number(rest(numbers, i), number_at(numbers, i)) {
            return true;
        }
    }
    false
}

/// Whether one of the numbers is no place among so many.
fn has_stranger(numbers: &[u32], count: usize) -> bool
    ensures { result ≡ list_any (λ n. nat_le count n) numbers.now }
{
    numbers.iter().any(|number| count <= *number as usize)
}

/// The places of the services that are moved.
fn moved_services(alloc: Global, moved: &[Moved]) -> Result<Vec<u32>, OutOfMemory>
    ensures { IfOk result (λ v. v.items ≡ map (λ m. m.service) moved.now) }
{
    let mut services = Vec::with_capacity(alloc, moved.len())?;
    for one in moved {
        services.push(one.service)?;
    }
    Ok(services)
}

/// Whether moves are of a service twice, or of one that is not among so many.
fn moves_wrongly(alloc: Global, moved: &[Moved], count: usize) -> Result<bool, OutOfMemory>
    ensures { IfOk result (λ b. b ≡ (has_pair_of (λ x y. x == y) (map (λ m. m.service) moved.now) || list_any (λ k. nat_le count k) (map (λ m. m.service) moved.now))) }
{
    let services = moved_services(alloc, moved)?;
    let twice = has_pair(services.as_slice());
    Ok(twice | has_stranger(services.as_slice(), count))
}

/// Whether those of one of the changes are.
fn any_moves_wrongly(alloc: Global, changes: &[Change], count: usize) -> Result<bool, OutOfMemory>
    ensures { IfOk result (λ b. (plan : PlanFields) → count ≡ length plan.services → b ≡ list_any (moves_so plan) (changes_seen changes.now)) }
{
    for change in changes {
        if moves_wrongly(alloc, change.moved.items(), count)? {
            return Ok(true);
        }
    }
    Ok(false)
}

/// Whether a PID is the last of these.
fn ends_with(pids: &[u32], pid: u32) -> bool
    ensures { result ≡ ends_so pids.now pid }
{
    match pids.last() {
        Some(last) => *last == pid,
        None => false,
    }
}

/// Puts a PID after others, where it is not the last of them.
fn put_last(pids: &mut Vec<u32>, pid: u32) -> Result<(), OutOfMemory>
    ensures { OnOk result (pids.new.items ≡ with_last pids.old.items pid) }
{
    if ends_with(pids.as_slice(), pid) {
        return Ok(());
    }
    pids.push(pid)?;
    Ok(())
}

/// Puts the PID of a version after those before it.
fn put_behind(pids: &mut Vec<u32>, pid: Option<u16>) -> Result<(), OutOfMemory>
    ensures { OnOk result (pids.new.items ≡ with_pid_behind pids.old.items pid) }
{
    match pid {
        Some(pid) => put_last(pids, u32::from(pid)),
        None => Ok(()),
    }
}

/// The PIDs of a service in all versions, one after another.
fn pids_of(
    alloc: Global,
    services: &[Service],
    changes: &[Change],
    service: u32,
) -> Result<Vec<u32>, OutOfMemory>
    requires { service < length services.now }
    ensures { IfOk result (λ v. v.items ≡ pids_seen services.now changes.now service) }
{
    let mut pids = Vec::new(alloc);
    for version in 0..changes.len() + 1 {
        let pid = pid_after(services, &changes[..version], service);
        put_behind(&mut pids, pid)?;
    }
    Ok(pids)
}

/// The PID of the INT, where there is one.
fn table_pids(alloc: Global, table: &Option<IntPlan>) -> Result<Vec<u32>, OutOfMemory>
    ensures { IfOk result (λ v. v.items ≡ pids_of_table (option_map int_seen table.now)) }
{
    let mut pids = Vec::new(alloc);
    match table {
        Some(int) => pids.push(u32::from(int.pid))?,
        None => {}
    }
    Ok(pids)
}

/// The INT's PID, and those of each service in all versions.
fn all_pids(alloc: Global, draft: &Draft) -> Result<Vec<u32>, OutOfMemory>
    requires { length draft.now.services ≤ 64 }
    ensures { IfOk result (λ v. v.items ≡ pids_of_all (draft_seen draft.now)) }
{
    let services = draft.services.items();
    let changes = draft.changes.items();
    let mut pids = table_pids(alloc, &draft.table)?;
    for service in 0..services.len() {
        let own = pids_of(alloc, services, changes, service as u32)?;
        pids.extend_from_slice(own.as_slice())?;
    }
    Ok(pids)
}

/// Change: the changes are not in order, one moves a service wrongly, or a PID is another's or one that was left.
pub(crate) fn has_wrong_change(alloc: Global, draft: &Draft) -> Result<bool, OutOfMemory>
    requires { length draft.now.services ≤ 64 }
    ensures { IfOk result (λ b. b ≡ has_bad_change (draft_seen draft.now)) }
{
    let changes = draft.changes.items();
    if !rises(changes) {
        return Ok(true);
    }
    if any_moves_wrongly(alloc, changes, draft.services.len())? {
        return Ok(true);
    }
    let pids = all_pids(alloc, draft)?;
    Ok(has_pair(pids.as_slice()))
}
