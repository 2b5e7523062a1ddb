//! A plan -> the lines of its services and of its changes.
ghost use Rattle.std.specs.Prelude.{◌≡◌, ◌<◌, ◌≤◌, [], ◌∷◌, ◌++◌, length, map, OnOk, OnErr};
ghost use Rattle.wire_spec.specs.Causes.{HasCause};
ghost use Rattle.wire_spec.specs.Content.{Puts, Stays};
ghost use Rattle.wire_spec.specs.Lists.{joined};
ghost use Rattle.ipe_io.specs.Counts.{IsFlushed};
ghost use Rattle.plan_spec.specs.Changes.{service_in};
ghost use Rattle.plan.specs.Parts.{kind_seen, moved_seen, change_seen};
ghost use Rattle.plan.specs.PlanView.{plan_fields};
ghost use Rattle.settings_load.specs.Lines.{AreThere, check_text, changes_text, change_text, moved_line, kind_word, kind_number, service_line};

use crate::pieces::put_pieces;
use ipe_io::{Failed, Sink};
use itoa::Buffer;
use service_plan::{Change, Kind, MovedList, Plan, pid_in};

/// The word of a kind, and its PID or ISI.
fn parts_of(kind: &Kind) -> (&'static str, u16)
    ensures word { result.0.now ≡ kind_word (kind_seen kind.now) }
    ensures number { result.1 ≡ kind_number (kind_seen kind.now) }
{
    match kind {
        Kind::Ule { pid, .. } => ("ule", *pid),
        Kind::Mpe { pid } => ("mpe", *pid),
        Kind::Fec { pid, .. } => ("fec", *pid),
        Kind::Gse { isi, .. } => ("gse", u16::from(*isi)),
    }
}

/// Puts a line of three parts.
fn put_parts<'f, O: Sink>(
    output: &mut O,
    name: &'f [u8],
    word: &'f [u8],
    number: &'f [u8],
) -> Result<(), Failed>
    ensures written { Puts result (O.told output.old).held (O.told output.new).held (name.now ++ 32 ∷ word.now ++ 32 ∷ number.now ++ 10 ∷ []) }
    ensures flushed { Stays (O.told output.old).flushed (O.told output.new).flushed }
    ensures cause { HasCause (O.told output.old).faults (O.told output.new).faults result }
{
    put_pieces(output, &[name, b" ", word, b" ", number, b"\n"])
}

/// Puts the line of a service in a version.
fn put_service<O: Sink>(plan: &Plan, version: u8, place: u32, output: &mut O) -> Result<(), Failed>
    requires version { version ≤ length plan.now.changes }
    requires place { place < length plan.now.services }
    ensures written { Puts result (O.told output.old).held (O.told output.new).held (service_line (service_in (plan_fields plan.now) version place)) }
    ensures flushed { Stays (O.told output.old).flushed (O.told output.new).flushed }
    ensures cause { HasCause (O.told output.old).faults (O.told output.new).faults result }
{
    let service = plan.services.at(place as usize);
    let (word, own) = parts_of(&service.kind);
    let number = pid_in(plan, version, place).unwrap_or(own);
    let mut digits = Buffer::new();
    let number = digits.format(number);
    put_parts(
        output,
        service.name.text().as_bytes(),
        word.as_bytes(),
        number.as_bytes(),
    )
}

/// Puts the lines of all services, in their order, as they are at first.
fn put_services<O: Sink>(plan: &Plan, output: &mut O) -> Result<(), Failed>
    ensures written { Puts result (O.told output.old).held (O.told output.new).held (joined (map service_line (plan_fields plan.now).services)) }
    ensures flushed { Stays (O.told output.old).flushed (O.told output.new).flushed }
    ensures cause { HasCause (O.told output.old).faults (O.told output.new).faults result }
{
    for place in 0..plan.services.len() as u32 {
        put_service(plan, 0, place, output)?;
    }
    Ok(())
}

/// Puts the lines of services that move, as they are in a version.
fn put_moved<O: Sink>(
    plan: &Plan,
    version: u8,
    moved: &MovedList,
    output: &mut O,
) -> Result<(), Failed>
    requires version { version ≤ length plan.now.changes }
    requires there { AreThere (length plan.now.services) (map moved_seen moved.now) }
    ensures written { Puts result (O.told output.old).held (O.told output.new).held (joined (map (moved_line (plan_fields plan.now) version) (map moved_seen moved.now))) }
    ensures flushed { Stays (O.told output.old).flushed (O.told output.new).flushed }
    ensures cause { HasCause (O.told output.old).faults (O.told output.new).faults result }
{
    for place in 0..moved.len() {
        put_service(plan, version, moved.at(place).service, output)?;
    }
    Ok(())
}

/// Puts the lines of a change.
fn put_change<O: Sink>(
    plan: &Plan,
    version: u8,
    change: &Change,
    output: &mut O,
) -> Result<(), Failed>
    requires version { version ≤ length plan.now.changes }
    requires there { AreThere (length plan.now.services) (change_seen change.now).moved }
    ensures written { Puts result (O.told output.old).held (O.told output.new).held (change_text (plan_fields plan.now) version (change_seen change.now)) }
    ensures flushed { Stays (O.told output.old).flushed (O.told output.new).flushed }
    ensures cause { HasCause (O.told output.old).faults (O.told output.new).faults result }
{
    let mut digits = Buffer::new();
    let at = digits.format(change.at);
    put_pieces(output, &[b"change ", at.as_bytes(), b"\n"])?;
    put_moved(plan, version, &change.moved, output)
}

/// Puts the lines of all changes, in their order.
fn put_changes<O: Sink>(plan: &Plan, output: &mut O) -> Result<(), Failed>
    ensures written { Puts result (O.told output.old).held (O.told output.new).held (changes_text (plan_fields plan.now) 1 (plan_fields plan.now).changes) }
    ensures flushed { Stays (O.told output.old).flushed (O.told output.new).flushed }
    ensures cause { HasCause (O.told output.old).faults (O.told output.new).faults result }
{
    for place in 0..plan.changes.len() {
        put_change(plan, place as u8 + 1, plan.changes.at(place), output)?;
    }
    Ok(())
}

/// Puts the lines of a plan.
fn put_plan<O: Sink>(plan: &Plan, output: &mut O) -> Result<(), Failed>
    ensures written { Puts result (O.told output.old).held (O.told output.new).held (check_text (plan_fields plan.now)) }
    ensures flushed { Stays (O.told output.old).flushed (O.told output.new).flushed }
    ensures cause { HasCause (O.told output.old).faults (O.told output.new).faults result }
{
    put_services(plan, output)?;
    put_changes(plan, output)
}

/// Puts the lines of a plan, and flushes all of them: one for each service, and after them, for each change, `change` with the
/// number of its record, and one for each service that it moves.
///
/// A line of a service is its name, its kind and its PID or ISI in decimal, separated by one space; one that a change moves has its
/// PID from then on. On `Failed` a prefix of the lines was appended, and nothing more is flushed.
pub fn list_services<O: Sink>(plan: &Plan, output: &mut O) -> Result<(), Failed>
    ensures written { Puts result (O.told output.old).held (O.told output.new).held (check_text (plan_fields plan.now)) }
    ensures flushed { OnOk result (IsFlushed (O.told output.new).held (O.told output.new).flushed) }
    ensures unflushed { OnErr result (Stays (O.told output.old).flushed (O.told output.new).flushed) }
    ensures cause { HasCause (O.told output.old).faults (O.told output.new).faults result }
{
    put_plan(plan, output)?;
    output.flush()
}
