//! Numbers that rise.
ghost use Rattle.std.specs.Prelude.{◌≡◌, ◌+◌, ◌≤◌, length, OnOk, IfOk, IfSome, None};
ghost use Rattle.std.specs.List.{insert};
ghost use Rattle.psi_spec.specs.Tables.{with_number, numbers_of as numbers_of_services};
ghost use Rattle.plan.specs.Parts.{services_seen};

use plan::Service;
use std::alloc::{AllocError as OutOfMemory, Global};

/// The place of a number among rising ones, where it is not there.
fn place_for(numbers: &[u16], number: u16) -> Option<usize>
    ensures none { result ≡ None → numbers.now ≡ with_number numbers.now number }
    ensures within { IfSome result (λ at. at ≤ length numbers.now) }
    ensures some { IfSome result (λ at. insert numbers.now at number ≡ with_number numbers.now number) }
{
    for at in 0..numbers.len() {
        let other = numbers[at];
        if other == number {
            return None;
        }
        if other > number {
            return Some(at);
        }
    }
    Some(numbers.len())
}

/// Puts a number among rising ones, where it is not there.
fn put_number(numbers: &mut Vec<u16>, number: u16) -> Result<(), OutOfMemory>
    ensures put { OnOk result (numbers.new.items ≡ with_number numbers.old.items number) }
    ensures most { OnOk result (length numbers.new.items ≤ length numbers.old.items + 1) }
{
    let Some(at) = place_for(numbers, number) else {
        return Ok(());
    };
    match numbers.insert(at, number) {
        Ok(()) => Ok(()),
        Err(_) => Err(OutOfMemory),
    }
}

/// The distinct service_ids above 0, rising: at most as many as services.
pub(crate) fn numbers_of(alloc: Global, services: &[Service]) -> Result<Vec<u16>, OutOfMemory>
    ensures numbers { IfOk result (λ numbers. numbers.items ≡ numbers_of_services (services_seen services.now)) }
    ensures most { IfOk result (λ numbers. length numbers.items ≤ length services.now) }
{
    let mut numbers = Vec::new(alloc);
    for service in services {
        if service.service_id > 0 {
            put_number(&mut numbers, service.service_id)?;
        }
    }
    Ok(numbers)
}
