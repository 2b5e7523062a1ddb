//! What is wrong with a settings file -> the line that is printed for it.
ghost use Rattle.std.specs.Prelude.{◌≡◌, ◌++◌};
ghost use Rattle.wire_spec.specs.Causes.{HasCause};
ghost use Rattle.wire_spec.specs.Content.{Puts};
ghost use Rattle.settings_keys.specs.Keys.{fault_seen};
ghost use Rattle.settings_load.specs.Lines.{fault_number, fault_key, refusal_line};
ghost use Rattle.settings_load.specs.Faults.{refusal_seen};

use crate::fault::FileFault;
use crate::pieces::put_pieces;
use ipe_io::{Failed, Sink, put_all};
use itoa::Buffer;
use service_plan::PlanFault;

/// The number of a fault, from 1 on.
fn number_of(fault: PlanFault) -> u8
    ensures { result ≡ fault_number (fault_seen fault) }
{
    match fault {
        PlanFault::Text => 1,
        PlanFault::Missing(_) => 2,
        PlanFault::Type_(_) => 3,
        PlanFault::Range(_) => 4,
        PlanFault::SamePid => 5,
        PlanFault::SameName => 6,
        PlanFault::Rules => 7,
        PlanFault::Window => 8,
        PlanFault::Gap => 9,
        PlanFault::Delta => 10,
        PlanFault::NeedsStamps => 11,
        PlanFault::Carrier => 12,
        PlanFault::Unknown => 13,
        PlanFault::Change => 14,
    }
}

/// The key of a fault after a space, where it has one.
fn key_of(fault: PlanFault) -> (&'static str, &'static str)
    ensures { result.0.now ++ result.1.now ≡ fault_key (fault_seen fault) }
{
    match fault {
        PlanFault::Missing(key) | PlanFault::Type_(key) | PlanFault::Range(key) => {
            (" ", key.name())
        }
        _ => ("", ""),
    }
}

/// Puts the line of a fault.
pub fn put_fault<E: Sink>(fault: FileFault, complaints: &mut E) -> Result<(), Failed>
    ensures written { Puts result (E.told complaints.old).held (E.told complaints.new).held (refusal_line (refusal_seen fault)) }
    ensures cause { HasCause (E.told complaints.old).faults (E.told complaints.new).faults result }
{
    match fault {
        FileFault::TooLong => put_all(complaints, b"ipencap: settings too long\n"),
        FileFault::Plan(fault) => {
            let mut digits = Buffer::new();
            let number = digits.format(number_of(fault));
            let (space, key) = key_of(fault);
            put_pieces(
                complaints,
                &[
                    b"ipencap: settings ",
                    number.as_bytes(),
                    space.as_bytes(),
                    key.as_bytes(),
                    b"\n",
                ],
            )
        }
    }
}
