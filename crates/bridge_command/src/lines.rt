//! The line that is printed when a bridge is done.
ghost use Rattle.std.specs.Prelude.{◌≡◌, ◌++◌, decimal};
ghost use Rattle.wire_spec.specs.Causes.{HasCause};
ghost use Rattle.wire_spec.specs.Content.{Puts};
ghost use Rattle.bridge_command.specs.Lines.{bridge_tally_line};

use crate::ends::BridgeTally;
use ipe_io::{Failed, Sink, put_all};
use itoa::Buffer;

/// Writes the line of a bridge that is done: `ipencap: offered A, too short B, too long C`. On `Failed` a prefix of it.
#[tactic(auto, unfolding(crate::specs::Lines::bridge_tally_line))]
pub fn tell_bridge_tally<E: Sink>(tally: &BridgeTally, complaints: &mut E) -> Result<(), Failed>
    ensures written { Puts result (E.told complaints.old).held (E.told complaints.new).held (bridge_tally_line tally.now) }
    ensures cause { HasCause (E.told complaints.old).faults (E.told complaints.new).faults result }
{
    put_number(complaints, "ipencap: offered ", tally.offered)?;
    put_number(complaints, ", too short ", tally.too_short)?;
    put_number(complaints, ", too long ", tally.too_long)?;
    put_all(complaints, b"\n")
}

/// Writes a text and a number.
fn put_number<E: Sink>(complaints: &mut E, text: &str, number: u32) -> Result<(), Failed>
    ensures written { Puts result (E.told complaints.old).held (E.told complaints.new).held (text.now ++ decimal number) }
    ensures cause { HasCause (E.told complaints.old).faults (E.told complaints.new).faults result }
{
    put_all(complaints, text.as_bytes())?;
    let mut digits = Buffer::new();
    put_all(complaints, digits.format(number).as_bytes())
}
