//! The lines that are printed at the end of a send.
ghost use Rattle.std.specs.Prelude.{◌≡◌, ℕ, ◌++◌, [], ◌∷◌, decimal};
ghost use Rattle.wire_spec.specs.Causes.{HasCause};
ghost use Rattle.wire_spec.specs.Content.{Puts};
ghost use Rattle.send_command.specs.Lines.{tally_line, fault_line, number_of as number_of_fault};

use crate::ends::Tally;
use ipe_io::{Failed, Sink, put_all};
use itoa::Buffer;
use pcap_file::CaptureFault;

/// Writes the line of a send that is done: `ipencap: offered A, not IP B, unrouted C, too long D`. On `Failed` a prefix of it.
#[tactic(auto, unfolding(crate::specs::Lines::tally_line))]
pub fn tell_tally<E: Sink>(tally: &Tally, complaints: &mut E) -> Result<(), Failed>
    ensures written { Puts result (E.told complaints.old).held (E.told complaints.new).held (tally_line tally.now) }
    ensures cause { HasCause (E.told complaints.old).faults (E.told complaints.new).faults result }
{
    put_numbers(
        complaints,
        "ipencap: offered ",
        tally.offered,
        ", not IP ",
        tally.not_ip,
    )?;
    put_numbers(
        complaints,
        ", unrouted ",
        tally.unrouted,
        ", too long ",
        tally.too_long,
    )?;
    put_all(complaints, b"\n")
}

/// Writes the line of a fault of a capture: `ipencap: capture N at record K`. On `Failed` a prefix of it.
#[tactic(auto, unfolding(crate::specs::Lines::fault_line))]
pub fn tell_fault<E: Sink>(
    fault: CaptureFault,
    place: u32,
    complaints: &mut E,
) -> Result<(), Failed>
    ensures written { Puts result (E.told complaints.old).held (E.told complaints.new).held (fault_line fault place) }
    ensures cause { HasCause (E.told complaints.old).faults (E.told complaints.new).faults result }
{
    put_numbers(
        complaints,
        "ipencap: capture ",
        number_of(fault),
        " at record ",
        place,
    )?;
    put_all(complaints, b"\n")
}

/// Writes two numbers, each after its text.
fn put_numbers<E: Sink>(
    complaints: &mut E,
    first: &str,
    a: u32,
    second: &str,
    b: u32,
) -> Result<(), Failed>
    ensures written { Puts result (E.told complaints.old).held (E.told complaints.new).held (first.now ++ decimal a ++ second.now ++ decimal b) }
    ensures cause { HasCause (E.told complaints.old).faults (E.told complaints.new).faults result }
{
    put_number(complaints, first, a)?;
    put_number(complaints, second, b)
}

/// Writes a text and a number.
fn put_number<E: Sink>(complaints: &mut E, text: &str, number: u32) -> Result<(), Failed>
    ensures written { Puts result (E.told complaints.old).held (E.told complaints.new).held (text.now ++ decimal number) }
    ensures cause { HasCause (E.told complaints.old).faults (E.told complaints.new).faults result }
{
    put_all(complaints, text.as_bytes())?;
    let mut digits = Buffer::new();
    put_all(complaints, digits.format(number).as_bytes())
}

/// The number of a fault, from 1.
fn number_of(fault: CaptureFault) -> u32
    ensures read { result ≡ number_of_fault fault }
{
    match fault {
        CaptureFault::Empty => 1,
        CaptureFault::Magic => 2,
        CaptureFault::Version => 3,
        CaptureFault::Link => 4,
        CaptureFault::CutHead => 5,
        CaptureFault::CutRecord => 6,
        CaptureFault::RecordTooLong => 7,
        CaptureFault::TooMany => 8,
        CaptureFault::TooLong => 9,
    }
}
