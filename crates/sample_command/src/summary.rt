//! The summary of a sample: its numbers in, its text out.
ghost use Rattle.std.specs.Prelude.{◌≡◌, ◌∷◌, ◌++◌, decimal, IfOk, OnOk};
ghost use Rattle.sample_spec.specs.Summary.{count_line, service_line};
ghost use Rattle.sample_command.specs.Numbers.{summary_text as text_of_summary};

use ipe_io::OutOfMemory;
use itoa::Buffer;
use std::alloc::Global;

/// How many datagrams are offered.
const OFFERED: u64 = 4000;

/// How many datagrams of a service were sent, and how many delivered.
#[derive(Clone, Copy, Debug, PartialEq, Eq)]
pub(crate) struct ServiceNumbers {
    /// Sent.
    pub(crate) sent: u64,
    /// Delivered.
    pub(crate) delivered: u64,
}

/// The numbers of a summary.
#[derive(Clone, Copy, Debug, PartialEq, Eq)]
pub(crate) struct Summary {
    /// The packets of the stream.
    pub(crate) packets: u32,
    /// Those that were dropped.
    pub(crate) dropped: u32,
    /// Service 0.
    pub(crate) lecture: ServiceNumbers,
    /// Service 1.
    pub(crate) files: ServiceNumbers,
}

/// The text of a summary, a line for each count and each service.
pub(crate) fn summary_text(alloc: Global, summary: &Summary) -> Result<Vec<u8>, OutOfMemory>
    ensures written { IfOk result (λ text. text.items ≡ text_of_summary summary.now) }
{
    let mut text = Vec::new(alloc);
    add_count(&mut text, "offered", OFFERED)?;
    add_count(&mut text, "packets", u64::from(summary.packets))?;
    add_count(&mut text, "dropped", u64::from(summary.dropped))?;
    add_service(&mut text, "lecture", &summary.lecture)?;
    add_service(&mut text, "files", &summary.files)?;
    Ok(text)
}

/// Adds the line of a count.
fn add_count(text: &mut Vec<u8>, name: &str, count: u64) -> Result<(), OutOfMemory>
    ensures added { OnOk result (text.new.items ≡ text.old.items ++ count_line name.now count) }
{
    text.extend_from_slice(name.as_bytes())?;
    add_number(text, count)?;
    text.extend_from_slice(b"\n")
}

/// Adds the line of a service.
fn add_service(text: &mut Vec<u8>, name: &str, numbers: &ServiceNumbers) -> Result<(), OutOfMemory>
    ensures added { OnOk result (text.new.items ≡ text.old.items ++ service_line name.now numbers.now.sent numbers.now.delivered) }
{
    text.extend_from_slice(name.as_bytes())?;
    add_number(text, numbers.sent)?;
    add_number(text, numbers.delivered)?;
    text.extend_from_slice(b"\n")
}

/// Adds a space and a number.
fn add_number(text: &mut Vec<u8>, number: u64) -> Result<(), OutOfMemory>
    ensures added { OnOk result (text.new.items ≡ text.old.items ++ 32 ∷ decimal number) }
{
    text.extend_from_slice(b" ")?;
    let mut digits = Buffer::new();
    text.extend_from_slice(digits.format(number).as_bytes())
}
