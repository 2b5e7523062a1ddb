//! The top table of settings.
ghost use Rattle.std.specs.Prelude.{◌≡◌, codes, option_map, bytes_eq, if◌then◌else◌};
ghost use Rattle.toml.specs.View.{table_view};
ghost use Rattle.settings_spec.specs.Keys.{keys_fault, table_at};
ghost use Rattle.settings_spec.specs.Settings.{value_keys, int_key, recording_of};
ghost use Rattle.plan.specs.Parts.{form_of};
ghost use Rattle.service_plan.specs.Reading.{Answers, Reads};
ghost use Rattle.service_plan.specs.Top.{AreTopValues};

use crate::fault::PlanFault;
use ipe_io::Recording;
use settings_keys::{Key, find, number, word};
use toml::Table;

/// The values of the top table.
#[derive(Clone, Copy)]
pub(crate) struct TopValues {
    pub(crate) baseband: bool,
    pub(crate) recording: Recording,
    pub(crate) packet_rate: u32,
    pub(crate) cycle: u32,
    pub(crate) frame_bytes: u32,
}

/// What a recording has before each packet, plain where the word is no other.
fn recording_named(word: &str) -> Recording
    ensures read { form_of result ≡ recording_of word.now }
{
    match word {
        "stamped" => Recording::Stamped,
        "m2ts" => Recording::M2ts,
        _ => Recording::Plain,
    }
}

/// Reads the values of the top table, in the order of their keys.
#[tactic(auto, using(settings_keys::proofs::KeyLemmas::first_here, settings_keys::proofs::KeyLemmas::first_later))]
pub(crate) fn top_values(top: &Table) -> Result<TopValues, PlanFault>
    ensures read { Answers result (keys_fault value_keys (table_view top.now)) (AreTopValues (table_view top.now)) }
{
    let carrier = word(top, Key::Carrier, "ts")?;
    let recording = word(top, Key::Recording, "plain")?;
    let packet_rate = number(top, Key::PacketRate, 1, 1_000_000, Some(10_000))?;
    let cycle = number(top, Key::Cycle, 100, 1_000_000, Some(20_000))?;
    let frame_bytes = number(top, Key::FrameBytes, 300, 7274, Some(2000))?;
    Ok(TopValues {
        baseband: carrier == "bb",
        recording: recording_named(recording),
        packet_rate,
        cycle,
        frame_bytes,
    })
}

/// The table of the INT, where there is one; a plan that changes needs it.
pub(crate) fn int_table(top: &Table) -> Result<Option<&Table>, PlanFault>
    ensures read { Reads result (int_key (table_view top.now)) (table_view top.now) (λ o. option_map (λ t. table_view t.now) o ≡ table_at (codes "int") (table_view top.now)) }
{
    let value = match find(top, Key::Int) {
        Some(value) => value,
        None => {
            if find(top, Key::Change).is_some() {
                return Err(PlanFault::Missing(Key::Int));
            }
            return Ok(None);
        }
    };
    match value.as_table() {
        Some(table) => Ok(Some(table)),
        None => Err(PlanFault::Type_(Key::Int)),
    }
}
