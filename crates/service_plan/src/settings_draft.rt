//! All tables of settings -> the plan that they give, not yet checked as a whole.
ghost use Rattle.std.specs.Prelude.{◌≡◌, ◌<◌, Some, None, if◌then◌else◌};
ghost use Rattle.toml.specs.View.{table_view};
ghost use Rattle.plan_spec.specs.Valid.{most_services};
ghost use Rattle.service_plan.specs.Reading.{AnswersOrWants};
ghost use Rattle.service_plan.specs.Plans.{IsDraftOf, parts_fault};

use crate::changes::read_changes;
use crate::fault::PlanError;
use crate::int::read_int;
use crate::services::read_services;
use crate::top::{int_table, top_values};
use ipe_io::Recording;
use plan::{ChangeList, IntPlan, ServiceList};
use settings_keys::{Key, change_items, refuse_unknown, table_items};
use std::alloc::Global;
use toml::Table;

/// A plan, and whether each text of its rules is one.
#[derive(Drop)]
pub(crate) struct Draft {
    pub(crate) recording: Recording,
    pub(crate) packet_rate: u32,
    pub(crate) cycle: u32,
    pub(crate) frame_bytes: Option<u16>,
    pub(crate) table: Option<IntPlan>,
    pub(crate) services: ServiceList,
    pub(crate) changes: ChangeList,
    pub(crate) spelled: bool,
}

/// The keys of the top table.
const TOP_KEYS: [Key; 8] = [
    Key::Carrier,
    Key::Recording,
    Key::PacketRate,
    Key::Cycle,
    Key::FrameBytes,
    Key::Int,
    Key::Service,
    Key::Change,
];

/// How many services there may be.
fn most(baseband: bool) -> usize
    ensures { result ≡ most_services baseband }
{
    if baseband { 16 } else { 64 }
}

/// The bytes of baseband frames, where these carry the stream.
fn frame_size(baseband: bool, bytes: u32) -> Option<u16>
    requires { bytes < 65536 }
    ensures { result ≡ (if baseband then Some bytes else None) }
{
    if baseband { Some(bytes as u16) } else { None }
}

/// Reads the top table, then that of the INT, then those of the services, then those of the changes.
#[tactic(auto, using(settings_keys::proofs::KeyLemmas::first_here, settings_keys::proofs::KeyLemmas::first_later, crate::proofs::KeyLemmas::error_here, crate::proofs::KeyLemmas::error_later))]
pub(crate) fn read_tables(alloc: Global, top: &Table) -> Result<Draft, PlanError>
    ensures read { AnswersOrWants result (parts_fault (table_view top.now)) (IsDraftOf (table_view top.now)) }
{
    refuse_unknown(top, &TOP_KEYS)?;
    let values = top_values(top)?;
    let int = int_table(top)?;
    let items = table_items(top, Key::Service, most(values.baseband))?;
    let table = read_int(int)?;
    let read = read_services(alloc, items)?;
    let change_list = change_items(top)?;
    let changed = read_changes(alloc, read.services.items(), change_list)?;
    Ok(Draft {
        recording: values.recording,
        packet_rate: values.packet_rate,
        cycle: values.cycle,
        frame_bytes: frame_size(values.baseband, values.frame_bytes),
        table,
        services: read.services,
        changes: changed.changes,
        spelled: read.spelled & changed.spelled,
    })
}
