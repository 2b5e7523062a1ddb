//! The table of the INT in settings.
ghost use Rattle.std.specs.Prelude.{◌≡◌, true, Some, option_map};
ghost use Rattle.toml.specs.View.{table_view};
ghost use Rattle.settings_spec.specs.Keys.{table_fault};
ghost use Rattle.settings_spec.specs.Settings.{int_keys, int_of, int_fault};
ghost use Rattle.plan_spec.specs.Valid.{is_valid_int};
ghost use Rattle.plan.specs.Parts.{int_seen};
ghost use Rattle.service_plan.specs.Reading.{Answers};

use crate::fault::PlanFault;
use plan::IntPlan;
use settings_keys::{Key, number, pid, refuse_unknown};
use toml::Table;

/// The keys of the table.
const INT_KEYS: [Key; 5] = [
    Key::Pid,
    Key::PlatformId,
    Key::NetworkId,
    Key::OriginalNetworkId,
    Key::TransportStreamId,
];

/// Reads the table.
#[tactic(auto, using(settings_keys::proofs::KeyLemmas::first_here, settings_keys::proofs::KeyLemmas::first_later))]
fn read_table(int: &Table) -> Result<IntPlan, PlanFault>
    ensures read { Answers result (table_fault int_keys (table_view int.now)) (λ r. (int_seen r ≡ int_of (table_view int.now)) × (is_valid_int (Some (int_seen r)) ≡ true)) }
{
    refuse_unknown(int, &INT_KEYS)?;
    let pid = pid(int)?;
    let platform_id = number(int, Key::PlatformId, 0, 0xFF_FFFF, None)?;
    let network_id = number(int, Key::NetworkId, 0, 0xFFFF, None)?;
    let original_network_id = number(int, Key::OriginalNetworkId, 0, 0xFFFF, None)?;
    let transport_stream_id = number(int, Key::TransportStreamId, 0, 0xFFFF, None)?;
    Ok(IntPlan {
        pid,
        platform_id,
        network_id: network_id as u16,
        original_network_id: original_network_id as u16,
        transport_stream_id: transport_stream_id as u16,
    })
}

/// Reads the table where there is one.
pub(crate) fn read_int(int: Option<&Table>) -> Result<Option<IntPlan>, PlanFault>
    ensures read { Answers result (int_fault (option_map (λ t. table_view t.now) int.entry)) (λ r. (option_map int_seen r ≡ option_map int_of (option_map (λ t. table_view t.now) int.entry)) × (is_valid_int (option_map int_seen r) ≡ true)) }
{
    match int {
        Some(int) => Ok(Some(read_table(int)?)),
        None => Ok(None),
    }
}
