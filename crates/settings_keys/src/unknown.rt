//! Keys that a table does not know.
ghost use Rattle.std.specs.Prelude.{◌≡◌, map, bytes_eq, string_bytes};
ghost use Rattle.std.specs.List.{list_all, list_any};
ghost use Rattle.std.specs.BTreeMap.{keys};
ghost use Rattle.toml.specs.View.{table_view};
ghost use Rattle.settings_spec.specs.Keys.{unknown_fault};
ghost use Rattle.settings_keys.specs.Keys.{key_text};
ghost use Rattle.settings_keys.specs.Reading.{Answers, Always};

use crate::fault::PlanFault;
use crate::key::Key;
use toml::Table;

/// Whether a name is one of the keys.
fn is_known(known: &[Key], name: &str) -> bool
    ensures read { result ≡ list_any (λ key. bytes_eq name.now (key_text key)) known.now }
{
    known.iter().any(|key| name == key.name())
}

/// Whether each name of the table is one of the keys.
fn are_known(table: &Table, known: &[Key]) -> bool
    ensures read { result ≡ list_all (λ name. list_any (λ key. bytes_eq (string_bytes name) (key_text key)) known.now) (keys table.now) }
{
    table.keys().all(|name| is_known(known, name.as_str()))
}

/// Refuses a table that has another key than these.
pub fn refuse_unknown(table: &Table, known: &[Key]) -> Result<(), PlanFault>
    ensures read { Answers result (unknown_fault (map key_text known.now) (table_view table.now)) Always }
{
    if are_known(table, known) {
        Ok(())
    } else {
        Err(PlanFault::Unknown)
    }
}
