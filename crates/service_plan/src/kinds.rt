//! The table of a service, by its kind.
ghost use Rattle.std.specs.Prelude.{◌≡◌, ◌≤◌, false, codes, map, None, bytes_eq};
ghost use Rattle.toml.specs.View.{table_view};
ghost use Rattle.settings_spec.specs.Keys.{KeyRule, key_fault, keys_fault, table_fault};
ghost use Rattle.settings_spec.specs.Settings.{kind_key, kind_text, ule_keys, mpe_keys, gse_keys, fec_fault, service_fault};
ghost use Rattle.service_plan.specs.Keys.{key_text};
ghost use Rattle.service_plan.specs.Reading.{Answers, AnswersOrWants};
ghost use Rattle.service_plan.specs.Services.{IsServiceOf, IsWindowOf, mode_keys, window_keys_of};

use crate::fault::{PlanError, PlanFault};
use crate::service_draft::{ServiceDraft, filter, finish};
use addr_rules::MacList;
use plan::Kind;
use settings_keys::{
    Key, flag, kind_word, name_text, number, pid, refuse_unknown, rows, rule_items, rules,
    urgent_items, word,
};
use std::alloc::Global;
use toml::Table;

/// The keys of a ULE service.
const ULE_KEYS: [Key; 10] = [
    Key::Name,
    Key::Kind,
    Key::Pid,
    Key::Address,
    Key::Packing,
    Key::Rules,
    Key::Filter,
    Key::Unicast,
    Key::ServiceId,
    Key::ComponentTag,
];

/// The keys of an MPE service.
const MPE_KEYS: [Key; 8] = [
    Key::Name,
    Key::Kind,
    Key::Pid,
    Key::Rules,
    Key::Filter,
    Key::Unicast,
    Key::ServiceId,
    Key::ComponentTag,
];

/// The keys of a service with indexed frames.
const INDEXED_KEYS: [Key; 10] = [
    Key::Name,
    Key::Kind,
    Key::Pid,
    Key::Mode,
    Key::Rows,
    Key::Parity,
    Key::Rules,
    Key::Unicast,
    Key::ServiceId,
    Key::ComponentTag,
];

/// The keys of a service with sliced frames.
const SLICED_KEYS: [Key; 12] = [
    Key::Name,
    Key::Kind,
    Key::Pid,
    Key::Mode,
    Key::Rows,
    Key::Parity,
    Key::WindowStart,
    Key::WindowLength,
    Key::Rules,
    Key::Unicast,
    Key::ServiceId,
    Key::ComponentTag,
];

/// The keys of a GSE service.
const GSE_KEYS: [Key; 10] = [
    Key::Name,
    Key::Kind,
    Key::Isi,
    Key::Address,
    Key::Rules,
    Key::Urgent,
    Key::Filter,
    Key::Unicast,
    Key::ServiceId,
    Key::ComponentTag,
];

/// Reads a ULE service.
#[tactic(auto, using(settings_keys::proofs::KeyLemmas::first_here, settings_keys::proofs::KeyLemmas::first_later, crate::proofs::KeyLemmas::error_here, crate::proofs::KeyLemmas::error_later))]
fn ule(alloc: Global, place: u8, table: &Table) -> Result<ServiceDraft, PlanError>
    requires word { kind_text (table_view table.now) ≡ codes "ule" }
    requires kind { key_fault kind_key (table_view table.now) ≡ None }
    ensures read { AnswersOrWants result (table_fault ule_keys (table_view table.now)) (IsServiceOf (table_view table.now) place) }
{
    refuse_unknown(table, &ULE_KEYS)?;
    let name = name_text(table)?;
    let pid = pid(table)?;
    let address = flag(table, Key::Address)?;
    let packing = flag(table, Key::Packing)?;
    let items = rule_items(table)?;
    let filter = filter(alloc, table)?;
    let kind = Kind::Ule {
        pid,
        address,
        packing,
    };
    finish(alloc, place, table, name, kind, items, filter)
}

/// Reads an MPE service.
#[tactic(auto, using(settings_keys::proofs::KeyLemmas::first_here, settings_keys::proofs::KeyLemmas::first_later, crate::proofs::KeyLemmas::error_here, crate::proofs::KeyLemmas::error_later))]
fn mpe(alloc: Global, place: u8, table: &Table) -> Result<ServiceDraft, PlanError>
    requires word { kind_text (table_view table.now) ≡ codes "mpe" }
    requires kind { key_fault kind_key (table_view table.now) ≡ None }
    ensures read { AnswersOrWants result (table_fault mpe_keys (table_view table.now)) (IsServiceOf (table_view table.now) place) }
{
    refuse_unknown(table, &MPE_KEYS)?;
    let name = name_text(table)?;
    let pid = pid(table)?;
    let items = rule_items(table)?;
    let filter = filter(alloc, table)?;
    let kind = Kind::Mpe { pid };
    finish(alloc, place, table, name, kind, items, filter)
}

/// Reads a GSE service, which alone may have urgent rules.
#[tactic(auto, using(settings_keys::proofs::KeyLemmas::first_here, settings_keys::proofs::KeyLemmas::first_later, crate::proofs::KeyLemmas::error_here, crate::proofs::KeyLemmas::error_later))]
fn gse(alloc: Global, place: u8, table: &Table) -> Result<ServiceDraft, PlanError>
    requires not_ule { bytes_eq (kind_text (table_view table.now)) (codes "ule") ≡ false }
    requires not_mpe { bytes_eq (kind_text (table_view table.now)) (codes "mpe") ≡ false }
    requires not_fec { bytes_eq (kind_text (table_view table.now)) (codes "fec") ≡ false }
    requires kind { key_fault kind_key (table_view table.now) ≡ None }
    ensures read { AnswersOrWants result (table_fault gse_keys (table_view table.now)) (IsServiceOf (table_view table.now) place) }
{
    refuse_unknown(table, &GSE_KEYS)?;
    let name = name_text(table)?;
    let isi = number(table, Key::Isi, 0, 255, None)?;
    let address = flag(table, Key::Address)?;
    let items = rule_items(table)?;
    let urgent_items = urgent_items(table)?;
    let filter = filter(alloc, table)?;
    let (urgent, spelled) = rules(alloc, urgent_items)?;
    let kind = Kind::Gse {
        isi: isi as u8,
        address,
        urgent,
    };
    let draft = finish(alloc, place, table, name, kind, items, filter)?;
    Ok(ServiceDraft {
        service: draft.service,
        spelled: draft.spelled & spelled,
    })
}

/// The keys of a service with frames, by its mode.
fn fec_keys(sliced: bool) -> &'static [Key]
    ensures { map key_text result.now ≡ map (λ (rule : KeyRule). rule.name) (mode_keys sliced) }
{
    if sliced { &SLICED_KEYS } else { &INDEXED_KEYS }
}

/// Reads the window, which sliced frames alone have.
#[tactic(auto, using(settings_keys::proofs::KeyLemmas::first_here, settings_keys::proofs::KeyLemmas::first_later))]
fn window(table: &Table, sliced: bool) -> Result<Option<(u32, u32)>, PlanFault>
    ensures read { Answers result (keys_fault (window_keys_of sliced) (table_view table.now)) (IsWindowOf (table_view table.now) sliced) }
{
    if !sliced {
        return Ok(None);
    }
    let start = number(table, Key::WindowStart, 0, 999_999, None)?;
    let length = number(table, Key::WindowLength, 1, 1_000_000, None)?;
    Ok(Some((start, length)))
}

/// Reads a service with frames.
#[tactic(auto, using(settings_keys::proofs::KeyLemmas::first_here, settings_keys::proofs::KeyLemmas::first_later, crate::proofs::ServiceLemmas::mode_later, crate::proofs::ServiceLemmas::sliced_said))]
fn fec(alloc: Global, place: u8, table: &Table) -> Result<ServiceDraft, PlanError>
    requires word { kind_text (table_view table.now) ≡ codes "fec" }
    requires kind { key_fault kind_key (table_view table.now) ≡ None }
    ensures read { AnswersOrWants result (fec_fault (table_view table.now)) (IsServiceOf (table_view table.now) place) }
{
    let sliced = word(table, Key::Mode, "indexed")? == "sliced";
    refuse_unknown(table, fec_keys(sliced))?;
    let name = name_text(table)?;
    let pid = pid(table)?;
    let rows = rows(table)?;
    let parity = number(table, Key::Parity, 1, 64, Some(64))?;
    let window = window(table, sliced)?;
    let items = rule_items(table)?;
    let filter = MacList::new(alloc);
    let kind = Kind::Fec {
        pid,
        rows,
        parity: parity as u8,
        window,
    };
    finish(alloc, place, table, name, kind, items, filter)
}

/// Reads a service at a place of the list.
#[tactic(auto, using(crate::proofs::ServiceLemmas::service_fault_here))]
pub(crate) fn read_service(
    alloc: Global,
    place: u8,
    table: &Table,
) -> Result<ServiceDraft, PlanError>
    ensures read { AnswersOrWants result (service_fault (table_view table.now)) (IsServiceOf (table_view table.now) place) }
{
    let kind = kind_word(table)?;
    if kind == "ule" {
        return ule(alloc, place, table);
    }
    if kind == "mpe" {
        return mpe(alloc, place, table);
    }
    if kind == "fec" {
        return fec(alloc, place, table);
    }
    gse(alloc, place, table)
}
