//! One table of settings, read key by key: what stands there, or what is wrong with it.
//!
//! A table of `toml` -> [settings_keys] -> numbers, words, lists; service_plan makes plans of them. TOML 1.1.
//! Begin with `number`, `word` and `refuse_unknown`.
#![tactic(auto)]

mod fault;
mod key;
mod lists;
mod unknown;
mod values;

pub use fault::PlanFault;
pub use key::Key;
pub use lists::{
    addresses, change_items, filter_items, moved_rules, rule_items, rules, table_items,
    urgent_items,
};
pub use unknown::refuse_unknown;
pub use values::{
    find, flag, kind_word, moved_name, moved_pid, name_text, number, pid, rows, unicast, word,
};
