//! Sections -> how many came, the version of the plan that they put in force, and the section that is shown.
ghost use Rattle.std.specs.Prelude.{◌≡◌};
ghost use Rattle.reception_spec.specs.Table.{is_int_section};

use byte_slices::put;
use int_table::version_of;
use section_codec::{SectionForm, table_id};
use std::alloc::Allocator;
use std::marker::Model;
use unit_stream::{JoinEvent, Listener, UnitForm};

/// table_id of the IP/MAC notification table (EN 301 192 clause 8.4).
const INT: u8 = 0x4C;

/// How many sections came, the version in force, and the section that put it in force; at version 0 the first with the
/// table_id of an INT.
#[derive(Drop)]
pub(crate) struct Kept<A: Allocator> {
    /// The platform whose tables say versions of the plan.
    platform_id: u32,
    /// The last version of the plan.
    last_version: u8,
    units: u64,
    version: u8,
    buffer: Vec<u8, A>,
    size: Option<usize>,
}

impl<A: Allocator> Model for Kept<A> {
    ghost use Rattle.std.specs.Prelude.{◌≡◌, ◌≤◌, vec_len, take, option_map, IfSome};
    ghost use Rattle.service_reception.specs.Table.{KeptSections};

    ghost Value = { KeptSections };

    ghost view = { λ kept. record {
      platform_id = kept.platform_id;
      last_version = kept.last_version;
      units = kept.units;
      version = kept.version;
      shown = option_map (λ size. take size kept.buffer.items) kept.size;
    } };

    ghost invariant = { λ kept. (vec_len kept.buffer ≡ 4096) × IfSome kept.size (λ size. size ≤ 4096) × (kept.version ≤ kept.last_version) };
}

impl<A: Allocator> Kept<A> {
    ghost use Rattle.std.specs.Prelude.{◌≡◌, ◌≤◌, Some, length, vec_len, option_copied, IfSome};
    ghost use Rattle.wire_spec.specs.Causes.{raised};
    ghost use Rattle.service_reception.specs.Table.{nothing_kept, put_in_force, version_with, shown_with};

    /// No section came.
    pub(crate) fn over(buffer: Vec<u8, A>, platform_id: u32, last_version: u8) -> Kept<A>
        requires { vec_len buffer ≡ 4096 }
        ensures none { result ≡ nothing_kept platform_id last_version }
    {
        Kept {
            platform_id,
            last_version,
            units: 0,
            version: 0,
            buffer,
            size: None,
        }
    }

    /// Counts a section. It puts its version in force where that is above the one in force, and is then the one that is shown.
    pub(crate) fn add(&mut self, section: &[u8])
        ensures platform { self.new.platform_id ≡ self.old.platform_id }
        ensures last { self.new.last_version ≡ self.old.last_version }
        ensures units { self.new.units ≡ raised self.old.units 1 }
        ensures version { length section.now ≤ 4096 → self.new.version ≡ version_with self.old (put_in_force self.old section.now) }
        ensures shown { length section.now ≤ 4096 → self.new.shown ≡ shown_with self.old section.now (put_in_force self.old section.now) }
    {
        self.units = self.units.saturating_add(1);
        if section.len() > SectionForm::LONGEST {
            return;
        }
        match self.put_in_force(section) {
            Some(version) => {
                self.version = version;
                self.keep(section);
            }
            None => {
                if self.size.is_none() && is_int(section) {
                    self.keep(section);
                }
            }
        }
    }

    /// The version that a section puts in force: it says it, the plan has it, and it is above the one in force.
    fn put_in_force(&self, section: &[u8]) -> Option<u8>
        ensures read { result ≡ put_in_force self.now section.now }
        ensures most { IfSome result (λ version. version ≤ self.now.last_version) }
    {
        match version_of(section, self.platform_id) {
            Some(version) if version <= self.last_version && version > self.version => {
                Some(version)
            }
            _ => None,
        }
    }

    /// Keeps a section in place of the one that was kept.
    fn keep(&mut self, section: &[u8])
        requires { length section.now ≤ 4096 }
        ensures kept { self.new ≡ record self.old { shown = Some section.now } }
    {
        put(&mut self.buffer, 0, section);
        self.size = Some(section.len());
    }

    /// How many sections came.
    pub(crate) fn units(&self) -> u64
        ensures read { result ≡ self.now.units }
    {
        self.units
    }

    /// The version in force.
    pub(crate) fn version(&self) -> u8
        ensures read { result ≡ self.now.version }
        ensures most { result ≤ self.now.last_version }
    {
        self.version
    }

    /// Lends the section that is shown.
    pub(crate) fn shown(&self) -> Option<&[u8]>
        ensures read { option_copied result ≡ self.now.shown }
    {
        match self.size {
            Some(size) => Some(&self.buffer[..size]),
            None => None,
        }
    }
}

impl<A: Allocator> Listener for Kept<A> {
    ghost use Rattle.service_reception.specs.Table.{KeepsEvent};

    ghost Hears = { λ old event new. KeepsEvent event old new };

    fn hear(&mut self, event: &JoinEvent<'_>) {
        if let JoinEvent::Unit { moment: _, bytes } = event {
            self.add(bytes);
        }
    }
}

/// Whether a section has the table_id of an INT.
fn is_int(section: &[u8]) -> bool
    ensures { result ≡ is_int_section section.now }
{
    match table_id(section) {
        Some(id) => id == INT,
        None => false,
    }
}
