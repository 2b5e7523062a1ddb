//! A recording, record by record -> where the streams of its INT are.
ghost use Rattle.std.specs.Prelude.{◌≡◌, true, false, List, [], ◌∷◌, ◌++◌, is_some, IfOk, OnOk, OnErr, Some};
ghost use Rattle.ts_spec.specs.Packet.{fields_of, is_packet};
ghost use Rattle.ts_spec.specs.Recording.{Record as ReadRecord};
ghost use Rattle.ts_packet.specs.Fields.{fields_in};
ghost use Rattle.service_reception.specs.Reception.{packet_record};
ghost use Rattle.psi_spec.specs.Pat.{is_pat as bytes_are_pat, pat_fields, ProgramFields};
ghost use Rattle.psi_tables.specs.Watching.{HasSeen, WatchesPrograms};
ghost use Rattle.psi_tables.specs.Text.{IsFindText};

use crate::first::Wanted;
use crate::pat::{check_pat, count_programs, program_at};
use crate::text::text_of;
use crate::watch::Watch;
use std::alloc::{AllocError as OutOfMemory, Global};
use std::marker::Model;
use ts_packet::{Packet, parse};
use ts_record::Record;

/// PID of the PAT (ISO/IEC 13818-1 clause 2.4.4.3).
const PAT_PID: u16 = 0;

/// Finds where the streams of the INT on a PID are, by the PAT and the PMTs of a recording.
///
/// It takes memory for two watches at the beginning, and for one of each program when the PAT is complete.
#[derive(Drop)]
pub struct Finder {
    alloc: Global,
    /// The PID of the INT.
    pid: u16,
    int: Watch,
    pat: Watch,
    /// One for each program of the PAT, in its order.
    pmts: Vec<Watch>,
    is_open: bool,
}

impl Model for Finder {
    ghost use Rattle.psi_tables.specs.Watching.{FinderState};

    ghost Value = { FinderState };

    ghost view = { λ finder. record { pid = finder.pid; int = finder.int; pat = finder.pat; pmts = finder.pmts.items; is_open = finder.is_open } };
}

impl Finder {
    ghost use Rattle.std.specs.Prelude.{◌≡◌, true, false, List, [], ◌∷◌, ◌++◌, None, is_some, IfOk, OnOk, OnErr};
    ghost use Rattle.ts_spec.specs.Recording.{Record as ReadRecord};
    ghost use Rattle.ts_record.specs.Reading.{record_seen};
    ghost use Rattle.psi_spec.specs.Named.{pat_of};
    ghost use Rattle.psi_tables.specs.Watching.{HasSeen};
    ghost use Rattle.psi_tables.specs.Text.{IsFindText};

    /// A finder that was given nothing; the INT is on this PID.
    pub fn new(alloc: Global, pid: u16) -> Result<Finder, OutOfMemory>
        ensures seen { IfOk result (λ finder. HasSeen finder []) }
        ensures pid { IfOk result (λ finder. finder.pid ≡ pid) }
        ensures is_open { IfOk result (λ finder. finder.is_open ≡ true) }
    {
        let int = Watch::open(alloc, pid, Wanted::Int)?;
        let pat = Watch::open(alloc, PAT_PID, Wanted::Pat)?;
        Ok(Finder {
            alloc,
            pid,
            int,
            pat,
            pmts: Vec::new(alloc),
            is_open: true,
        })
    }

    /// Takes the next record. It can be out of memory only at the record that completes the first PAT.
    ///
    /// After an Err the finder is closed, and may not be stepped again.
    pub fn step(&mut self, item: &Record) -> Result<(), OutOfMemory>
        requires { self.old.is_open ≡ true }
        ensures seen { (records : List ReadRecord) → HasSeen self.old records → OnOk result (HasSeen self.new (records ++ record_seen item.now ∷ [])) }
        ensures memory { (records : List ReadRecord) → HasSeen self.old records
            → OnErr result ((pat_of records ≡ None) × (is_some (pat_of (records ++ record_seen item.now ∷ [])) ≡ true)) }
        ensures pid { self.new.pid ≡ self.old.pid }
        ensures goes_on { OnOk result (self.new.is_open ≡ true) }
        ensures closed { OnErr result (self.new.is_open ≡ false) }
    {
        self.step_record(item.moment, &item.bytes)
    }

    /// Takes the next record as `step` does: its moment and its bytes.
    pub(crate) fn step_record(
        &mut self,
        moment: Option<u64>,
        bytes: &[u8; 188],
    ) -> Result<(), OutOfMemory>
        requires { self.old.is_open ≡ true }
        ensures seen { (records : List ReadRecord) → HasSeen self.old records → OnOk result (HasSeen self.new (records ++ record { moment = moment; bytes = bytes.now } ∷ [])) }
        ensures memory { (records : List ReadRecord) → HasSeen self.old records
            → OnErr result ((pat_of records ≡ None) × (is_some (pat_of (records ++ record { moment = moment; bytes = bytes.now } ∷ [])) ≡ true)) }
        ensures pid { self.new.pid ≡ self.old.pid }
        ensures goes_on { OnOk result (self.new.is_open ≡ true) }
        ensures closed { OnErr result (self.new.is_open ≡ false) }
    {
        let Some(moment) = moment else {
            return Ok(());
        };
        let Ok(packet) = parse(bytes) else {
            return Ok(());
        };
        let had_pat = self.pat.is_found();
        self.int.take(bytes, &packet, moment);
        self.pat.take(bytes, &packet, moment);
        take_all(&mut self.pmts, bytes, &packet, moment);
        if had_pat {
            return Ok(());
        }
        let Some(section) = self.pat.found() else {
            return Ok(());
        };
        match watch_programs(self.alloc, section) {
            Ok(pmts) => {
                self.pmts = pmts;
                Ok(())
            }
            Err(_) => {
                self.is_open = false;
                Err(OutOfMemory)
            }
        }
    }

    /// The text of what the records name that were given: a head line and a line for each rule of the INT.
    pub fn text(&self, alloc: Global) -> Result<Vec<u8>, OutOfMemory>
        ensures written { (records : List ReadRecord) → HasSeen self.now records → IfOk result (λ text. IsFindText self.now.pid records text.items) }
    {
        text_of(alloc, self.int.found(), self.pat.found(), &self.pmts)
    }

    /// Whether no step has answered an Err.
    pub fn is_open(&self) -> bool
        ensures { result ≡ self.now.is_open }
    {
        self.is_open
    }
}

/// Gives a packet to each watch.
fn take_all(watches: &mut Vec<Watch>, bytes: &[u8; 188], packet: &Packet<'_>, moment: u64)
    requires readable { is_packet bytes.now ≡ true }
    requires read { fields_in packet.now ≡ fields_of bytes.now }
    ensures none { watches.old.items ≡ [] → watches.new.items ≡ [] }
    ensures watched { (programs : List ProgramFields) (records : List ReadRecord) → WatchesPrograms programs watches.old.items records
        → WatchesPrograms programs watches.new.items (records ++ packet_record moment bytes.now ∷ []) }
{
    for at in 0..watches.len() {
        watches[at].take(bytes, packet, moment);
    }
}

/// A watch for the PMT of each program of a PAT; none of a section that is none.
fn watch_programs(alloc: Global, section: &[u8]) -> Result<Vec<Watch>, OutOfMemory>
    ensures { bytes_are_pat section.now ≡ true → IfOk result (λ watches. WatchesPrograms (pat_fields section.now).programs watches.items []) }
{
    let Ok(read) = check_pat(section) else {
        return Ok(Vec::new(alloc));
    };
    let count = count_programs(read.body);
    let mut watches = Vec::with_capacity(alloc, count)?;
    for place in 0..count {
        let program = program_at(read.body, place);
        watches.push(Watch::open(alloc, program.pid, Wanted::Pmt(program.number))?)?;
    }
    Ok(watches)
}
