//! A recording, item by item -> the Ethernet frames in it, delivered as service 0 of an outlet.
ghost use Rattle.std.specs.Prelude.{◌≡◌};

use crate::pdus::take_frame;
use crate::sndus::SnduBridge;
use bb_frame::parse as parse_frame;
use gse_reassembly::{Slot, Slots};
use ipe_io::{Failed, Outlet};
use std::alloc::Allocator;
use std::marker::Model;
use ts_packet::parse as parse_packet;
use ts_record::Record;

/// What is under way, by the carrier.
#[derive(Drop)]
enum Units<A: Allocator> {
    /// Of SNDUs.
    Sndus(SnduBridge<A>),
    /// Of PDUs in GSE packets.
    Pdus(Slots<A>),
}

/// The Ethernet frames of one PID of a transport stream, or of one ISI of baseband frames.
///
/// It is known by what it was given: contracts see what `HasTakenRecords` and `HasTakenFrames` tie to these.
#[derive(Drop)]
pub struct Bridge<A: Allocator> {
    /// The PID or the ISI, once it is selected.
    id: Option<u16>,
    /// How many items were taken.
    taken: u64,
    /// What is under way.
    units: Units<A>,
}

impl<A: Allocator> Model for Bridge<A> {
    ghost use Rattle.bridge_frame.specs.Bridge.{BridgeState, FitsUnits};
    ghost use Rattle.bridge_frame.specs.Units.{under_way};

    ghost Value = { BridgeState };

    ghost view = { λ bridge. record { id = bridge.id; taken = bridge.taken; units = under_way bridge.units } };

    ghost invariant = { λ bridge. FitsUnits bridge.taken (under_way bridge.units) };
}

impl<A: Allocator> Bridge<A> {
    ghost use Rattle.std.specs.Prelude.{◌≡◌, ◌+◌, ◌^◌, ◌<◌, ◌≤◌, ℕ, Bool, true, false, not, List, [], ◌∷◌, ◌++◌, length, vec_len, Some, None, is_some, OnOk, OnErr};
    ghost use Rattle.wire_spec.specs.Causes.{HasCause};
    ghost use Rattle.ts_spec.specs.Recording.{Record as ReadRecord};
    ghost use Rattle.ts_record.specs.Reading.{record_seen};
    ghost use Rattle.outlet_spec.specs.Pairs.{pairs_of, Delivers, DeliversFront};
    ghost use Rattle.bridge_frame.specs.Bridge.{BridgeState, is_of_sndus, HasSizes, HasTakenRecords, HasTakenFrames, added_on_isi};
    ghost use Rattle.bridge_frame.specs.Sndus.{added_on_pid};

    /// A bridge of SNDUs (`ule`) over a buffer of 32,771 bytes and no slots, or of GSE packets over one of 256 times 65,540 bytes and a slot for each
    /// of 256 Frag IDs. It takes no memory afterwards.
    pub fn over(buffer: Vec<u8, A>, slots: Vec<Slot, A>, ule: bool) -> Bridge<A>
        requires sizes { HasSizes ule (vec_len buffer) (vec_len slots) }
        ensures kind { is_of_sndus result.units ≡ ule }
        ensures unselected { result.id ≡ None }
        ensures fresh { result.taken ≡ 0 }
        ensures records { (pid : ℕ) → ule ≡ true → HasTakenRecords pid (record result { id = Some pid }) [] }
        ensures frames { (isi : ℕ) → ule ≡ false → HasTakenFrames isi (record result { id = Some isi }) [] }
    {
        if ule {
            Bridge {
                id: None,
                taken: 0,
                units: Units::Sndus(SnduBridge::over(buffer)),
            }
        } else {
            Bridge {
                id: None,
                taken: 0,
                units: Units::Pdus(Slots::over(buffer, slots)),
            }
        }
    }

    /// Says which PID or ISI it is, once, before it is given anything.
    pub fn select(&mut self, id: u16)
        requires unselected { self.old.id ≡ None }
        ensures selected { self.new ≡ record self.old { id = Some id } }
    {
        self.id = Some(id);
    }

    /// Takes one record of a recording of transport packets, of at most 2^32. The Ethernet frames that end in it go to service 0 of the outlet.
    ///
    /// Failed: the outlet refused one, and those after it are not offered.
    pub fn step<T: Outlet>(&mut self, item: &Record, outlet: &mut T) -> Result<(), Failed>
        requires kind { is_of_sndus self.old.units ≡ true }
        requires selected { is_some self.old.id ≡ true }
        requires few { self.old.taken < 2 ^ 32 }
        requires served { 0 < T.services outlet.old }
        ensures received { (pid : ℕ) (records : List ReadRecord) → HasTakenRecords pid self.old records
            → HasTakenRecords pid self.new (records ++ record_seen item.now ∷ []) }
        ensures written { (pid : ℕ) (records : List ReadRecord) → HasTakenRecords pid self.old records
            → OnOk result (Delivers (T.StandsFor outlet.old) (T.StandsFor outlet.new) (pairs_of 0 (added_on_pid pid records (record_seen item.now)))) }
        ensures failed { (pid : ℕ) (records : List ReadRecord) → HasTakenRecords pid self.old records
            → OnErr result (DeliversFront (T.StandsFor outlet.old) (T.StandsFor outlet.new) (T.Refused outlet.new) (pairs_of 0 (added_on_pid pid records (record_seen item.now)))) }
        ensures counted { self.new.taken ≡ self.old.taken + 1 }
        ensures id { self.new.id ≡ self.old.id }
        ensures kind { is_of_sndus self.new.units ≡ true }
        ensures services { T.services outlet.new ≡ T.services outlet.old }
        ensures cause { HasCause (T.faults outlet.old) (T.faults outlet.new) result }
    {
        self.step_record(item.moment, &item.bytes, outlet)
    }

    /// Takes a record from where it lies, a packet and its moment; otherwise as `step`.
    pub(crate) fn step_record<T: Outlet>(
        &mut self,
        moment: Option<u64>,
        bytes: &[u8; 188],
        outlet: &mut T,
    ) -> Result<(), Failed>
        requires kind { is_of_sndus self.old.units ≡ true }
        requires selected { is_some self.old.id ≡ true }
        requires few { self.old.taken < 2 ^ 32 }
        requires served { 0 < T.services outlet.old }
        ensures received { (pid : ℕ) (records : List ReadRecord) → HasTakenRecords pid self.old records
            → HasTakenRecords pid self.new (records ++ record { moment = moment; bytes = bytes.now } ∷ []) }
        ensures written { (pid : ℕ) (records : List ReadRecord) → HasTakenRecords pid self.old records
            → OnOk result (Delivers (T.StandsFor outlet.old) (T.StandsFor outlet.new) (pairs_of 0 (added_on_pid pid records (record { moment = moment; bytes = bytes.now })))) }
        ensures failed { (pid : ℕ) (records : List ReadRecord) → HasTakenRecords pid self.old records
            → OnErr result (DeliversFront (T.StandsFor outlet.old) (T.StandsFor outlet.new) (T.Refused outlet.new) (pairs_of 0 (added_on_pid pid records (record { moment = moment; bytes = bytes.now })))) }
        ensures counted { self.new.taken ≡ self.old.taken + 1 }
        ensures id { self.new.id ≡ self.old.id }
        ensures kind { is_of_sndus self.new.units ≡ true }
        ensures services { T.services outlet.new ≡ T.services outlet.old }
        ensures cause { HasCause (T.faults outlet.old) (T.faults outlet.new) result }
    {
        self.taken += 1;
        let moment = match moment {
            Some(moment) => moment,
            None => return Ok(()),
        };
        let packet = match parse_packet(bytes) {
            Ok(packet) => packet,
            Err(_) => return Ok(()),
        };
        if self.id != Some(packet.pid) {
            return Ok(());
        }
        match &mut self.units {
            Units::Sndus(sndus) => sndus.take(bytes, &packet, moment, outlet),
            Units::Pdus(_) => unreachable!(),
        }
    }

    /// Takes one baseband frame of a recording, of at most 2^32. The Ethernet frames whose PDUs end in it go to service 0 of the outlet.
    ///
    /// Failed: the outlet refused one, and those after it are not offered.
    pub fn step_frame<T: Outlet>(&mut self, frame: &[u8], outlet: &mut T) -> Result<(), Failed>
        requires kind { is_of_sndus self.old.units ≡ false }
        requires selected { is_some self.old.id ≡ true }
        requires header { 10 ≤ length frame.now }
        requires few { self.old.taken < 2 ^ 32 }
        requires served { 0 < T.services outlet.old }
        ensures received { (isi : ℕ) (frames : List (List ℕ)) → HasTakenFrames isi self.old frames
            → HasTakenFrames isi self.new (frames ++ frame.now ∷ []) }
        ensures written { (isi : ℕ) (frames : List (List ℕ)) → HasTakenFrames isi self.old frames
            → OnOk result (Delivers (T.StandsFor outlet.old) (T.StandsFor outlet.new) (pairs_of 0 (added_on_isi isi frames frame.now))) }
        ensures failed { (isi : ℕ) (frames : List (List ℕ)) → HasTakenFrames isi self.old frames
            → OnErr result (DeliversFront (T.StandsFor outlet.old) (T.StandsFor outlet.new) (T.Refused outlet.new) (pairs_of 0 (added_on_isi isi frames frame.now))) }
        ensures counted { self.new.taken ≡ self.old.taken + 1 }
        ensures id { self.new.id ≡ self.old.id }
        ensures kind { is_of_sndus self.new.units ≡ false }
        ensures services { T.services outlet.new ≡ T.services outlet.old }
        ensures cause { HasCause (T.faults outlet.old) (T.faults outlet.new) result }
    {
        self.taken += 1;
        let read = match parse_frame(frame) {
            Ok(read) => read,
            Err(_) => return Ok(()),
        };
        if self.id != Some(u16::from(read.isi)) {
            return Ok(());
        }
        match &mut self.units {
            Units::Sndus(_) => unreachable!(),
            Units::Pdus(slots) => take_frame(slots, read.field, outlet),
        }
    }

    /// Whether it is one of SNDUs, which takes packets; otherwise it takes baseband frames.
    pub(crate) fn takes_packets(&self) -> bool
        ensures kind { is_of_sndus self.now.units ≡ result }
    {
        match self.units {
            Units::Sndus(_) => true,
            Units::Pdus(_) => false,
        }
    }
}
