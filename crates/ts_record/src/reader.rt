//! The reader of records: it takes one record's bytes at a time, and keeps the last moment.
ghost use Rattle.std.specs.Prelude.{◌≡◌, ◌↔◌, ℕ, ◌^◌, ◌<◌, ◌≤◌, true, false, List, [], None, Ok, IfOk, IfSome, IfNone, OnOk, OnErr, IsErrOf, IsTrue, length};
ghost use Rattle.wire_spec.specs.Causes.{Rose};
ghost use Rattle.ts_spec.specs.Recording.{record_size, stamp_size as size_of_stamp};
ghost use Rattle.ts_record.specs.Reading.{form_of, record_seen, moment_in, stepped, ReaderOf, TakesBytes, ReadsRecord, ReadsEnd, closed};

use crate::moments::{moment_of, stamp_size};
use crate::pieces::fill_both;
use ipe_io::{RecordFault, Recording, Source};
use std::marker::Model;

/// One record.
#[derive(Clone, Copy, Debug)]
pub struct Record {
    /// When the packet arrived. Plain: 0. Stamped: microseconds; None where the stamp is 2^62 or more. m2ts: units
    /// of a 27th of a microsecond, that do not fall where the stamps go round.
    pub moment: Option<u64>,
    /// The bytes of the packet.
    pub bytes: [u8; 188],
}

/// The bytes of a transport packet.
const PACKET: usize = 188;

/// Profile: the most records of one recording.
const MOST_RECORDS: u64 = 1 << 32;

/// Reads the records of a recording in order.
#[derive(Drop)]
pub struct RecordReader {
    recording: Recording,
    count: u64,
    before: Option<u64>,
    tail: u32,
    has_ended: bool,
    is_open: bool,
}

impl Model for RecordReader {
    ghost use Rattle.std.specs.Prelude.{ℕ, ◌+◌, ◌*◌, ◌≡◌, ◌<◌, ◌≤◌, ◌^◌, true};
    ghost use Rattle.std.specs.Option.{ForSome};
    ghost use Rattle.ts_record.specs.Reading.{ReaderState, form_of};

    ghost Value = { ReaderState };

    ghost view = { λ r. record { form = form_of r.recording; count = r.count; before = r.before; tail = r.tail; has_ended = r.has_ended; is_open = r.is_open } };

    ghost invariant = { λ r. (r.count ≤ 2 ^ 32) × (r.has_ended ≡ true → r.count < 2 ^ 32) × ForSome r.before (λ m. m ≤ 2 ^ 62 + r.count * 2 ^ 30) };
}

impl RecordReader {
    /// No record was read.
    pub fn new(recording: Recording) -> RecordReader
        ensures form { result.form ≡ form_of recording }
        ensures stands { ReaderOf result [] }
        ensures tail { result.tail ≡ 0 }
        ensures unended { result.has_ended ≡ false }
    {
        RecordReader {
            recording,
            count: 0,
            before: None,
            tail: 0,
            has_ended: false,
            is_open: true,
        }
    }

    /// Reads the next record, or None at the end of the input, where fewer bytes than a record may be left over.
    ///
    /// After None it answers None again: it reads nothing more, also from a source that would go on, and the tail stays.
    ///
    /// `Failed`: the source failed, where fewer than 2^32 records were read before. `TooLong`: so many were read before;
    /// nothing is taken from the source.
    /// After an Err the reader is closed, and may not be asked again.
    pub fn next<S: Source>(&mut self, source: &mut S) -> Result<Option<Record>, RecordFault>
        requires { self.old.is_open ≡ true }
        ensures read { (pieces : List (List ℕ)) → ReaderOf self.old pieces
            → IfOk result (λ it. IfSome it (λ r.
            ReadsRecord self.old self.new (S.told source.old).left (S.told source.new).left
            (S.told source.old).taken (S.told source.new).taken pieces (record_seen r))) }
        ensures end { (pieces : List (List ℕ)) → ReaderOf self.old pieces → self.old.has_ended ≡ false
            → IfOk result (λ it. IfNone it (
            ReadsEnd self.old self.new (S.told source.old).left (S.told source.new).left
            (S.told source.old).taken (S.told source.new).taken pieces)) }
        ensures ended { self.old.has_ended ≡ false → IfOk result (λ it. IfNone it ((S.told source.new).ended ≡ true)) }
        ensures again { self.old.has_ended ≡ true → (result ≡ Ok None) × (self.new ≡ self.old) × (source.new ≡ source.old) }
        ensures unended { IfOk result (λ it. IfSome it (λ r. (S.told source.old).ended ≡ false → (S.told source.new).ended ≡ false)) }
        ensures few { OnOk result (self.old.count < 2 ^ 32) }
        ensures too_long { IsErrOf result RecordFault.TooLong ↔ (self.old.count ≡ 2 ^ 32) }
        ensures unchanged { IsErrOf result RecordFault.TooLong → source.new ≡ source.old }
        ensures failed { IsErrOf result RecordFault.Failed → (bytes : List ℕ) × (length bytes < record_size self.old.form)
            × TakesBytes (S.told source.old).left (S.told source.new).left (S.told source.old).taken (S.told source.new).taken bytes }
        ensures cause { IsErrOf result RecordFault.Failed → Rose (S.told source.old).faults (S.told source.new).faults }
        ensures soon { IsErrOf result RecordFault.Failed → self.old.count < 2 ^ 32 }
        ensures goes_on { IsErrOf result RecordFault.Failed → (S.told source.old).ended ≡ false → (S.told source.new).ended ≡ false }
        ensures later { (S.told source.old).faults ≤ (S.told source.new).faults }
        ensures kept { ¬ IsErrOf result RecordFault.Failed → (S.told source.new).faults ≡ (S.told source.old).faults }
        ensures closed { OnErr result (self.new ≡ closed self.old) }
    {
        let mut record = Record {
            moment: None,
            bytes: [0; 188],
        };
        if self.next_into(source, &mut record)? {
            Ok(Some(record))
        } else {
            Ok(None)
        }
    }

    /// Reads the next record as `next` does, into the place of another. False: the input has ended.
    ///
    /// After false or an Err the place holds no record, but any bytes.
    pub fn next_into<S: Source>(
        &mut self,
        source: &mut S,
        into: &mut Record,
    ) -> Result<bool, RecordFault>
        requires { self.old.is_open ≡ true }
        ensures read { (pieces : List (List ℕ)) → ReaderOf self.old pieces → result ≡ Ok true
            → ReadsRecord self.old self.new (S.told source.old).left (S.told source.new).left
            (S.told source.old).taken (S.told source.new).taken pieces (record_seen into.new) }
        ensures end { (pieces : List (List ℕ)) → ReaderOf self.old pieces → self.old.has_ended ≡ false → result ≡ Ok false
            → ReadsEnd self.old self.new (S.told source.old).left (S.told source.new).left
            (S.told source.old).taken (S.told source.new).taken pieces }
        ensures ended { self.old.has_ended ≡ false → result ≡ Ok false → (S.told source.new).ended ≡ true }
        ensures again { self.old.has_ended ≡ true → (result ≡ Ok false) × (self.new ≡ self.old) × (source.new ≡ source.old) }
        ensures unended { result ≡ Ok true → (S.told source.old).ended ≡ false → (S.told source.new).ended ≡ false }
        ensures few { OnOk result (self.old.count < 2 ^ 32) }
        ensures too_long { IsErrOf result RecordFault.TooLong ↔ (self.old.count ≡ 2 ^ 32) }
        ensures unchanged { IsErrOf result RecordFault.TooLong → source.new ≡ source.old }
        ensures failed { IsErrOf result RecordFault.Failed → (bytes : List ℕ) × (length bytes < record_size self.old.form)
            × TakesBytes (S.told source.old).left (S.told source.new).left (S.told source.old).taken (S.told source.new).taken bytes }
        ensures cause { IsErrOf result RecordFault.Failed → Rose (S.told source.old).faults (S.told source.new).faults }
        ensures soon { IsErrOf result RecordFault.Failed → self.old.count < 2 ^ 32 }
        ensures goes_on { IsErrOf result RecordFault.Failed → (S.told source.old).ended ≡ false → (S.told source.new).ended ≡ false }
        ensures later { (S.told source.old).faults ≤ (S.told source.new).faults }
        ensures kept { ¬ IsErrOf result RecordFault.Failed → (S.told source.new).faults ≡ (S.told source.old).faults }
        ensures closed { OnErr result (self.new ≡ closed self.old) }
    {
        if self.has_ended {
            return Ok(false);
        }
        if !self.has_room() {
            self.is_open = false;
            return Err(RecordFault::TooLong);
        }
        let mut stamp = [0; 8];
        let stamp = &mut stamp[..stamp_size(self.recording)];
        let Ok(count) = fill_both(source, stamp, &mut into.bytes) else {
            self.is_open = false;
            return Err(RecordFault::Failed);
        };
        if count < stamp.len() + PACKET {
            self.tail = count as u32;
            self.has_ended = true;
            return Ok(false);
        }
        into.moment = self.step(stamp);
        Ok(true)
    }

    /// The bytes of one record.
    pub(crate) fn record_size(&self) -> usize
        ensures { result ≡ record_size self.now.form }
    {
        stamp_size(self.recording) + PACKET
    }

    /// Whether it has seen the end of the input.
    pub(crate) fn has_ended(&self) -> bool
        ensures { result ≡ self.now.has_ended }
    {
        self.has_ended
    }

    /// Whether fewer than 2^32 records were read.
    pub(crate) fn has_room(&self) -> bool
        ensures { IsTrue result ↔ (self.now.count < 2 ^ 32) }
    {
        self.count < MOST_RECORDS
    }

    /// Counts one record more, and answers its moment.
    pub(crate) fn step(&mut self, stamp: &[u8]) -> Option<u64>
        requires size { length stamp.now ≡ size_of_stamp self.old.form }
        requires few { self.old.count < 2 ^ 32 }
        requires unended { self.old.has_ended ≡ false }
        ensures moment { result ≡ moment_in self.old.form self.old.before stamp.now }
        ensures stepped { self.new ≡ stepped self.old result }
    {
        let moment = moment_of(self.recording, self.before, stamp);
        self.count += 1;
        self.before = moment;
        moment
    }

    /// How many bytes, fewer than a record has, stood before the end of the input: 0 until `next` answers None.
    pub fn tail(&self) -> u32
        ensures { result ≡ self.now.tail }
    {
        self.tail
    }

    /// Whether no `next` has answered an Err.
    pub fn is_open(&self) -> bool
        ensures { result ≡ self.now.is_open }
    {
        self.is_open
    }
}
