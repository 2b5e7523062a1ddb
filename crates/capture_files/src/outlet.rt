//! The files of a rack as an outlet: one record of a capture for each datagram, in the file of its service.
ghost use Rattle.std.specs.Prelude.{ℕ, ◌+◌, ◌≤◌, ◌^◌, List, Option};
ghost use Rattle.wire_spec.specs.Content.{File};
ghost use Rattle.capture_files.specs.Growth.{StayTold};

use crate::records::put_datagram;
use ipe_io::{Failed, Outlet, Rack};
use std::marker::{Brand, PhantomData};

/// What an outlet began with, for its contract alone.
pub trait Began {
    /// The place of the file of service 0.
    ghost first: { ℕ };

    /// How many files the rack had.
    ghost count: { ℕ };

    /// How often it had failed.
    ghost faults: { ℕ };

    /// The files.
    ghost files: { Option (List File) };
}

impl Began for Brand {
    ghost use Rattle.std.specs.Prelude.{None};

    ghost first = { 0 };

    ghost count = { 0 };

    ghost faults = { 0 };

    ghost files = { None };
}

/// How far an outlet has come.
#[derive(Clone, Copy, Debug, PartialEq, Eq)]
pub enum Progress {
    /// All that it was given is written.
    Whole,
    /// The rack failed at a record: of which service, and how many bytes of the record are in its file.
    Stopped(u32, usize),
    /// It was asked again after that.
    Passed,
}

/// An outlet over the files of services, which stand one after another in a rack, that of service 0 first.
///
/// It fails where the rack fails, and keeps where that was. The receiver asks no more then; asked again, it would write nothing,
/// and stand for nothing.
#[derive(Drop)]
pub struct RackOutlet<'r, R: Rack, B: Began> {
    /// The rack.
    pub rack: &'r mut R,
    /// The place of the first file.
    pub first: u32,
    /// How many files there are.
    pub services: u32,
    /// How far it has come.
    pub progress: Progress,
    /// What it began with.
    pub began: PhantomData<B>,
    pub ghost there: { first + services ≤ (R.told rack.now).count },
    pub ghost places: { first + services ≤ 2 ^ 32 },
    pub ghost told: { StayTold B.files (R.told rack.now).files },
}

impl<'r, R: Rack, B: Began> Outlet for RackOutlet<'r, R, B> {
    ghost use Rattle.capture_files.specs.Outlets.{StandsFor as Stands, Refuses, failures};

    ghost services = { λ o. o.services };

    ghost faults = { λ o. failures o.progress };

    ghost StandsFor = { λ o pairs. Stands
        (record { first = B.first; count = B.count; faults = B.faults; files = B.files })
        (record { first = o.first; count = (R.told o.rack.now).count; faults = (R.told o.rack.now).faults; files = (R.told o.rack.now).files })
        o.progress o.rack.ghost_name pairs };

    ghost Refused = { λ o service datagram. Refuses
        (record { first = B.first; count = B.count; faults = B.faults; files = B.files })
        (record { first = o.first; count = (R.told o.rack.now).count; faults = (R.told o.rack.now).faults; files = (R.told o.rack.now).files })
        o.progress service datagram };

    fn deliver(&mut self, service: u32, datagram: &[u8]) -> Result<(), Failed> {
        match self.progress {
            Progress::Whole => {}
            Progress::Stopped(_, _) | Progress::Passed => {
                self.progress = Progress::Passed;
                return Ok(());
            }
        }
        match put_datagram(self.rack, self.first + service, datagram) {
            Ok(()) => Ok(()),
            Err(put) => {
                self.progress = Progress::Stopped(service, put);
                Err(Failed)
            }
        }
    }
}
