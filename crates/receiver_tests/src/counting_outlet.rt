//! An outlet that counts, and how counts rise, as text.
use ipe_io::{Failed, Outlet};
use service_counts::ServiceCounts;
use std::alloc::{AllocError as OutOfMemory, Global};

/// The service of all tests.
pub(crate) const SERVICE: u32 = 3;

/// RFC 791 section 3.1: a datagram of 20 bytes, its header alone, to 239.1.2.3.
pub(crate) const DATAGRAM: [u8; 20] = [
    0x45, 0, 0, 20, 0, 0, 0, 0, 0x40, 0x11, 0, 0, 10, 0, 0, 1, 239, 1, 2, 3,
];

/// An outlet of eight services that takes so many datagrams or frames and refuses all after them.
#[derive(Clone, Copy)]
pub(crate) struct Noted {
    /// How many more it takes.
    room: u64,
    /// What must come, and for which service.
    due: &'static [u8],
    service: u32,
    /// How often it took what must come.
    pub(crate) delivered: u64,
    /// How often it took something else, or for another service.
    pub(crate) others: u64,
    /// How often it refused.
    pub(crate) refused: u64,
}

impl Noted {
    /// An outlet for these bytes and this service.
    pub(crate) fn new(due: &'static [u8], service: u32, room: u64) -> Noted {
        Noted {
            room,
            due,
            service,
            delivered: 0,
            others: 0,
            refused: 0,
        }
    }
}

impl Outlet for Noted {
    ghost use Rattle.std.specs.Prelude.{◌≡◌};

    ghost services = { λ _. 8 };

    ghost faults = { λ noted. noted.refused };

    ghost StandsFor = { λ _ _. Unit {0} };

    ghost Refused = { λ _ _ _. Unit {0} };

    fn deliver(&mut self, service: u32, datagram: &[u8]) -> Result<(), Failed> {
        if self.room == 0 {
            self.refused = self.refused.saturating_add(1);
            return Err(Failed);
        }
        self.room -= 1;
        if service == self.service && datagram == self.due {
            self.delivered = self.delivered.saturating_add(1);
        } else {
            self.others = self.others.saturating_add(1);
        }
        Ok(())
    }
}

/// What a reception has counted, and what its outlet has.
#[derive(Clone, Copy)]
pub(crate) struct Seen {
    pub(crate) counts: ServiceCounts,
    pub(crate) outlet: Noted,
}

/// Appends a number's name and how much it rose, where it did.
fn put_rise(text: &mut String, name: &str, old: u64, new: u64) -> Result<(), OutOfMemory> {
    if new > old {
        if !text.is_empty() {
            text.push(' ')?;
        }
        write!(text, "{name} {}", new - old)?;
    }
    Ok(())
}

/// Appends how much the numbers of a service rose.
fn put_counts(
    text: &mut String,
    old: &ServiceCounts,
    new: &ServiceCounts,
) -> Result<(), OutOfMemory> {
    put_rise(text, "heard", old.heard, new.heard)?;
    put_rise(text, "repeats", old.repeats, new.repeats)?;
    put_rise(text, "gaps", old.gaps, new.gaps)?;
    put_rise(text, "units", old.units, new.units)?;
    put_rise(text, "bad_check", old.bad_check, new.bad_check)?;
    put_rise(text, "delimited", old.delimited, new.delimited)?;
    put_rise(text, "bad_length", old.bad_length, new.bad_length)?;
    put_rise(text, "unread", old.unread, new.unread)?;
    put_rise(text, "filtered", old.filtered, new.filtered)?;
    put_rise(text, "frames", old.frames, new.frames)?;
    put_rise(text, "rows_mended", old.rows_mended, new.rows_mended)?;
    put_rise(text, "rows_left", old.rows_left, new.rows_left)?;
    put_rise(text, "datagrams", old.datagrams, new.datagrams)
}

/// Appends what an outlet took and refused more.
fn put_deliveries(text: &mut String, old: &Noted, new: &Noted) -> Result<(), OutOfMemory> {
    put_rise(text, "delivered", old.delivered, new.delivered)?;
    put_rise(text, "others", old.others, new.others)?;
    put_rise(text, "refused", old.refused, new.refused)
}

/// How much the numbers rose from an earlier state to a later one, and `failed 1` where a datagram was refused.
pub(crate) fn rises(
    alloc: Global,
    old: &Seen,
    new: &Seen,
    is_ok: bool,
) -> Result<String, OutOfMemory> {
    let mut text = String::new(alloc);
    put_counts(&mut text, &old.counts, &new.counts)?;
    put_deliveries(&mut text, &old.outlet, &new.outlet)?;
    put_rise(&mut text, "failed", u64::from(is_ok), 1)?;
    Ok(text)
}
