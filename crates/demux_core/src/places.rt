//! From each PID to the place of its service: one byte a PID.
ghost use Rattle.std.specs.Prelude.{◌≡◌, ◌==◌, ℕ, ◌<◌, ◌≤◌, Some, None, IfOk, cond, length, vec_len};
ghost use Rattle.std.specs.List.{position};
ghost use Rattle.demux_core.specs.Places.{place_in, ArePlacesOf};

use crate::service::ServiceReceiver;
use bumpalo::Bump;
use ipe_io::OutOfMemory;

/// How many PIDs there are: they have 13 bits (ISO/IEC 13818-1 clause 2.4.3.2).
const PIDS: usize = 8192;

/// The entry of a PID that no service has. The places of services are below 64.
pub(crate) const NO_SERVICE: u8 = 255;

/// A table of so many PIDs, none of which has a service.
fn no_places(arena: &Bump, count: usize) -> Result<Vec<u8, &Bump>, OutOfMemory>
    ensures size { IfOk result (λ places. vec_len places ≡ count) }
    ensures none { IfOk result (λ places. (asked : ℕ) → asked < count → place_in places.items asked ≡ None) }
{
    vec![in arena; NO_SERVICE; count]
}

/// Sets the entry of a PID, whatever it was: its service is the one at this place.
fn set_place(places: &mut [u8], pid: u16, place: u8)
    requires place { place < 255 }
    ensures size { length places.new ≡ length places.old }
    ensures set { (asked : ℕ) → asked < length places.old → place_in places.new asked ≡ cond (pid == asked) (Some place) (place_in places.old asked) }
{
    let entry = usize::from(pid);
    if entry < places.len() {
        places[entry] = place;
    }
}

/// Sets the entry of each receiver's PID in a table of none. The first ones are set last, so that they stand.
fn set_places(places: &mut [u8], receivers: &[ServiceReceiver<'_>])
    requires few { length receivers.now ≤ 64 }
    requires none { (asked : ℕ) → asked < length places.old → place_in places.old asked ≡ None }
    ensures size { length places.new ≡ length places.old }
    ensures set { (asked : ℕ) → asked < length places.old → place_in places.new asked ≡ position (λ receiver. receiver.pid == asked) receivers.now }
{
    let mut at = receivers.len();
    while at > 0 {
        at -= 1;
        set_place(places, receivers[at].pid, at as u8);
    }
}

/// Clears the entries of all PIDs.
fn clear_places(places: &mut [u8])
    ensures size { length places.new ≡ length places.old }
    ensures none { (asked : ℕ) → asked < length places.old → place_in places.new asked ≡ None }
{
    places.fill(NO_SERVICE);
}

/// Makes a table that of these receivers, whatever it was before: no PID that they left has an entry.
pub(crate) fn renew_places(places: &mut [u8], receivers: &[ServiceReceiver<'_>])
    requires few { length receivers.now ≤ 64 }
    requires size { length places.old ≡ 8192 }
    ensures size { length places.new ≡ 8192 }
    ensures set { ArePlacesOf places.new receivers.now }
{
    clear_places(places);
    set_places(places, receivers);
}

/// The table of these receivers.
pub(crate) fn open_places<'a>(
    arena: &'a Bump,
    receivers: &[ServiceReceiver<'_>],
) -> Result<Vec<u8, &'a Bump>, OutOfMemory>
    requires few { length receivers.now ≤ 64 }
    ensures size { IfOk result (λ places. vec_len places ≡ 8192) }
    ensures set { IfOk result (λ places. ArePlacesOf places.items receivers.now) }
{
    let mut places = no_places(arena, PIDS)?;
    set_places(places.as_mut_slice(), receivers);
    Ok(places)
}
