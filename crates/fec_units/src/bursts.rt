//! The datagrams of a service -> the bursts of its time slicing: which datagrams each of them has.
ghost use Rattle.std.specs.Prelude.{◌≡◌, ◌∷◌, ◌*◌, ◌^◌, ◌<◌, ◌≤◌, List, ℕ, length, drop, vec_len, vec_capacity, IfOk};
ghost use Rattle.wire_spec.specs.Lists.{joined};
ghost use Rattle.section_spec.specs.Mpe.{IsRows};
ghost use Rattle.fec_units.specs.Bursts.{AreBurstEnds};
ghost use Rattle.fec_units.specs.Packets.{after_sections, data_sizes, first_section};
ghost use Rattle.fec_units.specs.Parts.{part_of};
ghost use Rattle.stream_spec.specs.Units.{burst_size, datagrams_by_burst, fits_window};
ghost use Rattle.fec_sent_law.specs.Frames.{AreSendable};

use crate::columns::DATA_COLUMNS;
use crate::packets::{NextSection, first};
use ip_datagram::DatagramList;
use mpe_section::{fec_size, mpe_size};
use std::alloc::{AllocError as OutOfMemory, Global};

/// How many packets a burst has: its sections before the columns, after which `next` stands, and its columns.
fn packets_of_burst(next: NextSection, rows: u16, columns: u8) -> usize
    requires rows { IsRows rows }
    requires columns { columns ≤ 64 }
    requires few { next.packet < 2 ^ 40 }
    ensures counted { (datagrams : List (List ℕ)) → next ≡ after_sections first_section (data_sizes datagrams) → result ≡ burst_size rows columns datagrams }
{
    let size = fec_size(usize::from(rows));
    let mut next = next;
    for number in 0..columns {
        next = next.after(size);
    }
    next.packets_before()
}

/// Whether datagrams of so many bytes, after whose sections `next` stands, fit the application data table, and their burst the window.
fn are_fitting(used: usize, next: NextSection, rows: u16, columns: u8, slots: u32) -> bool
    requires rows { IsRows rows }
    requires columns { columns ≤ 64 }
    requires few { next.packet < 2 ^ 40 }
    ensures fits { (datagrams : List (List ℕ)) → used ≡ length (joined datagrams) → next ≡ after_sections first_section (data_sizes datagrams)
        → result ≡ fits_window rows columns slots datagrams }
{
    let room = DATA_COLUMNS * usize::from(rows);
    used <= room && packets_of_burst(next, rows, columns) <= slots as usize
}

/// Where the datagrams of a burst end that begins at a place of the list.
fn burst_end(list: &DatagramList, rows: u16, columns: u8, slots: u32, from: usize) -> usize
    requires datagrams { AreSendable list.now }
    requires rows { IsRows rows }
    requires columns { columns ≤ 64 }
    requires few { length list.now < 2 ^ 32 }
    requires from { from < length list.now }
    ensures some { from < result }
    ensures within { result ≤ length list.now }
    ensures fits { length (joined (part_of from result list.now)) ≤ 191 * rows }
    ensures burst { datagrams_by_burst rows columns slots (drop from list.now)
        ≡ part_of from result list.now ∷ datagrams_by_burst rows columns slots (drop result list.now) }
{
    let count = list.len();
    let mut used = list.at(from).len();
    let mut next = first().after(mpe_size(used));
    for end in from + 1..count {
        let size = list.at(end).len();
        used += size;
        next = next.after(mpe_size(size));
        if !are_fitting(used, next, rows, columns, slots) {
            return end;
        }
    }
    count
}

/// How many bursts the datagrams take.
fn bursts_in(list: &DatagramList, rows: u16, columns: u8, slots: u32) -> usize
    requires datagrams { AreSendable list.now }
    requires rows { IsRows rows }
    requires columns { columns ≤ 64 }
    requires few { length list.now < 2 ^ 32 }
    ensures counted { result ≡ length (datagrams_by_burst rows columns slots list.now) }
{
    let mut bursts = 0;
    let mut from = 0;
    while from < list.len() {
        from = burst_end(list, rows, columns, slots, from);
        bursts += 1;
    }
    bursts
}

/// Where the datagrams of each burst end in the list.
///
/// A burst takes as many datagrams as its application data table of 191 columns has room for, and as its window of so many slots has room for
/// the packets of its sections. A frame has 256, 512, 768 or 1,024 rows, and 1 to 64 columns of its RS data table are sent. Each datagram is
/// an IP datagram of 4,080 bytes at most. The answer has room for no more ends.
pub fn burst_ends(
    alloc: Global,
    list: &DatagramList,
    rows: u16,
    columns: u8,
    slots: u32,
) -> Result<Vec<u32>, OutOfMemory>
    requires rows { IsRows rows }
    requires columns { (1 ≤ columns) × (columns ≤ 64) }
    requires datagrams { AreSendable list.now }
    requires few { length list.now < 2 ^ 32 }
    ensures ends { IfOk result (λ ends. AreBurstEnds rows columns slots list.now ends.items) }
    ensures exact { IfOk result (λ ends. vec_capacity ends ≡ vec_len ends) }
{
    let room = bursts_in(list, rows, columns, slots);
    let mut ends = Vec::with_capacity(alloc, room)?;
    let mut from = 0;
    while from < list.len() {
        from = burst_end(list, rows, columns, slots, from);
        ends.push_reserved(from as u32);
    }
    Ok(ends)
}
