//! Sections of frames -> the table of the frame that is open, and the datagrams of each frame that is closed.
ghost use Rattle.std.specs.Prelude.{◌≡◌};

use crate::counts::{count_frame, count_unread};
use crate::delivery::deliver_frame;
use crate::placing::place_in;
use crate::sections::{Section, read_section};
use fec_frame::Table;
use ipe_io::{Failed, Outlet};
use service_counts::ServiceCounts;
use service_reception::{count_event, count_link};
use std::alloc::Allocator;
use std::marker::Model;
use time_slice::Membership;
use ts_packet::Link;
use unit_stream::JoinEvent;

/// The frame that is open, and the numbers of all that was received.
#[derive(Drop)]
pub(crate) struct Frames<A: Allocator> {
    table: Table<A>,
    /// Its rows.
    rows: u16,
    membership: Membership,
    counts: ServiceCounts,
}

impl<A: Allocator> Model for Frames<A> {
    ghost use Rattle.std.specs.Prelude.{◌≡◌};
    ghost use Rattle.service_reception.specs.Counting.{on_pid, of_frames};
    ghost use Rattle.fec_reception.specs.Reception.{FramesState};

    ghost Value = { FramesState };

    ghost view = { λ frames. record {
      table = frames.table;
      seen = frames.membership;
      on_pid = on_pid frames.counts;
      unread = frames.counts.unread;
      of_frames = of_frames frames.counts;
    } };

    ghost invariant = { λ frames. (frames.table.rows ≡ frames.rows) × (frames.counts.filtered ≡ 0) };
}

impl<A: Allocator> Frames<A> {
    ghost use Rattle.std.specs.Prelude.{◌≡◌, ◌<◌, ◌≤◌, ◌∷◌, ◌++◌, [], ℕ, List, true, false, not, length, count_by};
    ghost use Rattle.wire_spec.specs.Causes.{raised};
    ghost use Rattle.ts_spec.specs.Form.{IsUnit};
    ghost use Rattle.section_spec.specs.Section.{section_form};
    ghost use Rattle.section_spec.specs.Mpe.{IsRows};
    ghost use Rattle.slice_spec.specs.Sections.{Timing};
    ghost use Rattle.fec_frame_spec.specs.Sections.{TimedSection, timed_sections_in};
    ghost use Rattle.fec_frame_spec.specs.Groups.{is_cut};
    ghost use Rattle.fec_frame_spec.specs.Delivered.{datagrams_of_frames};
    ghost use Rattle.reception_spec.specs.Numbers.{no_numbers};
    ghost use Rattle.service_reception.specs.Counting.{on_pid, of_frames, service_counts_of, counted_link, counted_event, raised_by};
    ghost use Rattle.unit_stream.specs.States.{event_in};
    ghost use Rattle.time_slice.specs.Views.{timing_of};
    ghost use Rattle.fec_reception.specs.Frames.{is_unread};
    ghost use Rattle.fec_reception.specs.Counting.{unread_alone};
    ghost use Rattle.outlet_spec.specs.Going.{DeliversAfter, GoesOn};
    ghost use Rattle.fec_reception.specs.Reading.{timed_in, FitsTable};
    ghost use Rattle.fec_reception.specs.Reception.{FramesState, IsOver};
    ghost use Rattle.fec_reception.specs.Steps.{frame_with, cut_off, joined_by, ended_by, left_by, closed_with, open_with};
    ghost use Rattle.fec_reception.specs.Hearing.{HasFrames};

    /// No section came.
    pub(crate) fn over(table: Table<A>, sliced: bool, ten: u64) -> Frames<A>
        requires rows { IsRows table.rows }
        ensures none { HasFrames (timing_of sliced ten) table.rows [] [] result }
        ensures packets { result.on_pid ≡ no_numbers }
        ensures unread { result.unread ≡ 0 }
    {
        let rows = table.rows() as u16;
        let mut table = table;
        table.clear();
        Frames {
            table,
            rows,
            membership: Membership::new(sliced, ten),
            counts: ServiceCounts::default(),
        }
    }

    /// Drops the frame that is open, and all numbers.
    pub(crate) fn begin_anew(&mut self)
        ensures none { (timing : Timing) (rows : ℕ) → IsOver timing rows self.old → HasFrames timing rows [] [] self.new }
        ensures packets { self.new.on_pid ≡ no_numbers }
        ensures unread { self.new.unread ≡ 0 }
    {
        self.table.clear();
        self.membership.forget();
        self.counts = ServiceCounts::default();
    }

    /// Counts a packet, by how it follows the one before.
    pub(crate) fn count_link(&mut self, link: Link)
        ensures counted { self.new ≡ record self.old { on_pid = counted_link self.old.on_pid link } }
    {
        count_link(&mut self.counts, link);
    }

    /// Counts what became of a start.
    pub(crate) fn count_event(&mut self, event: &JoinEvent<'_>)
        ensures counted { self.new ≡ record self.old { on_pid = counted_event self.old.on_pid (event_in event.now) } }
    {
        count_event(&mut self.counts, event);
    }

    /// The numbers of all that was received.
    pub(crate) fn counts(&self) -> ServiceCounts
        ensures read { result ≡ service_counts_of self.now.on_pid (unread_alone self.now.unread) self.now.of_frames }
    {
        self.counts
    }

    /// Takes a unit that reassembly gave, with the moment of the packet with its first byte. Where it is a section of a frame, the frames
    /// that it closes are delivered; otherwise it is unread.
    pub(crate) fn take_unit<T: Outlet>(
        &mut self,
        moment: u64,
        unit: &[u8],
        service: u32,
        went: Result<(), Failed>,
        outlet: &mut T,
    ) -> Result<(), Failed>
        requires served { service < T.services outlet.old }
        ensures packets { self.new.on_pid ≡ self.old.on_pid }
        ensures unread { IsUnit section_form unit.now
            → self.new.unread ≡ raised_by self.old.unread (count_by (is_unread self.old.table.rows) (unit.now ∷ [])) }
        ensures goes { GoesOn T.services T.faults (record { outlet = outlet.old; went = went }) (record { outlet = outlet.new; went = result }) }
        ensures framed { (timing : Timing) (rows : ℕ) (closed : List (List TimedSection)) (group : List TimedSection) → IsUnit section_form unit.now
            → HasFrames timing rows closed group self.old
            → HasFrames timing rows (closed ++ closed_with timing rows group (timed_sections_in rows moment unit.now))
            (open_with timing rows group (timed_sections_in rows moment unit.now)) self.new }
        ensures delivered { (timing : Timing) (rows : ℕ) (closed : List (List TimedSection)) (group : List TimedSection) → IsUnit section_form unit.now
            → HasFrames timing rows closed group self.old
            → DeliversAfter T.StandsFor T.Refused service (datagrams_of_frames rows (closed_with timing rows group (timed_sections_in rows moment unit.now)))
            (record { outlet = outlet.old; went = went }) (record { outlet = outlet.new; went = result }) }
    {
        match read_section(unit, self.rows) {
            None => {
                count_unread(&mut self.counts);
                went
            }
            Some(section) => {
                let went = self.join(moment, &section, service, went, outlet);
                self.end(moment, &section, service, went, outlet)
            }
        }
    }

    /// Places a section in the frame that is open. Where it begins the next frame the open one is closed first.
    fn join<T: Outlet>(
        &mut self,
        moment: u64,
        section: &Section<'_>,
        service: u32,
        went: Result<(), Failed>,
        outlet: &mut T,
    ) -> Result<(), Failed>
        requires served { service < T.services outlet.old }
        requires fits { FitsTable self.old.table.rows section.now }
        ensures packets { self.new.on_pid ≡ self.old.on_pid }
        ensures unread { self.new.unread ≡ self.old.unread }
        ensures rows { self.new.table.rows ≡ self.old.table.rows }
        ensures goes { GoesOn T.services T.faults (record { outlet = outlet.old; went = went }) (record { outlet = outlet.new; went = result }) }
        ensures joined { (timing : Timing) (rows : ℕ) (closed : List (List TimedSection)) (group : List TimedSection)
            → HasFrames timing rows closed group self.old
            → HasFrames timing rows (closed ++ cut_off timing rows group (timed_in moment section.now)) (joined_by timing rows group (timed_in moment section.now)) self.new }
        ensures delivered { (timing : Timing) (rows : ℕ) (closed : List (List TimedSection)) (group : List TimedSection)
            → HasFrames timing rows closed group self.old
            → DeliversAfter T.StandsFor T.Refused service (datagrams_of_frames rows (cut_off timing rows group (timed_in moment section.now)))
            (record { outlet = outlet.old; went = went }) (record { outlet = outlet.new; went = result }) }
    {
        if self.place(moment, section) {
            return went;
        }
        let went = self.close(service, went, outlet);
        let _ = self.place(moment, section);
        went
    }

    /// Closes the frame that is open where this section, which was placed last, has frame_boundary.
    fn end<T: Outlet>(
        &mut self,
        moment: u64,
        section: &Section<'_>,
        service: u32,
        went: Result<(), Failed>,
        outlet: &mut T,
    ) -> Result<(), Failed>
        requires served { service < T.services outlet.old }
        ensures packets { self.new.on_pid ≡ self.old.on_pid }
        ensures unread { self.new.unread ≡ self.old.unread }
        ensures goes { GoesOn T.services T.faults (record { outlet = outlet.old; went = went }) (record { outlet = outlet.new; went = result }) }
        ensures ended { (timing : Timing) (rows : ℕ) (closed : List (List TimedSection)) (group : List TimedSection)
            → HasFrames timing rows closed group self.old
            → HasFrames timing rows (closed ++ ended_by (timed_in moment section.now) group) (left_by (timed_in moment section.now) group) self.new }
        ensures delivered { (timing : Timing) (rows : ℕ) (closed : List (List TimedSection)) (group : List TimedSection)
            → HasFrames timing rows closed group self.old
            → DeliversAfter T.StandsFor T.Refused service (datagrams_of_frames rows (ended_by (timed_in moment section.now) group))
            (record { outlet = outlet.old; went = went }) (record { outlet = outlet.new; went = result }) }
    {
        if section.ends_frame() {
            self.close(service, went, outlet)
        } else {
            went
        }
    }

    /// Places a section in the frame that is open. False: it begins the next frame, and nothing changed.
    fn place(&mut self, moment: u64, section: &Section<'_>) -> bool
        requires fits { FitsTable self.old.table.rows section.now }
        ensures cut { (timing : Timing) (rows : ℕ) (closed : List (List TimedSection)) (group : List TimedSection)
            → HasFrames timing rows closed group self.old → result ≡ not (is_cut timing rows group (timed_in moment section.now)) }
        ensures placed { (timing : Timing) (rows : ℕ) (closed : List (List TimedSection)) (group : List TimedSection)
            → HasFrames timing rows closed group self.old → result ≡ true → HasFrames timing rows closed (group ++ timed_in moment section.now ∷ []) self.new }
        ensures unchanged { result ≡ false → self.new ≡ self.old }
        ensures packets { self.new.on_pid ≡ self.old.on_pid }
        ensures unread { self.new.unread ≡ self.old.unread }
        ensures rows { self.new.table.rows ≡ self.old.table.rows }
    {
        let real_time = section.real_time();
        if !self.membership.belongs(moment, &real_time) {
            return false;
        }
        if !place_in(&mut self.table, section) {
            return false;
        }
        self.membership.see(moment, &real_time);
        true
    }

    /// Closes the frame that is open, where there is one: its rows are corrected, and its datagrams delivered.
    pub(crate) fn close<T: Outlet>(
        &mut self,
        service: u32,
        went: Result<(), Failed>,
        outlet: &mut T,
    ) -> Result<(), Failed>
        requires served { service < T.services outlet.old }
        ensures packets { self.new.on_pid ≡ self.old.on_pid }
        ensures unread { self.new.unread ≡ self.old.unread }
        ensures rows { self.new.table.rows ≡ self.old.table.rows }
        ensures goes { GoesOn T.services T.faults (record { outlet = outlet.old; went = went }) (record { outlet = outlet.new; went = result }) }
        ensures closed { (timing : Timing) (rows : ℕ) (closed : List (List TimedSection)) (group : List TimedSection)
            → HasFrames timing rows closed group self.old → HasFrames timing rows (closed ++ frame_with group) [] self.new }
        ensures delivered { (timing : Timing) (rows : ℕ) (closed : List (List TimedSection)) (group : List TimedSection)
            → HasFrames timing rows closed group self.old
            → DeliversAfter T.StandsFor T.Refused service (datagrams_of_frames rows (frame_with group))
            (record { outlet = outlet.old; went = went }) (record { outlet = outlet.new; went = result }) }
    {
        if self.table.is_empty() {
            return went;
        }
        let rows = self.table.solve();
        let (datagrams, went) = deliver_frame(&self.table, service, went, outlet);
        count_frame(&mut self.counts, rows, datagrams);
        self.table.clear();
        self.membership.forget();
        went
    }
}
