//! The receiver of one service: its PID, the reception of its units there by their kind, and what was counted on PIDs before.
ghost use Rattle.std.specs.Prelude.{◌≡◌, ℕ, ◌<◌, true, false, List, [], ◌∷◌, ◌++◌, Option, Some, is_some, IfOk, OnOk, OnErr};
ghost use Rattle.wire_spec.specs.Causes.{HasCause};
ghost use Rattle.ts_spec.specs.Recording.{RecordingForm, Record};
ghost use Rattle.section_spec.specs.Mpe.{IsRows};
ghost use Rattle.slice_spec.specs.Moments.{ten};
ghost use Rattle.plan_spec.specs.Plan.{ServiceFields, WindowFields, fec, pid_of};
ghost use Rattle.plan.specs.Parts.{form_of, kind_seen};
ghost use Rattle.reception_law.specs.Words.{added_by, closed_by};
ghost use Rattle.service_reception.specs.Reception.{packet_record};
ghost use Rattle.outlet_spec.specs.Pairs.{pairs_of, Delivers, DeliversFront};
ghost use Rattle.service_counts.specs.Sums.{raised_counts};
ghost use Rattle.service_reception.specs.Services.{IsUle, IsMpe};
ghost use Rattle.outlet_spec.specs.Going.{DeliversAfter, GoesOn};
ghost use Rattle.demux_core.specs.Contents.{IsRead};
ghost use Rattle.demux_core.specs.Services.{ReadsKind, IsReception, IsReceivingOne, IsEndingOne, IsFresh, counts_in};
ghost use Rattle.demux_core.specs.Opening.{IsOpened, has_right_rows};
ghost use Rattle.demux_core.specs.Moving.{Closes};

use addr_rules::MacList;
use bumpalo::Bump;
use byte_slices::zeros;
use fec_frame::Table;
use fec_reception::FecReception;
use ipe_io::{Failed, OutOfMemory, Outlet, Recording};
use plan::{Kind, ten_milliseconds};
use section_codec::SectionForm;
use service_counts::ServiceCounts;
use service_reception::Reception;
use ts_packet::Packet;
use ule_unit::UleForm;
use unit_stream::UnitForm;

/// A reception, by the kind of its units. Its buffers lie in the arena.
#[derive(Drop)]
pub(crate) enum ByKind<'a> {
    /// Of SNDUs.
    Ule(Reception<UleForm, &'a Bump>),
    /// Of datagram_sections.
    Mpe(Reception<SectionForm, &'a Bump>),
    /// Of the sections of MPE-FEC frames.
    Fec(FecReception<&'a Bump>),
}

/// The receiver of one service.
#[derive(Drop)]
pub(crate) struct ServiceReceiver<'a> {
    /// The PID that it has now.
    pub(crate) pid: u16,
    /// What is received on it.
    pub(crate) reception: ByKind<'a>,
    /// What was counted on all PIDs before.
    pub(crate) before: ServiceCounts,
}

/// A reception of SNDUs that was given nothing.
fn ule_reception(arena: &Bump) -> Result<ByKind<'_>, OutOfMemory>
    ensures received { IfOk result (λ reception. (form : RecordingForm) (it : ServiceFields) → IsUle it.kind → IsFresh form it reception) }
{
    let buffer = zeros(arena, UleForm::LONGEST)?;
    Ok(ByKind::Ule(Reception::over(buffer)))
}

/// A reception of datagram_sections that was given nothing.
fn mpe_reception(arena: &Bump) -> Result<ByKind<'_>, OutOfMemory>
    ensures received { IfOk result (λ reception. (form : RecordingForm) (it : ServiceFields) → IsMpe it.kind → IsFresh form it reception) }
{
    let buffer = zeros(arena, SectionForm::LONGEST)?;
    Ok(ByKind::Mpe(Reception::over(buffer)))
}

/// A reception of frames with so many rows, with time slicing (`sliced`) or without, that was given nothing. The table of the frame under
/// way has 255 bytes and as many marks for each row, and 65 bytes of work.
fn fec_reception(
    arena: &Bump,
    rows: u16,
    sliced: bool,
    recording: Recording,
) -> Result<ByKind<'_>, OutOfMemory>
    requires rows { IsRows rows }
    ensures received { IfOk result (λ reception. (it : ServiceFields) (pid parity : ℕ) (window : Option WindowFields) → it.kind ≡ fec pid rows parity window → is_some window ≡ sliced
        → IsFresh (form_of recording) it reception) }
{
    let count = usize::from(rows);
    let bytes = zeros(arena, 255 * count)?;
    let marks = zeros(arena, 255 * count)?;
    let work = zeros(arena, 65 * count)?;
    let buffer = zeros(arena, SectionForm::LONGEST)?;
    let table = Table::over(rows, bytes, marks, work);
    let ten = u64::from(ten_milliseconds(recording));
    Ok(ByKind::Fec(FecReception::over(buffer, table, sliced, ten)))
}

impl<'a> ByKind<'a> {
    /// Begins again: nothing was received.
    fn begin_anew(&mut self)
        ensures fresh { (form : RecordingForm) (it : ServiceFields) → ReadsKind form self.old it.kind → IsFresh form it self.new }
    {
        match self {
            ByKind::Ule(reception) => reception.begin_anew(),
            ByKind::Mpe(reception) => reception.begin_anew(),
            ByKind::Fec(reception) => reception.begin_anew(),
        }
    }

    /// Closes the frame under way, where there is one, and delivers its datagrams where none was refused before.
    fn close<T: Outlet>(
        &mut self,
        service: u32,
        went: Result<(), Failed>,
        outlet: &mut T,
    ) -> Result<(), Failed>
        requires served { service < T.services outlet.old }
        ensures closed { Closes self.old self.new }
        ensures delivered { (form : RecordingForm) (it : ServiceFields) (records : List Record) → IsEndingOne form it self.old records
            → DeliversAfter T.StandsFor T.Refused service (closed_by form it records) (record { outlet = outlet.old; went = went }) (record { outlet = outlet.new; went = result }) }
        ensures goes { GoesOn T.services T.faults (record { outlet = outlet.old; went = went }) (record { outlet = outlet.new; went = result }) }
    {
        match self {
            ByKind::Ule(_) => went,
            ByKind::Mpe(_) => went,
            ByKind::Fec(reception) => reception.close_after(service, went, outlet),
        }
    }

    /// The numbers of all that was taken since it began.
    fn counts(&self) -> ServiceCounts
        ensures read { result ≡ counts_in self.now }
    {
        match self {
            ByKind::Ule(reception) => reception.counts(),
            ByKind::Mpe(reception) => reception.counts(),
            ByKind::Fec(reception) => reception.counts(),
        }
    }
}

/// A receiver on its first PID.
fn first_receiver(pid: u16, reception: ByKind<'_>) -> ServiceReceiver<'_>
    ensures opened { (form : RecordingForm) (it : ServiceFields) → pid_of it.kind ≡ Some pid → IsFresh form it reception.entry → IsOpened form it result }
{
    ServiceReceiver {
        pid,
        reception,
        before: ServiceCounts::default(),
    }
}

impl<'a> ServiceReceiver<'a> {
    /// The receiver of a service that was given nothing of a recording.
    pub(crate) fn open(
        arena: &'a Bump,
        kind: &Kind,
        recording: Recording,
    ) -> Result<ServiceReceiver<'a>, OutOfMemory>
        requires on_pid { is_some (pid_of (kind_seen kind.now)) ≡ true }
        requires rows { has_right_rows (kind_seen kind.now) ≡ true }
        ensures opened { IfOk result (λ receiver. (it : ServiceFields) → it.kind ≡ kind_seen kind.now → IsOpened (form_of recording) it receiver) }
    {
        match *kind {
            Kind::Ule { pid, .. } => Ok(first_receiver(pid, ule_reception(arena)?)),
            Kind::Mpe { pid } => Ok(first_receiver(pid, mpe_reception(arena)?)),
            Kind::Fec {
                pid,
                rows,
                window,
                ..
            } => {
                let reception = fec_reception(arena, rows, window.is_some(), recording)?;
                Ok(first_receiver(pid, reception))
            }
            Kind::Gse { .. } => unreachable!(),
        }
    }

    /// Takes one packet of the service's PID, and delivers what ends in it.
    pub(crate) fn take<T: Outlet>(
        &mut self,
        bytes: &[u8; 188],
        packet: &Packet<'_>,
        moment: u64,
        filter: &MacList,
        service: u32,
        outlet: &mut T,
    ) -> Result<(), Failed>
        requires read { IsRead packet.now bytes.now }
        requires served { service < T.services outlet.old }
        ensures received { (form : RecordingForm) (it : ServiceFields) (records : List Record) → IsReceivingOne form filter.now packet.now.pid it self.old records
            → IsReception false form it self.new.reception (records ++ packet_record moment bytes.now ∷ []) }
        ensures delivered { (form : RecordingForm) (it : ServiceFields) (records : List Record) → IsReceivingOne form filter.now packet.now.pid it self.old records
            → OnOk result (Delivers (T.StandsFor outlet.old) (T.StandsFor outlet.new) (pairs_of service (added_by form it records (packet_record moment bytes.now)))) }
        ensures failed { (form : RecordingForm) (it : ServiceFields) (records : List Record) → IsReceivingOne form filter.now packet.now.pid it self.old records
            → OnErr result (DeliversFront (T.StandsFor outlet.old) (T.StandsFor outlet.new) (T.Refused outlet.new) (pairs_of service (added_by form it records (packet_record moment bytes.now)))) }
        ensures pid { self.new.pid ≡ self.old.pid }
        ensures before { self.new.before ≡ self.old.before }
        ensures services { T.services outlet.new ≡ T.services outlet.old }
        ensures cause { HasCause (T.faults outlet.old) (T.faults outlet.new) result }
    {
        match &mut self.reception {
            ByKind::Ule(reception) => {
                reception.take(bytes, packet, moment, filter, service, outlet)
            }
            ByKind::Mpe(reception) => {
                reception.take(bytes, packet, moment, filter, service, outlet)
            }
            ByKind::Fec(reception) => reception.take(bytes, packet, moment, service, outlet),
        }
    }

    /// Closes the frame under way: no more packets of the PID come. Its datagrams are delivered where none was refused before.
    pub(crate) fn close<T: Outlet>(
        &mut self,
        service: u32,
        went: Result<(), Failed>,
        outlet: &mut T,
    ) -> Result<(), Failed>
        requires served { service < T.services outlet.old }
        ensures closed { Closes self.old.reception self.new.reception }
        ensures delivered { (form : RecordingForm) (it : ServiceFields) (records : List Record) → IsEndingOne form it self.old.reception records
            → DeliversAfter T.StandsFor T.Refused service (closed_by form it records) (record { outlet = outlet.old; went = went }) (record { outlet = outlet.new; went = result }) }
        ensures goes { GoesOn T.services T.faults (record { outlet = outlet.old; went = went }) (record { outlet = outlet.new; went = result }) }
        ensures pid { self.new.pid ≡ self.old.pid }
        ensures before { self.new.before ≡ self.old.before }
    {
        self.reception.close(service, went, outlet)
    }

    /// Goes on to another PID. What was counted stays; a unit under way is dropped, and so is a frame: `close` comes before it.
    pub(crate) fn move_to(&mut self, pid: u16)
        ensures pid { self.new.pid ≡ pid }
        ensures fresh { (form : RecordingForm) (it : ServiceFields) → ReadsKind form self.old.reception it.kind → IsFresh form it self.new.reception }
        ensures counts { self.new.before ≡ raised_counts self.old.before (counts_in self.old.reception) }
    {
        self.before = self.counts();
        self.reception.begin_anew();
        self.pid = pid;
    }

    /// The numbers of all that was taken, on this PID and on those before.
    pub(crate) fn counts(&self) -> ServiceCounts
        ensures read { result ≡ raised_counts self.now.before (counts_in self.now.reception) }
    {
        self.before.sum(&self.reception.counts())
    }
}
