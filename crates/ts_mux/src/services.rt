//! The services on their way: one packet of the next of them in rotation that has packets left, or one of the burst whose window is open.
ghost use Rattle.std.specs.Prelude.{◌≡◌, ℕ, ◌+◌, ◌-◌, ◌%◌, ◌<◌, ◌≤◌, [], ◌∷◌, ◌++◌, true, map, length, get_or, find, nat_lt, is_some, if◌then◌else◌, IfOk, OnOk};
ghost use Rattle.std.specs.List.{range_with_len, list_any};
ghost use Rattle.plan_spec.specs.Plan.{sliced_of};
ghost use Rattle.plan_spec.specs.Changes.{pid_in as pid_in_version};
ghost use Rattle.plan.specs.PlanView.{plan_fields};
ghost use Rattle.stream_spec.specs.Services.{kind_at};
ghost use Rattle.stream_spec.specs.Stream.{shares_pid, schedule_of};
ghost use Rattle.stream_spec.specs.Windows.{windows_from, windows_of as windows_in_plan};
ghost use Rattle.plan.specs.Parts.{kind_seen};
ghost use Rattle.time_slice.specs.Views.{windows_in};
ghost use Rattle.ts_mux.specs.Services.{packets_in, behind_in, turns_in_service, shape_in, shape_of, has_packets, frames_before, listed, AreLists, HasServices, GoesBy, BeginsIn};

use crate::part_units::PartUnits;
use crate::service_packets::{ServicePackets, Times};
use datagram_routing::Lists;
use plan::{Kind, Plan, Service, pid_in};
use std::alloc::{AllocError as OutOfMemory, Global};
use std::marker::Model;
use time_slice::{Window, Windows};

/// The services of a plan on their way; contracts see what each has left, the windows, and which service is asked first.
#[derive(Drop)]
pub(crate) struct Services<'a> {
    services: Vec<ServicePackets<'a>>,
    /// The windows of those that are sliced.
    windows: Vec<Window>,
    /// The service after the one served last in rotation.
    first: usize,
}

impl<'a> Model for Services<'a> {
    ghost use Rattle.std.specs.Prelude.{◌≤◌, length};
    ghost use Rattle.time_slice.specs.Views.{windows_in};
    ghost use Rattle.ts_mux.specs.Services.{Serving, serving_of};

    ghost Value = { Serving };

    ghost view = { λ s. serving_of s.services.items (windows_in s.windows.items) s.first };

    ghost invariant = { λ s. s.first ≤ length s.services.items };
}

/// The first of the services from one on, and before another, that has packets left in rotation.
fn find_from(services: &[ServicePackets<'_>], from: usize, to: usize) -> Option<usize>
    requires { to ≤ length services.now }
    ensures { result ≡ find (has_packets (map turns_in_service services.now)) (range_with_len from (to - from)) }
{
    for k in from..to {
        if services[k].has_turn() {
            return Some(k);
        }
    }
    None
}

/// Whether a service has datagrams in a version after this one.
fn goes_on(lists: &Lists, version: u8, k: u32) -> bool
    requires versions { length lists.now ≤ 32 }
    requires service { (later : ℕ) → later < length lists.now → k < length (get_or lists.now later []) }
    ensures read { result ≡ list_any (λ later. nat_lt 0 (length (listed lists.now later k))) (range_with_len (version + 1) (length lists.now - (version + 1))) }
{
    for later in usize::from(version) + 1..lists.versions() {
        if lists.at(later as u8, k).len() > 0 {
            return true;
        }
    }
    false
}

/// When the bursts of a service go out in the part of a version, before which so many slots of the stream stand.
fn times_of(plan: &Plan, version: u8, k: u32, lists: &Lists, before: u64) -> Times
    requires version { version ≤ length plan.now.changes }
    requires service { k < length plan.now.services }
    requires lists { HasServices (plan_fields plan.now) lists.now }
    ensures goes { is_some (sliced_of (kind_at (plan_fields plan.now) k)) ≡ true → GoesBy result (schedule_of (plan_fields plan.now) (listed lists.now) before k version) }
    ensures plan { (result.recording ≡ plan.now.recording) × (result.packet_rate ≡ plan.now.packet_rate) × (result.cycle ≡ plan.now.cycle) }
{
    Times {
        recording: plan.recording,
        packet_rate: plan.packet_rate,
        cycle: plan.cycle,
        before,
        goes_on: goes_on(lists, version, k),
    }
}

/// The packets of a service in the part of version 0.
fn packets_of<'a>(
    alloc: Global,
    plan: &'a Plan,
    k: usize,
    lists: &'a Lists,
    units: &'a PartUnits,
) -> Result<ServicePackets<'a>, OutOfMemory>
    requires service { k < length plan.now.services }
    requires all { HasServices (plan_fields plan.now) lists.now }
    requires lists { AreLists (plan_fields plan.now) (frames_before (plan_fields plan.now) lists.now 0) (get_or lists.now 0 []) units.now.units }
    ensures begun { IfOk result (BeginsIn (plan_fields plan.now) 0 k lists.now 0 0) }
{
    let Some(pid) = pid_in(plan, 0, k as u32) else {
        unreachable!();
    };
    let times = times_of(plan, 0, k as u32, lists, 0);
    ServicePackets::new(
        alloc,
        plan.services.at(k),
        lists.at(0, k as u32),
        units.units_at(k),
        pid,
        0,
        times,
    )
}

/// Begins the packets of a service in the part of a version, before which so many slots of the stream stand, with counters from this one
/// on.
fn restart<'a>(
    service: &mut ServicePackets<'a>,
    plan: &'a Plan,
    version: u8,
    k: usize,
    lists: &'a Lists,
    units: &'a PartUnits,
    counter: u8,
    before: u64,
)
    requires version { version ≤ length plan.now.changes }
    requires service { k < length plan.now.services }
    requires all { HasServices (plan_fields plan.now) lists.now }
    requires lists { AreLists (plan_fields plan.now) (frames_before (plan_fields plan.now) lists.now version) (get_or lists.now version []) units.now.units }
    requires shape { shape_in service.old ≡ shape_of (kind_at (plan_fields plan.now) k) }
    requires counter { counter ≤ 15 }
    ensures begun { BeginsIn (plan_fields plan.now) version k lists.now counter before service.new }
{
    let Some(pid) = pid_in(plan, version, k as u32) else {
        unreachable!();
    };
    let times = times_of(plan, version, k as u32, lists, before);
    service.restart(
        plan.services.at(k),
        lists.at(version, k as u32),
        units.units_at(k),
        pid,
        counter,
        times,
    );
}

/// Adds the window of a service, where it is sliced.
fn put_window(windows: &mut Vec<Window>, service: &Service, k: u32) -> Result<(), OutOfMemory>
    ensures added { OnOk result (windows_in windows.new.items ≡ windows_in windows.old.items ++ windows_from k (kind_seen service.now.kind ∷ [])) }
{
    match service.kind {
        Kind::Fec {
            window: Some((start, length)),
            ..
        } => {
            windows.push(Window {
                service: k,
                start,
                length,
            })?;
            Ok(())
        }
        _ => Ok(()),
    }
}

/// The windows of the services that are sliced.
fn windows_of(alloc: Global, plan: &Plan) -> Result<Vec<Window>, OutOfMemory>
    ensures read { IfOk result (λ windows. windows_in windows.items ≡ windows_in_plan (plan_fields plan.now)) }
{
    let mut windows = Vec::new(alloc);
    for k in 0..plan.services.len() {
        put_window(&mut windows, plan.services.at(k), k as u32)?;
    }
    Ok(windows)
}

/// Whether a service has the PID in a version above 0 that it has in the one before.
fn keeps_pid(plan: &Plan, version: u8, k: usize) -> bool
    requires version { (0 < version) × (version ≤ length plan.now.changes) }
    requires service { k < length plan.now.services }
    ensures { result ≡ shares_pid (pid_in_version (plan_fields plan.now) version k) (pid_in_version (plan_fields plan.now) (version - 1) k) }
{
    match pid_in(plan, version, k as u32) {
        Some(pid) => pid_in(plan, version - 1, k as u32) == Some(pid),
        None => false,
    }
}

/// The counter with which a service begins a version above 0, where all its packets of the one before it are out.
fn counter_of(plan: &Plan, version: u8, k: usize, service: &ServicePackets<'_>) -> u8
    requires version { (0 < version) × (version ≤ length plan.now.changes) }
    requires service { k < length plan.now.services }
    requires out { packets_in service.now ≡ [] }
    ensures read { result
        ≡ (if shares_pid (pid_in_version (plan_fields plan.now) version k) (pid_in_version (plan_fields plan.now) (version - 1) k) then behind_in service.now else 0) }
    ensures below { result ≤ 15 }
{
    if keeps_pid(plan, version, k) {
        service.counter()
    } else {
        0
    }
}

impl<'a> Services<'a> {
    ghost use Rattle.std.specs.Prelude.{◌≡◌, ℕ, zero, ◌+◌, ◌%◌, ◌<◌, ◌≤◌, ◌^◌, [], length, get_or, nat_lt, is_some, Some, IfOk};
    ghost use Rattle.plan.specs.PlanView.{plan_fields};
    ghost use Rattle.slice_spec.specs.Windows.{AreApart, owner_of};
    ghost use Rattle.stream_spec.specs.Parts.{PartFields};
    ghost use Rattle.stream_spec.specs.Windows.{windows_of as windows_in_plan};
    ghost use Rattle.ts_mux.specs.Services.{packet_total, burst_total, left_in, bursts_of, turn_of, burst_of, opened_at, with_opened, TakesTurn, GivesBurst, AreLists, HasServices, HasLists, Begins, shapes_of, counter_at, frames_before};

    /// The services of a plan before the first slot of version 0.
    pub(crate) fn new(
        alloc: Global,
        plan: &'a Plan,
        lists: &'a Lists,
        units: &'a PartUnits,
    ) -> Result<Services<'a>, OutOfMemory>
        requires all { HasServices (plan_fields plan.now) lists.now }
        requires lists { AreLists (plan_fields plan.now) (frames_before (plan_fields plan.now) lists.now 0) (get_or lists.now 0 []) units.now.units }
        ensures begun { IfOk result (λ s. (part : PartFields) → HasLists (plan_fields plan.now) 0 lists.now (λ k. 0) 0 part → Begins part s) }
        ensures most { IfOk result (λ s. packet_total s.turns ≤ 2 ^ 54) }
    {
        let mut services = Vec::new(alloc);
        for k in 0..plan.services.len() {
            let packets = packets_of(alloc, plan, k, lists, units)?;
            services.push(packets)?;
        }
        let windows = windows_of(alloc, plan)?;
        Ok(Services {
            services,
            windows,
            first: 0,
        })
    }

    /// Begins the part of a version above 0, where all packets of the one before it are out. So many slots of the stream stand before it.
    /// The counter of a PID goes on where its service keeps it, and is 0 where the service moves: none takes a PID again that it left.
    pub(crate) fn begin(
        &mut self,
        plan: &'a Plan,
        version: u8,
        lists: &'a Lists,
        units: &'a PartUnits,
        before: u64,
    )
        requires version { (0 < version) × (version ≤ length plan.now.changes) }
        requires all { HasServices (plan_fields plan.now) lists.now }
        requires lists { AreLists (plan_fields plan.now) (frames_before (plan_fields plan.now) lists.now version) (get_or lists.now version []) units.now.units }
        requires size { length self.old.bursts ≡ length plan.now.services }
        requires shapes { self.old.shapes ≡ shapes_of (plan_fields plan.now) }
        requires windows { self.old.windows ≡ windows_in_plan (plan_fields plan.now) }
        requires out { left_in self.old ≡ 0 }
        ensures begun { (part : PartFields)
            → HasLists (plan_fields plan.now) version lists.now (counter_at (plan_fields plan.now) version self.old.behind) before part → Begins part self.new }
        ensures most { packet_total self.new.turns ≤ 2 ^ 54 }
    {
        for k in 0..self.services.len() {
            let counter = counter_of(plan, version, k, &self.services[k]);
            restart(
                &mut self.services[k],
                plan,
                version,
                k,
                lists,
                units,
                counter,
                before,
            );
        }
        self.first = 0;
    }

    /// The service whose turn it is; None where no packets are left in rotation.
    pub(crate) fn turn(&self) -> Option<usize>
        ensures read { result ≡ turn_of self.now }
        ensures left { nat_lt 0 (packet_total self.now.turns) ≡ is_some result }
    {
        match find_from(&self.services, self.first, self.services.len()) {
            Some(k) => Some(k),
            None => find_from(&self.services, 0, self.first),
        }
    }

    /// Whether packets are left in bursts.
    fn has_bursts(&self) -> bool
        ensures read { result ≡ nat_lt 0 (burst_total self.now.bursts) }
    {
        for k in 0..self.services.len() {
            if self.services[k].has_bursts() {
                return true;
            }
        }
        false
    }

    /// Whether packets are left, in rotation or in bursts; `turn` is the service whose turn it is.
    pub(crate) fn has_packets(&self, turn: Option<usize>) -> bool
        requires turn { nat_lt 0 (packet_total self.now.turns) ≡ is_some turn }
        ensures read { result ≡ nat_lt 0 (left_in self.now) }
    {
        turn.is_some() || self.has_bursts()
    }

    /// Writes the next packet of the service whose turn it is.
    pub(crate) fn next(&mut self, turn: usize, into: &mut [u8; 188])
        requires turn { turn_of self.old ≡ Some turn }
        ensures next { TakesTurn self.old self.new into.new }
    {
        self.services[turn].next(into);
        self.first = turn + 1;
    }

    /// Opens the window of a service, where the slot is the first of it.
    fn open(&mut self, k: usize, place: u32)
        requires known { k < length self.old.bursts }
        requires closed { place ≡ 0 → (bursts_of self.old.bursts k).under_way ≡ 0 }
        ensures opened { self.new ≡ record self.old { bursts = opened_at self.old.bursts k place } }
    {
        if place == 0 {
            self.services[k].open();
        }
    }

    /// Opens the window that begins in this slot of the stream, and answers the service whose burst has a packet for the slot.
    ///
    /// It is called for each slot that is none of the INT's. Without windows nothing is divided, since division is slow.
    pub(crate) fn burst(&mut self, cycle: u32, slot: u64) -> Option<usize>
        requires cycle { 0 < cycle }
        requires apart { AreApart self.old.windows }
        requires known { (k n : ℕ) → owner_of self.old.windows (slot % cycle) ≡ Some (k, n) → k < length self.old.bursts }
        requires closed { (k : ℕ) → owner_of self.old.windows (slot % cycle) ≡ Some (k, zero) → (bursts_of self.old.bursts k).under_way ≡ 0 }
        ensures opened { self.new ≡ with_opened (slot % cycle) self.old }
        ensures read { result ≡ burst_of (slot % cycle) self.new }
    {
        if self.windows.is_empty() {
            return None;
        }
        let offset = (slot % u64::from(cycle)) as u32;
        let Some((service, place)) = Windows::over(&self.windows).owner(offset) else {
            return None;
        };
        let k = service as usize;
        self.open(k, place);
        if self.services[k].in_burst() {
            Some(k)
        } else {
            None
        }
    }

    /// Writes the next packet of the burst of a service whose window is open.
    pub(crate) fn give(&mut self, k: usize, into: &mut [u8; 188])
        requires some { 0 < (bursts_of self.old.bursts k).under_way }
        ensures given { GivesBurst self.old self.new k into.new }
    {
        self.services[k].give(into);
    }
}
