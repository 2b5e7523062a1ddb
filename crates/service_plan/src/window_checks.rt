//! The windows of sliced services.
ghost use Rattle.std.specs.Prelude.{◌≡◌, ◌≤◌, ◌+◌, ◌-◌, ◌*◌, ◌/◌, nat_lt, ◌||◌, option_map};
ghost use Rattle.std.specs.List.{list_any, filter_map};
ghost use Rattle.plan_spec.specs.Plan.{sliced_of};
ghost use Rattle.plan_spec.specs.Checks.{has_pair, overlaps as overlaps_other, is_wrong_window, is_too_short as is_short, is_too_long as is_long, leaves_cycle as leaves, has_wrong_window as has_bad_window, has_short_gap as has_small_gap, has_long_cycle as has_great_cycle, needs_stamps as needs_times, is_plain as is_plain_form};
ghost use Rattle.settings_spec.specs.Keys.{holds};
ghost use Rattle.plan.specs.Parts.{kind_seen, form_of};
ghost use Rattle.service_plan.specs.Plans.{draft_seen};
ghost use Rattle.service_plan.specs.Wholes.{has_slices, sliced_view, is_small_gap};

use crate::settings_draft::Draft;
use crate::unique_checks::after;
use ipe_io::Recording;
use plan::{Kind, Service};

/// A sliced service: its frames and its window.
#[derive(Clone, Copy)]
struct Sliced {
    rows: u16,
    parity: u8,
    start: u32,
    length: u32,
}

/// The frames and the window of a service, where it is sliced.
fn slices_of(kind: &Kind) -> Option<Sliced>
    ensures read { option_map sliced_view result ≡ sliced_of (kind_seen kind.now) }
{
    match kind {
        Kind::Fec {
            rows,
            parity,
            window: Some((start, length)),
            ..
        } => Some(Sliced {
            rows: *rows,
            parity: *parity,
            start: *start,
            length: *length,
        }),
        _ => None,
    }
}

/// The window begins within the INT, or ends after the cycle.
fn leaves_cycle(draft: &Draft, table_packets: u32, service: &Sliced) -> bool
    ensures read { result ≡ leaves table_packets (draft_seen draft.now) (sliced_view service.now) }
{
    let end = u64::from(service.start) + u64::from(service.length);
    service.start < table_packets || u64::from(draft.cycle) < end
}

/// The packets of a burst may not hold the section of a datagram and all parity sections.
fn is_too_short(service: &Sliced) -> bool
    ensures read { result ≡ is_short (sliced_view service.now) }
{
    let needed = 4096 + u64::from(service.parity) * (u64::from(service.rows) + 16);
    u64::from(service.length) * 183 < needed
}

/// A burst lasts longer than 5.12 seconds.
fn is_too_long(draft: &Draft, service: &Sliced) -> bool
    ensures read { result ≡ is_long (draft_seen draft.now) (sliced_view service.now) }
{
    let rate = draft.packet_rate;
    let length = service.length;
    5_120_000 * u64::from(rate) < u64::from(length) * 1_000_000
}

/// The window of a service is wrong by itself.
fn is_wrong(draft: &Draft, table_packets: u32, kind: &Kind) -> bool
    ensures read { result ≡ holds (is_wrong_window table_packets (draft_seen draft.now)) (sliced_of (kind_seen kind.now)) }
{
    match slices_of(kind) {
        Some(service) => {
            leaves_cycle(draft, table_packets, &service)
                || is_too_short(&service)
                || is_too_long(draft, &service)
        }
        None => false,
    }
}

/// A service has a slot in common with a window.
fn overlaps(window: &Sliced, kind: &Kind) -> bool
    ensures read { result ≡ holds (overlaps_other (sliced_view window.now)) (sliced_of (kind_seen kind.now)) }
{
    match slices_of(kind) {
        Some(service) => {
            let end = u64::from(window.start) + u64::from(window.length);
            let other_end = u64::from(service.start) + u64::from(service.length);
            u64::from(window.start) < other_end && u64::from(service.start) < end
        }
        None => false,
    }
}

/// One of the services has a slot in common with a window.
fn overlaps_any(window: &Sliced, services: &[Service]) -> bool
    ensures read { result ≡ list_any (λ s. holds (overlaps_other (sliced_view window.now)) (sliced_of (kind_seen s.kind))) services.now }
{
    services
        .iter()
        .any(|service| overlaps(window, &service.kind))
}

/// Two windows overlap.
fn has_overlap(services: &[Service]) -> bool
    ensures read { result ≡ has_pair overlaps_other (filter_map (λ s. sliced_of (kind_seen s.kind)) services.now) }
{
    for i in 0..services.len() {
        let service = &services[i];
        let window = match slices_of(&service.kind) {
            Some(window) => window,
            None => continue,
        };
        if overlaps_any(&window, after(services, i)) {
            return true;
        }
    }
    false
}

/// One of the windows is wrong by itself.
fn has_wrong(draft: &Draft, table_packets: u32, services: &[Service]) -> bool
    ensures read { result ≡ list_any (λ s. holds (is_wrong_window table_packets (draft_seen draft.now)) (sliced_of (kind_seen s.kind))) services.now }
{
    services
        .iter()
        .any(|service| is_wrong(draft, table_packets, &service.kind))
}

/// Window.
pub(crate) fn has_wrong_window(draft: &Draft, table_packets: u32) -> bool
    ensures read { result ≡ has_bad_window table_packets (draft_seen draft.now) }
{
    let services = draft.services.items();
    (draft.cycle <= table_packets)
        | (has_wrong(draft, table_packets, services) | has_overlap(services))
}

/// Fewer than 10 ms lie between two bursts of a service.
fn is_short_gap(draft: &Draft, kind: &Kind) -> bool
    requires { 1 ≤ draft.now.packet_rate }
    ensures read { result ≡ holds (is_small_gap (draft_seen draft.now)) (sliced_of (kind_seen kind.now)) }
{
    match slices_of(kind) {
        Some(service) => {
            let slots = draft.cycle.saturating_sub(service.length);
            u64::from(slots) * 1_000_000 / u64::from(draft.packet_rate) < 10_000
        }
        None => false,
    }
}

/// Fewer than 10 ms lie between two bursts of one of the services.
fn any_short_gap(draft: &Draft, services: &[Service]) -> bool
    requires { 1 ≤ draft.now.packet_rate }
    ensures read { result ≡ list_any (λ s. holds (is_small_gap (draft_seen draft.now)) (sliced_of (kind_seen s.kind))) services.now }
{
    services
        .iter()
        .any(|service| is_short_gap(draft, &service.kind))
}

/// Gap.
pub(crate) fn has_short_gap(draft: &Draft) -> bool
    requires { 1 ≤ draft.now.packet_rate }
    ensures read { result ≡ has_small_gap (draft_seen draft.now) }
{
    any_short_gap(draft, draft.services.items())
}

/// A service is sliced.
fn has_sliced(services: &[Service]) -> bool
    ensures read { result ≡ list_any (λ s. has_slices (kind_seen s.kind)) services.now }
{
    services
        .iter()
        .any(|service| slices_of(&service.kind).is_some())
}

/// A cycle lasts longer than delta_t can say.
fn is_long_cycle(draft: &Draft) -> bool
    requires { 1 ≤ draft.now.packet_rate }
    ensures read { result ≡ nat_lt 40959999 ((draft.now.cycle * 1000000 + draft.now.packet_rate - 1) / draft.now.packet_rate) }
{
    let rate = u64::from(draft.packet_rate);
    (u64::from(draft.cycle) * 1_000_000 + rate - 1) / rate > 40_959_999
}

/// Delta.
pub(crate) fn has_long_cycle(draft: &Draft) -> bool
    requires { 1 ≤ draft.now.packet_rate }
    ensures read { result ≡ has_great_cycle (draft_seen draft.now) }
{
    has_sliced(draft.services.items()) & is_long_cycle(draft)
}

/// NeedsStamps: a sliced service in a recording without time stamps.
pub(crate) fn needs_stamps(draft: &Draft) -> bool
    ensures read { result ≡ needs_times (draft_seen draft.now) }
{
    has_sliced(draft.services.items()) & is_plain(draft.recording)
}

/// Whether a recording has no time stamps.
pub(crate) fn is_plain(recording: Recording) -> bool
    ensures read { result ≡ is_plain_form (form_of recording) }
{
    match recording {
        Recording::Plain => true,
        Recording::Stamped => false,
        Recording::M2ts => false,
    }
}
