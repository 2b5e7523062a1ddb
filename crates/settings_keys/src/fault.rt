//! Why settings give no plan.

use crate::key::Key;

/// The check that fails, the first in the order of the checks.
#[derive(Clone, Copy, Debug, PartialEq, Eq)]
pub enum PlanFault {
    /// 1: the bytes are no TOML document in UTF-8.
    Text,
    /// 2: a table lacks this key.
    Missing(Key),
    /// 3: the value of this key has another type.
    Type_(Key),
    /// 4: the value of this key is out of its range.
    Range(Key),
    /// 5: two PIDs are equal, the INT's among them, or two ISIs.
    SamePid,
    /// 6: two names are equal.
    SameName,
    /// 7: a rule is none, a service has none, or all together have more than 128.
    Rules,
    /// 8: a window is too short or too long, overlaps another or the INT, or leaves the cycle.
    Window,
    /// 9: fewer than 10 ms from a burst to the next of its service.
    Gap,
    /// 10: a cycle with bursts lasts longer than 40,959,999 microseconds.
    Delta,
    /// 11: a sliced service in a recording without time stamps.
    NeedsStamps,
    /// 12: what the carrier cannot carry.
    Carrier,
    /// 13: a table has a key that it does not know.
    Unknown,
    /// 14: changes are not in order, one moves a service that is not there or one twice, or a PID is another's or one that was left.
    Change,
}
