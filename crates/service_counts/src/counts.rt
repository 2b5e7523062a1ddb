//! The 13 numbers of one service, whatever the kind of its units.
ghost use Rattle.std.specs.Prelude.{◌≡◌};
ghost use Rattle.service_counts.specs.Sums.{raised_counts};

/// What was counted of one service. A kind of service that has no such packets, units or frames leaves the number 0.
#[derive(Clone, Copy, Debug, Default, PartialEq, Eq)]
pub struct ServiceCounts {
    /// Packets of the service's PID, or frames of its ISI; duplicates are not counted.
    pub heard: u64,
    /// Duplicate packets.
    pub repeats: u64,
    /// Discontinuities: packets that do not continue the one before.
    pub gaps: u64,
    /// Whole units: sections, SNDUs or PDUs.
    pub units: u64,
    /// Units with a wrong check sum.
    pub bad_check: u64,
    /// Units lost to a delimiting error, or fragments of PDUs without their start or after their time.
    pub delimited: u64,
    /// Units whose length can't be, and refused GSE packets.
    pub bad_length: u64,
    /// Units that carry no datagram or column, wanted or not.
    pub unread: u64,
    /// Units that carry a datagram that the service does not want.
    pub filtered: u64,
    /// MPE-FEC frames that are closed.
    pub frames: u64,
    /// Rows of them that lacked application data and were corrected.
    pub rows_mended: u64,
    /// Rows of them that lacked it and were not.
    pub rows_left: u64,
    /// Datagrams that were delivered.
    pub datagrams: u64,
}

impl ServiceCounts {
    /// Both together. Each number stands still at the last value of a u64.
    pub fn sum(&self, other: &ServiceCounts) -> ServiceCounts
        ensures summed { result ≡ raised_counts self.now other.now }
    {
        ServiceCounts {
            heard: self.heard.saturating_add(other.heard),
            repeats: self.repeats.saturating_add(other.repeats),
            gaps: self.gaps.saturating_add(other.gaps),
            units: self.units.saturating_add(other.units),
            bad_check: self.bad_check.saturating_add(other.bad_check),
            delimited: self.delimited.saturating_add(other.delimited),
            bad_length: self.bad_length.saturating_add(other.bad_length),
            unread: self.unread.saturating_add(other.unread),
            filtered: self.filtered.saturating_add(other.filtered),
            frames: self.frames.saturating_add(other.frames),
            rows_mended: self.rows_mended.saturating_add(other.rows_mended),
            rows_left: self.rows_left.saturating_add(other.rows_left),
            datagrams: self.datagrams.saturating_add(other.datagrams),
        }
    }
}
