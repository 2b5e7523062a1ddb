//! An outlet that counts: the datagrams of the two services of a sample in, their numbers out.
ghost use Rattle.std.specs.Prelude.{[]};
ghost use Rattle.sample_command.specs.Counting.{StandsFor as Stands};

use ipe_io::{Failed, Outlet};

/// How many datagrams the services delivered, by counters that stand still at their last value.
#[derive(Clone, Copy, Debug, PartialEq, Eq)]
pub(crate) struct Delivered {
    /// Of service 0.
    pub(crate) lecture: u64,
    /// Of service 1.
    pub(crate) files: u64,
}

impl Delivered {
    /// Nothing was delivered.
    pub(crate) fn new() -> Delivered
        ensures { Stands result [] }
    {
        Delivered {
            lecture: 0,
            files: 0,
        }
    }
}

// It never fails.
impl Outlet for Delivered {
    ghost use Rattle.sample_command.specs.Counting.{StandsFor as Stands};

    ghost services = { λ _. 2 };

    ghost faults = { λ _. 0 };

    ghost StandsFor = { λ delivered pairs. Stands delivered pairs };

    ghost Refused = { λ _ _ _. ⊥ };

    fn deliver(&mut self, service: u32, _datagram: &[u8]) -> Result<(), Failed> {
        if service == 0 {
            self.lecture = self.lecture.saturating_add(1);
        } else {
            self.files = self.files.saturating_add(1);
        }
        Ok(())
    }
}
