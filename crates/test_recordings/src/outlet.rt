//! An outlet that notes whose datagrams come.
ghost use Rattle.std.specs.Prelude.{◌≡◌, ◌≤◌};

use crate::units::DATAGRAM;
use ipe_io::{Failed, Outlet};

/// An outlet of eight services that notes the service of each `units::DATAGRAM`, 16 at most, and refuses all from one call on.
#[derive(Drop)]
pub struct NotedOutlet {
    services: [u32; 16],
    count: usize,
    calls: usize,
    refuses_from: usize,
    faults: u64,
    ghost within: { count ≤ 16 },
}

impl NotedOutlet {
    /// Nothing was delivered. Calls are numbered from 1.
    pub fn new(refuses_from: usize) -> NotedOutlet {
        NotedOutlet {
            services: [0; 16],
            count: 0,
            calls: 0,
            refuses_from,
            faults: 0,
        }
    }

    /// The services, in the order of their datagrams.
    pub fn order(&self) -> &[u32] {
        &self.services[..self.count]
    }

    /// How many datagrams were offered.
    pub fn calls(&self) -> usize {
        self.calls
    }
}

impl Outlet for NotedOutlet {
    ghost use Rattle.std.specs.Prelude.{◌≡◌};

    ghost services = { λ _. 8 };

    ghost faults = { λ noted. noted.faults };

    ghost StandsFor = { λ _ _. Unit {0} };

    ghost Refused = { λ _ _ _. Unit {0} };

    fn deliver(&mut self, service: u32, datagram: &[u8]) -> Result<(), Failed> {
        self.calls = self.calls.saturating_add(1);
        if self.calls >= self.refuses_from {
            self.faults = self.faults.saturating_add(1);
            return Err(Failed);
        }
        if self.count < 16 && datagram == DATAGRAM.as_slice() {
            self.services[self.count] = service;
            self.count += 1;
        }
        Ok(())
    }
}
