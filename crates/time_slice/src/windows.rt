//! Windows: the slots of each cycle that sliced services have. A slot comes in, and its service and place go out.
ghost use Rattle.std.specs.Prelude.{◌≡◌};
ghost use Rattle.slice_spec.specs.Windows.{AreApart, owner_of};
ghost use Rattle.time_slice.specs.Views.{windows_in};

use std::marker::Model;

/// The window of a service, by its number: `length` slots of each cycle, from slot `start` on.
#[derive(Clone, Copy, Debug, PartialEq, Eq)]
pub struct Window {
    pub service: u32,
    pub start: u32,
    pub length: u32,
}

/// Windows of which no two have a slot in common, as a list.
#[derive(Drop)]
pub struct Windows<'a> {
    list: &'a [Window],
}

impl<'a> Model for Windows<'a> {
    ghost use Rattle.std.specs.Prelude.{List};
    ghost use Rattle.slice_spec.specs.Windows.{OwnedWindow, AreApart};
    ghost use Rattle.time_slice.specs.Views.{windows_in};

    ghost Value = { List OwnedWindow };

    ghost view = { λ w. windows_in w.list.now };

    ghost invariant = { λ w. AreApart (windows_in w.list.now) };
}

impl<'a> Windows<'a> {
    /// The windows of a list. They may touch.
    pub fn over(list: &'a [Window]) -> Windows<'a>
        requires apart { AreApart (windows_in list.now) }
        ensures windows { result ≡ windows_in list.now }
    {
        Windows { list }
    }

    /// The service whose window has this slot of the cycle, and the place of the slot in the window, from 0: the number of the packet
    /// of the service's burst that goes out there.
    pub fn owner(&self, offset: u32) -> Option<(u32, u32)>
        ensures owner { result ≡ owner_of self.now offset }
    {
        for window in self.list {
            if offset >= window.start && offset - window.start < window.length {
                return Some((window.service, offset - window.start));
            }
        }
        None
    }
}
