//! What opens files for a shelf and creates them for a rack: the current folder.
ghost use Rattle.std.specs.Prelude.{◌≡◌, ℕ, Bool, true, List, [], Option, Some, IfOk};

use std::fs;
use std::io::{self, Read, Write};
use std::rt::Files;

/// What opens files by name. A shelf is proved over any.
pub trait Opens {
    /// What an opened file is read by.
    type Reader: Read + Drop;

    /// A file of that name may have these bytes where it is opened, told as its reader tells them.
    ghost Opened: { List ℕ → Option (List ℕ) → Type 0 };

    /// Opens the file of that name at its begin.
    fn open(&self, name: &str) -> io::Result<Self::Reader>
        ensures { IfOk result (λ reader. Opened name.now (Self.Reader.remaining reader)) };
}

/// What creates files by name. A rack is proved over any.
pub trait Creates {
    /// What a created file is written by.
    type Writer: Write + Drop;

    /// A file of that name may have these bytes where it is created, told as its writer tells them.
    ghost Created: { List ℕ → Option (List ℕ) → Type 0 };

    /// Whether the writers tell the bytes of their files.
    ghost tells: { Bool };

    /// Creates the file of that name, or empties it.
    fn create(&self, name: &str) -> io::Result<Self::Writer>
        ensures empty { tells ≡ true → IfOk result (λ writer. Self.Writer.contents writer ≡ Some []) }
        ensures created { IfOk result (λ writer. Created name.now (Self.Writer.contents writer)) };
}

/// The current folder. It tells nothing of its files: each call is one of the system.
#[derive(Drop)]
pub struct Folder<R: Files + Drop> {
    system: R,
}

impl<R: Files + Drop> Folder<R> {
    /// The current folder of this system.
    pub fn of(system: R) -> Folder<R> {
        Folder { system }
    }
}

impl<R: Files + Drop> Opens for Folder<R> {
    ghost use Rattle.std.specs.Prelude.{⊤};

    type Reader = R::File;

    ghost Opened = { λ name bytes. ⊤ };

    fn open(&self, name: &str) -> io::Result<R::File> {
        fs::open(&self.system, name)
    }
}

impl<R: Files + Drop> Creates for Folder<R> {
    ghost use Rattle.std.specs.Prelude.{⊤, false};

    type Writer = R::File;

    ghost Created = { λ name bytes. ⊤ };

    ghost tells = { false };

    fn create(&self, name: &str) -> io::Result<R::File> {
        fs::create(&self.system, name)
    }
}
