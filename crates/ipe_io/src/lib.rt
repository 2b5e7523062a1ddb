//! The outside: where bytes and files come from and go to, in memory and for real, each with a count of faults.
//!
//! Sending: [Shelf, Source] -> capture -> datagrams -> packets -> [Sink].
//! Receiving: [Shelf, Source] -> records -> datagrams -> [Outlet] -> [Rack], report -> [Sink].
//! Begin with `Source` and `fill`, `Sink` and `put_all`, `Rack` and `put_file`.
#![tactic(auto)]

mod failing_calls;
mod faults;
mod file_rack;
mod file_shelf;
mod folder;
mod helpers;
mod mem_file;
mod mem_rack;
mod mem_shelf;
mod mem_sink;
mod mem_source;
mod outside;
mod rack_file;
mod shelved_file;
mod std_sink;
mod std_source;
mod write_behind;

pub use faults::{AddFault, Failed, LoadFault, RecordFault, Recording};
pub use file_rack::FileRack;
pub use file_shelf::FileShelf;
pub use folder::{Creates, Folder, Opens};
pub use helpers::{fill, put_all, put_file};
pub use mem_rack::MemRack;
pub use mem_shelf::MemShelf;
pub use mem_sink::MemSink;
pub use mem_source::MemSource;
pub use outside::{Outlet, Rack, Shelf, Sink, Source};
pub use std::alloc::AllocError as OutOfMemory;
pub use std_sink::StdSink;
pub use std_source::StdSource;
