//! What is sent, damaged on its way, and received: an INT, a lecture in sections and files in SNDUs.
use crate::datagrams::capture_of_list;
use crate::received::Service;
use crate::settings_words::settings_of;
use scenario_runs::sent;
use std::alloc::Global;
use std::test::Fail;

/// The settings, as words.
pub const SETTINGS: &str = "INT LECTURE FILES";

const LECTURE: &str = "239.1.0.0:150 239.1.0.1:350 239.1.0.2:100";

const FILES: &str = "239.2.0.0:169 239.2.0.1:100 239.2.0.2:100 239.2.0.3:308 239.2.0.4:353
239.2.0.5:353 239.2.0.6:353 239.2.0.7:353 239.2.0.8:353 239.2.0.9:353 239.2.0.10:353 239.2.0.11:353 239.2.0.12:353 239.2.0.13:353";

pub const SERVICES: [Service; 2] = [("lecture", LECTURE), ("files", FILES)];

/// The capture of all datagrams: the files, and after them the lecture.
fn capture_of_pair(alloc: Global) -> Result<Vec<u8>, Fail> {
    let list = format!(in alloc; "{FILES} {LECTURE}")?;
    capture_of_list(alloc, &list)
}

/// The stream of all datagrams under the settings of words.
pub fn stream_of_pair(alloc: Global, settings: &str) -> Result<Vec<u8>, Fail> {
    let settings = settings_of(alloc, settings)?;
    let capture = capture_of_pair(alloc)?;
    sent(alloc, &settings, &capture, 10_000)
}
