//! Words of a table -> what they name. A word that names nothing fails the test.
//!
//! | Words | What |
//! |---|---|
//! | `CYCLE INT FILES` | a plan, by pieces of its settings |
//! | `350>239.1.0.1` | a datagram of 350 bytes for this address |
//! | `bytes=138 input=0` | numbers by name |
use service_plan::{Plan, read_plan};
use std::alloc::Global;
use std::net::Ipv4Addr;
use std::test::Fail;
use test_recordings::Datagram;
use test_recordings::settings::{FILES, FRAMES, INT, LECTURE, STAMPED};

/// Cycles of 100 slots.
const CYCLE: &str = "cycle = 100\n";

/// Files in SNDUs for the whole of 239.0.0.0/8.
const ALL_FILES: &str = "[[service]]
name = \"files\"
kind = \"ule\"
pid = 513
rules = [\"239.0.0.0/8\"]
";

/// A lecture and files in GSE packets on ISIs 7 and 9, in baseband frames of 300 bytes.
const BASEBAND: &str = "carrier = \"bb\"
frame_bytes = 300
[[service]]
name = \"lecture\"
kind = \"gse\"
isi = 7
rules = [\"239.1.0.0/16\"]
[[service]]
name = \"files\"
kind = \"gse\"
isi = 9
rules = [\"239.2.0.0/16\"]
";

/// The lecture moves to PID 700 with the second record.
const MOVED: &str = "[[change]]
at = 2
[[change.service]]
name = \"lecture\"
pid = 700
";

/// A service of datagram_sections on PID 300 (EN 301 192 clause 7).
pub(crate) const SECTIONS: &str = "[[service]]
name = \"sections\"
kind = \"mpe\"
pid = 300
rules = [\"239.0.0.0/8\"]
";

/// A piece of settings by its name.
fn piece_of(word: &str) -> Result<&'static str, Fail> {
    match word {
        "CYCLE" => Ok(CYCLE),
        "STAMPED" => Ok(STAMPED),
        "INT" => Ok(INT),
        "LECTURE" => Ok(LECTURE),
        "FRAMES" => Ok(FRAMES),
        "FILES" => Ok(FILES),
        "ALL_FILES" => Ok(ALL_FILES),
        "BASEBAND" => Ok(BASEBAND),
        "MOVED" => Ok(MOVED),
        _ => Err(Fail::new("no such settings")),
    }
}

/// The plan of these settings.
pub(crate) fn plan_of(alloc: Global, settings: &str) -> Result<Plan, Fail> {
    match read_plan(alloc, settings.as_bytes()) {
        Ok(plan) => Ok(plan),
        Err(_) => Err(Fail::new("settings")),
    }
}

/// The plan of pieces of settings, one after the other.
pub(crate) fn plan_in(alloc: Global, words: &str) -> Result<Plan, Fail> {
    let mut settings = String::new(alloc);
    for word in words.split_whitespace() {
        settings.push_str(piece_of(word)?)?;
    }
    plan_of(alloc, &settings)
}

/// The datagram of a word.
pub(crate) fn datagram_in(word: &str) -> Result<Datagram, Fail> {
    let (size, to) = word.split_once('>').ok_or("no address")?;
    Ok(Datagram {
        size: size.parse::<u16>()?,
        to: to.parse::<Ipv4Addr>()?.octets(),
    })
}

/// The place of a name among names separated by spaces.
fn place_of(names: &str, name: &str) -> Result<usize, Fail> {
    for (place, it) in names.split(' ').enumerate() {
        if it == name {
            return Ok(place);
        }
    }
    Err(Fail::new("no such name"))
}

/// The numbers of names in their order: those that words give, and otherwise these.
pub(crate) fn named<const N: usize>(
    words: &str,
    names: &str,
    otherwise: [u32; N],
) -> Result<[u32; N], Fail> {
    let mut numbers = otherwise;
    for word in words.split_whitespace() {
        let (name, number) = word.split_once('=').ok_or("no number")?;
        let place = place_of(names, name)?;
        if place >= N {
            return Err(Fail::new("more names than numbers"));
        }
        numbers[place] = number.parse::<u32>()?;
    }
    Ok(numbers)
}
