//! What no clause says of the real objects: what they make of each refusal of the system. The files stand in the current folder.
use crate::calls::{Calls, expect_calls, loaded};
use ipe_io::{
    Creates, Failed, FileRack, FileShelf, Opens, Rack, Shelf, Sink, Source, StdSink, StdSource,
    put_all, put_file,
};
use std::alloc::Global;
use std::fs::{self, Files};
use std::io::{self, Error, ErrorKind, Read, Write};
use std::test::Fail;

/// A file of which the call of one number, from 0, is refused. Every other call moves at most four bytes.
#[derive(Drop)]
struct Refusing<F: Drop> {
    file: F,
    calls: u32,
    refused: u32,
    kind: ErrorKind,
}

impl<F: Drop> Refusing<F> {
    /// Numbers a call, and refuses it where it is the one.
    fn count(&mut self) -> io::Result<()> {
        let call = self.calls;
        self.calls = call.saturating_add(1);
        if call == self.refused {
            return Err(Error::from(self.kind));
        }
        Ok(())
    }
}

impl<F: Read + Drop> Read for Refusing<F> {
    fn read(&mut self, into: &mut [u8]) -> io::Result<usize> {
        self.count()?;
        let room = into.len().min(4);
        self.file.read(&mut into[..room])
    }
}

impl<F: Write + Drop> Write for Refusing<F> {
    fn write(&mut self, piece: &[u8]) -> io::Result<usize> {
        self.count()?;
        self.file.write(&piece[..piece.len().min(4)])
    }

    fn flush(&mut self) -> io::Result<()> {
        self.count()?;
        self.file.flush()
    }
}

/// The current folder, whose files each refuse one call. It opens and creates no file of the name `refused`.
#[derive(Drop)]
struct RefusingFolder<R: Files + Copy + Drop> {
    system: R,
    refused: u32,
    kind: ErrorKind,
}

impl<R: Files + Copy + Drop> RefusingFolder<R> {
    /// Refuses the name `refused`.
    fn admit(&self, name: &str) -> io::Result<()> {
        if name == "refused" {
            return Err(Error::from(self.kind));
        }
        Ok(())
    }

    /// A file that refuses its call.
    fn over<F: Drop>(&self, file: F) -> Refusing<F> {
        Refusing {
            file,
            calls: 0,
            refused: self.refused,
            kind: self.kind,
        }
    }

    /// What a file of the folder holds.
    fn text(&self, alloc: Global, name: &str) -> Result<String, Fail> {
        loaded(alloc, &mut FileShelf::new(alloc, self.system), name)
    }
}

impl<R: Files + Copy + Drop> Opens for RefusingFolder<R> {
    ghost use Rattle.std.specs.Prelude.{⊤};

    type Reader = Refusing<R::File>;

    ghost Opened = { λ name bytes. ⊤ };

    fn open(&self, name: &str) -> io::Result<Refusing<R::File>> {
        self.admit(name)?;
        Ok(self.over(fs::open(&self.system, name)?))
    }
}

impl<R: Files + Copy + Drop> Creates for RefusingFolder<R> {
    ghost use Rattle.std.specs.Prelude.{⊤, false};

    type Writer = Refusing<R::File>;

    ghost Created = { λ name bytes. ⊤ };

    ghost tells = { false };

    fn create(&self, name: &str) -> io::Result<Refusing<R::File>> {
        self.admit(name)?;
        Ok(self.over(fs::create(&self.system, name)?))
    }
}

/// A text that its file takes in three calls.
const FIRST: &str = "abcdefghij";

/// Another.
const SECOND: &str = "klmnopqrst";

/// A sink that holds the text back is flushed twice: each answer, and then what the file holds.
fn flush_sink<R: Files + Copy + Drop>(
    alloc: Global,
    folder: &RefusingFolder<R>,
) -> Result<String, Fail> {
    let mut sink = StdSink::buffered(alloc, folder.create("ipe_io_e")?)?;
    let put = put_all(&mut sink, FIRST.as_bytes());
    let once = sink.flush();
    let text = folder.text(alloc, "ipe_io_e")?;
    let twice = sink.flush();
    let whole = folder.text(alloc, "ipe_io_e")?;
    Ok(format!(in alloc; "{put:?} {once:?} [{text}] {twice:?} [{whole}]")?)
}

/// A sink that holds nothing back is given the text: the answer, and what the file then holds.
fn put_at_once<R: Files + Copy + Drop>(
    alloc: Global,
    folder: &RefusingFolder<R>,
) -> Result<String, Fail> {
    let mut sink = StdSink::new(alloc, folder.create("ipe_io_e")?);
    let put = put_all(&mut sink, FIRST.as_bytes());
    let text = folder.text(alloc, "ipe_io_e")?;
    Ok(format!(in alloc; "{put:?} [{text}]")?)
}

/// Adds two files and puts a text into each.
fn put_two<K: Rack>(alloc: Global, rack: &mut K) -> Result<bool, Fail> {
    if rack.add(alloc, "ipe_io_e") != Ok(0) {
        return Ok(false);
    }
    if rack.add(alloc, "ipe_io_f") != Ok(1) {
        return Ok(false);
    }
    if put_file(rack, 0, FIRST.as_bytes()).is_err()
        || put_file(rack, 1, SECOND.as_bytes()).is_err()
    {
        return Ok(false);
    }
    Ok(true)
}

/// What the two files hold.
fn two_texts<R: Files + Copy + Drop>(
    alloc: Global,
    folder: &RefusingFolder<R>,
) -> Result<String, Fail> {
    let first = folder.text(alloc, "ipe_io_e")?;
    let second = folder.text(alloc, "ipe_io_f")?;
    Ok(format!(in alloc; "[{first}] [{second}]")?)
}

/// A rack of two files is flushed twice: each answer, and then what the files hold.
fn flush_rack<R: Files + Copy + Drop>(
    alloc: Global,
    folder: RefusingFolder<R>,
    seen: &RefusingFolder<R>,
) -> Result<String, Fail> {
    let mut rack = FileRack::over(alloc, folder);
    if !put_two(alloc, &mut rack)? {
        return Err("not put".into());
    }
    let once = rack.flush_all();
    let texts = two_texts(alloc, seen)?;
    let twice = rack.flush_all();
    let whole = two_texts(alloc, seen)?;
    Ok(format!(in alloc; "{once:?} {texts} {twice:?} {whole}")?)
}

/// What the files of a rack hold that is dropped without a flush.
fn drop_rack<R: Files + Copy + Drop>(
    alloc: Global,
    folder: RefusingFolder<R>,
    seen: &RefusingFolder<R>,
) -> Result<String, Fail> {
    let mut rack = FileRack::over(alloc, folder);
    if !put_two(alloc, &mut rack)? {
        return Err("not put".into());
    }
    drop(rack);
    two_texts(alloc, seen)
}

/// A rack adds a file that is refused, and then one that isn't.
fn add_refused<R: Files + Copy + Drop>(
    alloc: Global,
    folder: RefusingFolder<R>,
) -> Result<String, Fail> {
    let mut rack = FileRack::over(alloc, folder);
    let refused = rack.add(alloc, "refused");
    let added = rack.add(alloc, "ipe_io_e");
    Ok(format!(in alloc; "{refused:?} {added:?}")?)
}

/// What a load answers.
fn load<S: Shelf>(alloc: Global, shelf: &mut S, name: &str) -> Result<String, Fail> {
    match shelf.load(alloc, name) {
        Ok(bytes) => Ok(std::str::from_utf8(&bytes)?.to_string(alloc)?),
        Err(fault) => Ok(format!(in alloc; "{fault:?}")?),
    }
}

/// A shelf loads the file twice, and then one that is refused.
fn load_twice<R: Files + Copy + Drop>(
    alloc: Global,
    folder: RefusingFolder<R>,
) -> Result<String, Fail> {
    let mut shelf = FileShelf::over(alloc, folder);
    let once = load(alloc, &mut shelf, "ipe_io_e")?;
    let twice = load(alloc, &mut shelf, "ipe_io_e")?;
    let refused = load(alloc, &mut shelf, "refused")?;
    Ok(format!(in alloc; "{once} {twice} {refused}")?)
}

/// The text that a source gives, with a `!` for each fault.
fn read_source<R: Files + Copy + Drop>(
    alloc: Global,
    folder: &RefusingFolder<R>,
) -> Result<String, Fail> {
    let mut source = StdSource::new(alloc, folder.open("ipe_io_e")?)?;
    let mut text = String::new(alloc);
    let mut piece = [0; 3];
    for _ in 0..9u32 {
        match source.read(&mut piece) {
            Ok(0) => return Ok(text),
            Ok(count) => text.push_str(std::str::from_utf8(&piece[..count])?)?,
            Err(Failed) => text.push_str("!")?,
        }
    }
    Err("no end".into())
}

/// The kind of error of a word.
fn kind_of(word: &str) -> ErrorKind {
    match word {
        "interrupted" => ErrorKind::Interrupted,
        "memory" => ErrorKind::OutOfMemory,
        _ => ErrorKind::Other,
    }
}

/// The system whose files are made and read.
#[derive(Drop)]
struct Given<R: Files + Copy + Drop> {
    system: R,
}

impl<R: Files + Copy + Drop> Given<R> {
    /// Its folder, where files refuse the call of this number by an error of this kind.
    fn folder(&self, refused: u32, kind: &str) -> RefusingFolder<R> {
        RefusingFolder {
            system: self.system,
            refused,
            kind: kind_of(kind),
        }
    }
}

/// An object, the number of the call that its files refuse, and the kind of the error.
impl<R: Files + Copy + Drop> Calls for Given<R> {
    fn answer(&mut self, alloc: Global, call: &str) -> Result<String, Fail> {
        let (object, refusal) = call.split_once(' ').ok_or("no number")?;
        let (number, kind) = refusal.split_once(' ').unwrap_or((refusal, ""));
        let number = number.parse::<u32>()?;
        let folder = self.folder(number, kind);
        let seen = self.folder(number, kind);
        match object {
            "sink" => flush_sink(alloc, &folder),
            "unheld" => put_at_once(alloc, &folder),
            "rack" => flush_rack(alloc, folder, &seen),
            "dropped" => drop_rack(alloc, folder, &seen),
            "added" => add_refused(alloc, folder),
            "shelf" => load_twice(alloc, folder),
            _ => read_source(alloc, &folder),
        }
    }
}

/// The text takes the calls 0, 1 and 2, the flush of the file is call 3, and the second flush call 4.
const SINKS: &str = "sink 0|Ok(()) Err(Failed) [] Ok(()) [abcdefghij]
sink 1|Ok(()) Err(Failed) [abcd] Ok(()) [abcdefghij]
sink 2|Ok(()) Err(Failed) [abcdefgh] Ok(()) [abcdefghij]
sink 3|Ok(()) Err(Failed) [abcdefghij] Ok(()) [abcdefghij]
sink 4|Ok(()) Ok(()) [abcdefghij] Err(Failed) [abcdefghij]
sink 0 interrupted|Ok(()) Ok(()) [abcdefghij] Ok(()) [abcdefghij]
sink 2 interrupted|Ok(()) Ok(()) [abcdefghij] Ok(()) [abcdefghij]
unheld 0|Err(Failed) []
unheld 1|Err(Failed) [abcd]
unheld 2|Err(Failed) [abcdefgh]
unheld 3|Ok(()) [abcdefghij]
unheld 1 interrupted|Ok(()) [abcdefghij]";

/// The same calls, of each of the two files.
const RACKS: &str = "rack 0|Err(Failed) [] [] Ok(()) [abcdefghij] [klmnopqrst]
rack 1|Err(Failed) [abcd] [klmn] Ok(()) [abcdefghij] [klmnopqrst]
rack 2|Err(Failed) [abcdefgh] [klmnopqr] Ok(()) [abcdefghij] [klmnopqrst]
rack 3|Err(Failed) [abcdefghij] [klmnopqrst] Ok(()) [abcdefghij] [klmnopqrst]
rack 4|Ok(()) [abcdefghij] [klmnopqrst] Err(Failed) [abcdefghij] [klmnopqrst]
rack 1 interrupted|Ok(()) [abcdefghij] [klmnopqrst] Ok(()) [abcdefghij] [klmnopqrst]
dropped 0|[] []
dropped 1|[abcd] [klmn]
dropped 1 interrupted|[abcdefghij] [klmnopqrst]
dropped 9|[abcdefghij] [klmnopqrst]
added 9|Err(Failed) Ok(0)
added 9 memory|Err(OutOfMemory) Ok(0)";

/// The file is read by the calls 0, 1 and 2, and call 3 finds its end.
const INPUTS: &str = "rack 9|Ok(()) [abcdefghij] [klmnopqrst] Ok(()) [abcdefghij] [klmnopqrst]
shelf 0|Failed Failed Failed
shelf 1|Failed Failed Failed
shelf 2|Failed Failed Failed
shelf 3|Failed Failed Failed
shelf 4|abcdefghij abcdefghij Failed
shelf 1 memory|Failed Failed OutOfMemory
source 0|!abcdefghij
source 1|abcd!efghij
source 2|abcdefgh!ij
source 3|abcdefghij!
source 4|abcdefghij";

/// A sink that is refused a call keeps what was not written, in order, and a later flush writes it. A call that a signal interrupts is made
/// again.
#[test]
fn a_sink_keeps_what_is_refused(rt: HostRuntime) -> Result<(), Fail> {
    expect_calls(rt.alloc(), &mut Given { system: rt }, SINKS)?;
    fs::remove_file(&rt, "ipe_io_e")?;
    Ok(())
}

/// So does each file of a rack, also where another one is refused. A rack that is dropped writes what it can.
#[test]
fn a_rack_keeps_what_is_refused(rt: HostRuntime) -> Result<(), Fail> {
    expect_calls(rt.alloc(), &mut Given { system: rt }, RACKS)?;
    fs::remove_file(&rt, "ipe_io_e")?;
    fs::remove_file(&rt, "ipe_io_f")?;
    Ok(())
}

/// A shelf loads a file whole or not at all, and a source loses nothing where a call is refused.
#[test]
fn an_input_that_is_refused_fails(rt: HostRuntime) -> Result<(), Fail> {
    expect_calls(rt.alloc(), &mut Given { system: rt }, INPUTS)?;
    fs::remove_file(&rt, "ipe_io_e")?;
    fs::remove_file(&rt, "ipe_io_f")?;
    Ok(())
}
