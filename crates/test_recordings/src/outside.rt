//! What a run is given -> the objects in memory; what they hold after it -> how that differs from what they must hold.
use ipe_io::{MemRack, MemShelf, MemSink, MemSource};
use std::alloc::{AllocError as OutOfMemory, Global};
use std::test::Fail;

/// A call that fails, by its number among those of its object, from 0.
#[derive(Clone, Copy, PartialEq, Eq)]
pub enum Failing {
    Shelf(u32),
    Input(u32),
    Output(u32),
    Rack(u32),
}

impl Failing {
    /// A call of the object of a name.
    pub fn named(object: &str, call: u32) -> Result<Failing, Fail> {
        match object {
            "shelf" => Ok(Failing::Shelf(call)),
            "input" => Ok(Failing::Input(call)),
            "output" => Ok(Failing::Output(call)),
            "rack" => Ok(Failing::Rack(call)),
            _ => Err("no such object".into()),
        }
    }

    /// Its number.
    pub fn call(self) -> u32 {
        match self {
            Failing::Shelf(call)
            | Failing::Input(call)
            | Failing::Output(call)
            | Failing::Rack(call) => call,
        }
    }

    /// The line that is reported where it ends a run.
    pub fn fault(self) -> &'static str {
        match self {
            Failing::Shelf(_) => "fault of the settings file",
            Failing::Input(_) => "fault of the input",
            Failing::Output(_) => "fault of the output",
            Failing::Rack(_) => "fault of a written file",
        }
    }

    /// Another call of the same object.
    pub fn at(self, call: u32) -> Failing {
        match self {
            Failing::Shelf(_) => Failing::Shelf(call),
            Failing::Input(_) => Failing::Input(call),
            Failing::Output(_) => Failing::Output(call),
            Failing::Rack(_) => Failing::Rack(call),
        }
    }
}

/// The call of a word.
fn failing_of(word: &str) -> Result<Failing, Fail> {
    let (object, call) = word.split_once('=').ok_or("no call")?;
    Failing::named(object, call.parse()?)
}

/// The calls of words: `input=0 rack=3` are the first one of the input and the fourth one of the rack.
pub fn fails_of(alloc: Global, words: &str) -> Result<Vec<Failing>, Fail> {
    let mut fails = Vec::new(alloc);
    for word in words.split_whitespace() {
        fails.push(failing_of(word)?)?;
    }
    Ok(fails)
}

/// What a run is given.
#[derive(Clone, Copy)]
pub struct Given<'a> {
    /// The words after the program's name.
    pub words: &'a [&'a str],
    /// The name of a file on the shelf, and its bytes.
    pub name: &'a str,
    pub settings: &'a [u8],
    /// The bytes of another one, `b.toml`: without a byte there is none.
    pub outer: &'a [u8],
    /// The input's bytes, of which a read gives 100 at most.
    pub input: &'a [u8],
    /// How many bytes the output takes.
    pub room: usize,
    pub fails: &'a [Failing],
}

/// The words, the settings under the name `a.toml`, and the input. The output takes 10,000 bytes, and no call fails.
pub fn faultless<'a>(words: &'a [&'a str], settings: &'a [u8], input: &'a [u8]) -> Given<'a> {
    Given {
        words,
        name: "a.toml",
        settings,
        outer: &[],
        input,
        room: 10_000,
        fails: &[],
    }
}

/// The words as a program gets them.
pub fn words_of(alloc: Global, words: &[&str]) -> Result<Vec<String>, OutOfMemory> {
    let mut all = Vec::new(alloc);
    for word in words {
        all.push(word.to_string(alloc)?)?;
    }
    Ok(all)
}

/// The objects of a run. The rack takes two files with the output's room, of 10,000 bytes at least.
#[derive(Drop)]
pub struct Outside {
    pub shelf: MemShelf,
    pub input: MemSource,
    pub output: MemSink,
    pub rack: MemRack,
    pub complaints: MemSink,
}

/// A file: its name, its bytes, and how many of them are flushed.
#[derive(Clone, Copy)]
pub struct FileLeft<'a> {
    pub name: &'a str,
    pub bytes: &'a [u8],
    pub flushed: usize,
}

impl<'a> FileLeft<'a> {
    /// A file of which all is flushed.
    pub fn whole(name: &'a str, bytes: &'a [u8]) -> FileLeft<'a> {
        FileLeft {
            name,
            bytes,
            flushed: bytes.len(),
        }
    }
}

/// What a run must leave.
#[derive(Clone, Copy)]
pub struct Left<'a> {
    /// The output's bytes, and how many of them are flushed.
    pub output: &'a [u8],
    pub flushed: usize,
    /// The line that is reported, without `ipencap: ` before it and its end; empty where there is none.
    pub line: &'a str,
    /// The files of the rack.
    pub files: &'a [FileLeft<'a>],
}

impl<'a> Left<'a> {
    /// This line, and nothing else.
    pub fn line(line: &'a str) -> Left<'a> {
        Left {
            output: &[],
            flushed: 0,
            line,
            files: &[],
        }
    }

    /// This output, of which all is flushed, a line, and files.
    pub fn flushed(output: &'a [u8], line: &'a str, files: &'a [FileLeft<'a>]) -> Left<'a> {
        Left {
            output,
            flushed: output.len(),
            line,
            files,
        }
    }
}

/// The numbers of the calls that fail of one object, of which `first` is the first call.
fn calls_of(alloc: Global, fails: &[Failing], first: Failing) -> Result<Vec<u32>, OutOfMemory> {
    let mut calls = Vec::new(alloc);
    for failing in fails {
        if failing.at(0) == first {
            calls.push(failing.call())?;
        }
    }
    Ok(calls)
}

fn shelf_of(alloc: Global, given: &Given<'_>) -> Result<MemShelf, OutOfMemory> {
    let fails = calls_of(alloc, given.fails, Failing::Shelf(0))?;
    let mut shelf = MemShelf::new(alloc, given.name, given.settings, &fails)?;
    if !given.outer.is_empty() && given.name != "b.toml" {
        shelf.also(alloc, "b.toml", given.outer)?;
    }
    Ok(shelf)
}

fn input_of(alloc: Global, given: &Given<'_>) -> Result<MemSource, OutOfMemory> {
    let fails = calls_of(alloc, given.fails, Failing::Input(0))?;
    MemSource::new(alloc, given.input, 100, &fails)
}

fn output_of(alloc: Global, given: &Given<'_>) -> Result<MemSink, OutOfMemory> {
    let fails = calls_of(alloc, given.fails, Failing::Output(0))?;
    MemSink::new(alloc, given.room, &fails)
}

fn rack_of(alloc: Global, given: &Given<'_>) -> Result<MemRack, OutOfMemory> {
    let fails = calls_of(alloc, given.fails, Failing::Rack(0))?;
    MemRack::new(alloc, 2, given.room.max(10_000), &fails)
}

/// The output of a run, and what takes its line.
fn sinks_of(alloc: Global, given: &Given<'_>) -> Result<(MemSink, MemSink), OutOfMemory> {
    let output = output_of(alloc, given)?;
    Ok((output, MemSink::new(alloc, 200, &[])?))
}

/// The objects of a run that have files.
fn files_of(alloc: Global, given: &Given<'_>) -> Result<(MemShelf, MemRack), OutOfMemory> {
    let shelf = shelf_of(alloc, given)?;
    Ok((shelf, rack_of(alloc, given)?))
}

impl Outside {
    /// The objects that a run is given.
    pub fn new(alloc: Global, given: &Given<'_>) -> Result<Outside, OutOfMemory> {
        let input = input_of(alloc, given)?;
        let (output, complaints) = sinks_of(alloc, given)?;
        let (shelf, rack) = files_of(alloc, given)?;
        Ok(Outside {
            shelf,
            input,
            output,
            rack,
            complaints,
        })
    }

    /// The line that is reported, as [Left] has it.
    pub fn line(&self) -> Option<&str> {
        let text = std::str::from_utf8(self.complaints.bytes()).ok()?;
        if text.is_empty() {
            return Some(text);
        }
        let line = text.strip_prefix("ipencap: ")?.strip_suffix("\n")?;
        if line.is_empty() { None } else { Some(line) }
    }

    /// What differs from what a run must leave; an empty text where nothing does.
    pub fn difference(&self, left: &Left<'_>) -> &'static str {
        if self.line() != Some(left.line) {
            return "the line";
        }
        if self.output.bytes() != left.output {
            return "the output";
        }
        if self.output.flushed() != left.flushed {
            return "what is flushed of the output";
        }
        difference_of_files(&self.rack, left.files)
    }

    /// Whether the output and each file are a front of those of another run, without a file that it does not have.
    pub fn is_front_of(&self, whole: &Outside) -> bool {
        whole.output.bytes().starts_with(self.output.bytes()) && are_fronts(&self.rack, &whole.rack)
    }
}

/// What differs from what a rack must hold; an empty text where nothing does.
fn difference_of_files(rack: &MemRack, files: &[FileLeft<'_>]) -> &'static str {
    if rack.files() as usize != files.len() {
        return "the number of files";
    }
    for at in 0..rack.files() {
        let Some(file) = files.get(at as usize) else {
            return "the number of files";
        };
        if rack.name(at) != file.name {
            return "the name of a file";
        }
        if rack.file(at) != file.bytes {
            return "a file";
        }
        if rack.flushed(at) != file.flushed {
            return "what is flushed of a file";
        }
    }
    ""
}

/// Whether the files of a rack are fronts of those of another.
fn are_fronts(part: &MemRack, whole: &MemRack) -> bool {
    if part.files() > whole.files() {
        return false;
    }
    for at in 0..part.files() {
        if at >= whole.files() {
            return false;
        }
        if part.name(at) != whole.name(at) || !whole.file(at).starts_with(part.file(at)) {
            return false;
        }
    }
    true
}
