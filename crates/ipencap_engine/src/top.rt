//! The top call: the words and the outside in, a status out.
ghost use Rattle.std.specs.Prelude.{◌≡◌, ℕ, List, map, string_bytes};
ghost use Rattle.ipencap_engine.specs.World.{world, of_objects};
ghost use Rattle.ipencap_engine.specs.Jobs.{Job, Asks};
ghost use Rattle.ipencap_engine.specs.Words.{HasPid, job_of};
ghost use Rattle.ipencap_engine.specs.Statuses.{Complains, status_of, outcome_line};
ghost use Rattle.ipencap_engine.specs.Runs.{Runs};

use crate::bridge::send_frames;
use crate::check::check;
use crate::find::find_services;
use crate::receive::receive_services;
use crate::relay::relay_recording;
use crate::send::send_capture;
use crate::status::{Outcome, Status, complain};
use crate::summary::summarize;
use crate::tables::write_plan_tables;
use crate::ule::receive_pid;
use crate::unbridge::receive_frames;
use command_words::{Command, WordsFault, parse_words};
use ipe_io::{Rack, Shelf, Sink, Source};
use std::alloc::Global;

/// Does what the words after the program's name say, and reports the line of the status where there is one.
///
/// `ule PID` reads a plain recording of 188-byte packets from `input`, reassembles the SNDUs of the PID (RFC 4326), and
/// writes the datagrams that they carry to the file `ule.pcap` of `rack`. `check SETTINGS` loads the settings file of that
/// name from `shelf`, and writes one line for each service of its plan to `output`. `send SETTINGS` loads the settings too,
/// reads a capture from `input`, and writes the stream of what the services of the plan take of it to `output`, in transport
/// packets or in baseband frames. `receive SETTINGS` loads the settings, reads a recording of either from `input`, writes the
/// datagrams of each service of the plan to a file of `rack` under the service's name, and the report to `output`.
/// `sample NUMBER` sends datagrams that draws from the number make, drops packets of their stream by draws, receives the
/// others, all of it in memory, and writes to `output` how many were offered, sent, dropped and delivered. `tables SETTINGS` loads the
/// settings, and writes to `output` a plain recording of the PAT, the PMTs and the INT of the plan. `find PID` reads a plain recording
/// from `input`, and writes to `output` for each rule of the INT on that PID on which PID its stream is, as the PAT and the PMTs say.
/// `bridge CARRIER` reads a capture of Ethernet frames from `input`, and writes to `output` the SNDUs of a PID, or the baseband frames of an ISI,
/// that carry them. `unbridge CARRIER` reads a recording from `input`, and adds to `rack` the file `bridge.pcap` of the Ethernet frames that are
/// received of it. `relay IN OUT` loads both settings, receives a recording from `input` under the first, and writes to `output` the stream of all that it
/// delivers under the second.
///
/// Whatever job the words ask for, one line is reported, whole or, where `complaints` failed, a prefix of it; and what
/// happened is a run of that job: specs/Runs.antt says in fifteen sentences what that is.
///
/// - ends: the table of jobs and their statuses;
/// - settings: Settings comes only where the settings are refused, and then nothing else is used; where they are, the run ends with it, or
///   with a fault of the shelf or out of memory; at each status after them but OutOfMemory the shelf knows them, and they give plans;
/// - unused: what a job does not use, and what it had no turn to use, stays as it was;
/// - counts: each fault has its cause in the count of its object, and no count rises at another status; the shelf knows no other file than
///   before but the job's settings;
/// - reads: how much of the input was read, and where files are added, how many were: at each status after the input was begun one for each service, or
///   `bridge.pcap`; Done says that the input has ended, and OutOfMemory of a job that adds files that nothing was read, or all;
/// - stands: what files and output hold after each status, to the byte;
/// - memory: what they hold where memory ran out;
/// - line_is: the line that is reported;
/// - loss: the loss law in transport packets, of each service by itself, whatever became of others. Premises: the packets of its PIDs
///   carried units of its kind; records were lost, damaged or, if kept, repeated before a packet of their PID with other bytes, all in order,
///   and any inserted in which nothing is read on its PIDs. Then, whatever errors go undetected, its file has the wanted datagrams of all units that arrived
///   intact, in order (`intact`). Where besides no damaged or spliced unit of it passes its CRC-32, and of any 4,095 MPE-FEC frames in a row
///   between two that are received one is received, or with time slicing accepted sections come at times that separate the frames as delta_t
///   announces, it has nothing but wanted datagrams that were sent, unchanged, in order, those of each unit at most once, and of MPE-FEC
///   frames each of a frame in which no row lacks more than 64 of its 255 bytes (`arrived`). So at Done and at SinkFault; at every other status a
///   prefix of such a file, or none;
/// - loss_in_frames: the same in baseband frames. Premises: each frame of its ISI was dropped, or kept once, in order; anywhere stand frames that
///   are refused or of other ISIs, so a damaged one counts as dropped where it is refused or reads as one of another ISI. Then its file has the
///   wanted datagrams of all PDUs whose frames were all kept (`intact`). Where besides the frames carried datagrams, and each PDU that is
///   reassembled from fragments was sent, with that label, and the same packet ended it, it has nothing but wanted datagrams that were sent,
///   unchanged, in order, that of each PDU at most once (`arrived`);
/// - isolation, isolation_in_frames: at Done and at SinkFault no service's file depends on packets of other PIDs, but where the plan changes on
///   the bytes of the INT's, nor on moments, but with time slicing on those of its own packets; nor on frames of other ISIs;
/// - loss_of_relay: the loss law of what a relay reads: all that it sends on are the lists that its services deliver, merged, and of each of these
///   the loss law says the same as of a file of `receive`;
/// - loss_of_ethernet_frames, isolation_of_ethernet_frames: the same of Ethernet frames on a PID or an ISI: those received have among them, in
///   order, every one whose SNDU arrived intact or whose baseband frames all came, whatever errors go undetected; where none does, they are a
///   subsequence of those sent, unchanged; and they don't depend on what other PIDs or ISIs carry.
pub fn run<S: Shelf, I: Source, O: Sink, R: Rack, E: Sink>(
    alloc: Global,
    words: &[String],
    shelf: &mut S,
    input: &mut I,
    output: &mut O,
    rack: &mut R,
    complaints: &mut E,
) -> Status
    ensures { (job : Job) → Asks (map (λ word. string_bytes word) words.now) job → (line : List ℕ)
        × Complains (E.told complaints.old).held (E.told complaints.new).held (E.told complaints.old).faults (E.told complaints.new).faults line
        × Runs job result line
        (world (S.told shelf.old) (I.told input.old) (O.told output.old) (R.told rack.old))
        (world (S.told shelf.new) (I.told input.new) (O.told output.new) (R.told rack.new))
        (of_objects (shelf.new ≡ shelf.old) (input.new ≡ input.old) (output.new ≡ output.old) (rack.new ≡ rack.old)) }
{
    match parse_words(alloc, words) {
        Ok(asked) => complain(obey(alloc, &asked, shelf, input, output, rack), complaints),
        Err(WordsFault::Usage) => complain(Outcome::Ended(Status::Usage), complaints),
        Err(WordsFault::OutOfMemory) => {
            complain(Outcome::Ended(Status::OutOfMemory), complaints)
        }
    }
}

/// Does what the command says.
fn obey<S: Shelf, I: Source, O: Sink, R: Rack>(
    alloc: Global,
    command: &Command<'_>,
    shelf: &mut S,
    input: &mut I,
    output: &mut O,
    rack: &mut R,
) -> Outcome
    requires { HasPid command.now }
    ensures { Runs (job_of command.now) (status_of result) (outcome_line result)
        (world (S.told shelf.old) (I.told input.old) (O.told output.old) (R.told rack.old))
        (world (S.told shelf.new) (I.told input.new) (O.told output.new) (R.told rack.new))
        (of_objects (shelf.new ≡ shelf.old) (input.new ≡ input.old) (output.new ≡ output.old) (rack.new ≡ rack.old)) }
{
    match *command {
        Command::Send(name) => send_capture(alloc, name, shelf, input, output),
        Command::Receive(name) => receive_services(alloc, name, shelf, input, output, rack),
        Command::Ule(pid) => receive_pid(alloc, pid, input, rack),
        Command::Check(name) => check(alloc, name, shelf, output),
        Command::Sample(number) => summarize(alloc, number, output),
        Command::Tables(name) => write_plan_tables(alloc, name, shelf, output),
        Command::Find(pid) => find_services(alloc, pid, input, output),
        Command::Bridge(carrier) => send_frames(alloc, carrier, input, output),
        Command::Unbridge(carrier) => receive_frames(alloc, carrier, input, rack),
        Command::Relay(inner, outer) => relay_recording(alloc, inner, outer, shelf, input, output),
    }
}
