//! Settings by hand: those of a realistic run, and each fault beside neighbours that are accepted.

use ip_datagram::IpAddress;
use service_plan::{
    Change, Kind, Plan, PlanError, Service, longest, pid_in, read_plan, route, route_in,
    sample_plan, ule_plan, version_at,
};
use std::alloc::{AllocError, Global};
use std::test::Fail;
use test_lines::{expect, expect_lines};

/// An INT.
const INT: &str = "[int]
pid = 600
platform_id = 1
network_id = 2
original_network_id = 3
transport_stream_id = 4";

/// A lecture in sliced frames, but for its window.
const LECTURE: &str = "[[service]]
name = 'lecture'
kind = 'fec'
pid = 512
mode = 'sliced'
rows = 1024
service_id = 10
component_tag = 1
rules = ['239.1.0.0/16']";

/// Files in SNDUs.
const FILES: &str = "[[service]]
name = 'files'
kind = 'ule'
pid = 513
service_id = 10
component_tag = 2
rules = ['239.2.0.0/16']";

/// A service of SNDUs, but for its PID.
const ULE: &str = "[[service]]
name = 'files'
kind = 'ule'
rules = ['239.2.0.0/16']";

/// Other files in MPE sections.
const OTHER: &str = "[[service]]
name = 'other'
kind = 'mpe'
pid = 515
rules = ['239.3.0.0/16']";

/// A service in baseband frames.
const FRAMES: &str = "[[service]]
name = 'files'
kind = 'gse'
isi = 1
rules = ['239.2.0.0/16']";

/// The same without rules.
const BARE: &str = "[[service]]
name = 'files'
kind = 'gse'
isi = 1";

/// Files that move from the third record on.
const MOVE: &str = "[[change]]
at = 3
[[change.service]]
name = 'files'
pid = 514";

/// The lines of a piece by its name. A word that is no name is a line itself.
fn lines_of(word: &str) -> &str {
    match word {
        "INT" => INT,
        "LECTURE" => LECTURE,
        "FILES" => FILES,
        "ULE" => ULE,
        "OTHER" => OTHER,
        "FRAMES" => FRAMES,
        "BARE" => BARE,
        "MOVE" => MOVE,
        _ => word,
    }
}

/// A line of a key with so many rules.
fn put_rules(text: &mut String, key: &str, count: u16) -> Result<(), AllocError> {
    write!(text, "{key} = [")?;
    for _ in 0..count {
        text.push_str("'10.0.0.0/8', ")?;
    }
    text.push_str("]\n")
}

/// What a word stands for: a piece by its name, a line of TOML without spaces, and `rules*N` or `urgent*N` for N rules.
fn put_word(text: &mut String, word: &str) -> Result<(), Fail> {
    match word.split_once('*') {
        Some((key, count)) => put_rules(text, key, count.parse()?)?,
        None => write!(text, "{}\n", lines_of(word))?,
    }
    Ok(())
}

/// The settings of words.
fn settings_of(alloc: Global, words: &str) -> Result<String, Fail> {
    let mut text = String::new(alloc);
    for word in words.split_whitespace() {
        put_word(&mut text, word)?;
    }
    Ok(text)
}

/// What bytes are refused for, or `accepted`.
fn fault_in(alloc: Global, bytes: &[u8]) -> Result<String, Fail> {
    match read_plan(alloc, bytes).err() {
        None => Ok("accepted".to_string(alloc)?),
        Some(PlanError::Fault(fault)) => Ok(format!(in alloc; "{fault:?}")?),
        Some(PlanError::OutOfMemory) => Ok("out of memory".to_string(alloc)?),
    }
}

/// What the settings of words are refused for, or `accepted`.
fn fault_of(alloc: Global, words: &str) -> Result<String, Fail> {
    fault_in(alloc, settings_of(alloc, words)?.as_bytes())
}

/// The checks over the whole, each beside neighbours that are accepted.
const WHOLES: &str = "recording='stamped' INT LECTURE window_start=100 window_length=386|Window
recording='stamped' INT LECTURE window_start=100 window_length=387|accepted
recording='stamped' INT LECTURE window_start=0 window_length=387|Window
recording='stamped' INT LECTURE window_start=1 window_length=387|accepted
recording='stamped' LECTURE window_start=100 window_length=19900|accepted
recording='stamped' LECTURE window_start=0 window_length=19901|Gap
recording='stamped' packet_rate=100000 LECTURE window_start=0 window_length=19000|accepted
recording='stamped' packet_rate=100000 LECTURE window_start=0 window_length=19001|Gap
recording='stamped' cycle=409600 LECTURE window_start=100 window_length=1500|Delta
recording='stamped' cycle=409599 LECTURE window_start=100 window_length=1500|accepted
INT LECTURE window_start=100 window_length=1500|NeedsStamps
recording='m2ts' INT LECTURE window_start=100 window_length=1500|accepted
FILES [[service]] name='other' kind='mpe' pid=513 rules=['ff0e::/16']|SamePid
FILES [[service]] name='files' kind='mpe' pid=513 rules=['ff0e::/16']|SameName
carrier='bb' FILES|Carrier";

/// What one line of settings is refused for.
const KEYS: &str = "ULE pid=513|accepted
ULE pid='513'|Type_(Pid)
ULE pid=513.0|Type_(Pid)
ULE pid=1979-05-27|Type_(Pid)
ULE pid=-1|Range(Pid)
ULE pid=31|Range(Pid)
ULE pid=0x20|accepted
ULE pid=8191|Range(Pid)
ULE|Missing(Pid)
ULE speed=1|Unknown
ULE pid=513 rows=256|Unknown
ULE pid=513 urgent=[]|Unknown
ULE pid=513 pid=513|Text
[[service]] name='files' kind='ule' rules=['239.2.0.1/16'] pid=513|Rules
[[service]] name='files' kind='ule' rules=[] pid=513|Rules
[[service]] name='files' kind='ule' rules=[7] pid=513|Type_(Rules)
ULE pid=513 filter=['01:00:5E:01:02:03']|accepted
ULE pid=513 filter=['01:00:5E:01:02']|Range(Filter)
[[service]] name='table' kind='ule' rules=['239.2.0.0/16'] pid=513|Range(Name)
[[service]] name='files' kind='mpeg' rules=['239.2.0.0/16'] pid=513|Range(Kind)
urgent=[] ULE pid=513|Unknown
|Missing(Service)";

/// Urgent rules: a list of texts directly behind the rules, of GSE packets alone. They count into the 128, and bring a service no datagram.
const URGENT: &str = "carrier='bb' FRAMES urgent=[]|accepted
carrier='bb' FRAMES urgent=['239.2.0.0/16','ff0e::/16']|accepted
carrier='bb' FRAMES urgent='239.2.0.0/16'|Type_(Urgent)
carrier='bb' FRAMES urgent=[7]|Type_(Urgent)
carrier='bb' FRAMES filter=7 urgent=[7]|Type_(Urgent)
carrier='bb' BARE rules=[7] urgent=[7]|Type_(Rules)
carrier='bb' FRAMES urgent=['239.2.0.1/16']|Rules
carrier='bb' FRAMES urgent*127|accepted
carrier='bb' FRAMES urgent*128|Rules
carrier='bb' BARE rules*127 urgent*1|accepted
carrier='bb' BARE rules*127 urgent*2|Rules
carrier='bb' BARE rules*0 urgent*1|Rules
carrier='bb' BARE urgent*1|Missing(Rules)
carrier='bb' FRAMES urgent*1 [[service]] name='other' kind='gse' isi=2 rules*1 urgent*125|accepted
carrier='bb' FRAMES urgent*1 [[service]] name='other' kind='gse' isi=2 rules*1 urgent*126|Rules
ULE pid=513 urgent=7|Unknown
[[service]] name='files' kind='mpe' pid=513 rules*1 urgent=[]|Unknown
[[service]] name='files' kind='fec' pid=513 rules*1 urgent=[]|Unknown";

/// Changes: their order, their names and their PIDs, each beside neighbours that are accepted.
const CHANGES: &str = "INT FILES MOVE|accepted
INT FILES OTHER MOVE|accepted
INT FILES MOVE MOVE|Change
INT FILES MOVE [[change]] at=4 [[change.service]] name='files' pid=514|accepted
INT FILES MOVE [[change]] at=2 [[change.service]] name='files' pid=515|Change
INT FILES [[change]] at=3 [[change.service]] name='lecture' pid=514|Change
INT FILES [[change]] at=3 [[change.service]] name='lecture' [[change.service]] name='sport'|Change
INT FILES MOVE [[change.service]] name='files' pid=515|Change
INT FILES [[change]] at=3 [[change.service]] name='files' pid=600|Change
INT FILES OTHER [[change]] at=3 [[change.service]] name='files' pid=515|Change
INT FILES OTHER [[change]] at=3 [[change.service]] name='files' pid=515 [[change.service]] name='other' pid=513|Change
INT FILES MOVE [[change]] at=4 [[change.service]] name='files' pid=513|Change
INT OTHER FILES [[change]] at=3 [[change.service]] name='other' pid=516 [[change]] at=4 [[change.service]] name='files' pid=515|Change
INT OTHER FILES [[change]] at=3 [[change.service]] name='files' pid=516 [[change]] at=4 [[change.service]] name='other' pid=516|Change
INT FILES OTHER [[change]] at=4 [[change.service]] name='other' pid=516|accepted
carrier='bb' INT FRAMES MOVE|Carrier
carrier='bb' FRAMES MOVE|Missing(Int)";

/// What one line of a change is refused for.
const CHANGE_KEYS: &str = "change=[] FILES|Missing(Int)
change=[] INT FILES|Range(Change)
change=3 INT FILES|Type_(Change)
change=[3] INT FILES|Type_(Change)
change=3 INT FILES rows=256|Unknown
INT FILES [[change]] [[change.service]] name='files'|Missing(At)
INT FILES [[change]] at=1 [[change.service]] name='files'|Range(At)
INT FILES [[change]] at=2 [[change.service]] name='files'|accepted
INT FILES [[change]] at=4194304 [[change.service]] name='files'|accepted
INT FILES [[change]] at=4194305 [[change.service]] name='files'|Range(At)
INT FILES [[change]] at=3|Missing(Service)
INT FILES [[change]] speed=3|Unknown
INT FILES [[change]] at=3 [[change.service]] pid=514|Missing(Name)
INT FILES [[change]] at=3 [[change.service]] name=7 pid=31|Type_(Name)
INT FILES MOVE kind='ule'|Unknown
INT FILES [[change]] at=3 [[change.service]] name='' pid=31|Range(Pid)
INT FILES MOVE rules=[7]|Type_(Rules)
INT FILES MOVE rules=['10.0.0.0/8']|accepted";

/// Rules are counted in each version, before the windows are asked; the INT of a later version may need the longest time.
const VERSIONS: &str = "INT FILES [[change]] at=3 [[change.service]] name='files' rules*0|Rules
INT FILES [[change]] at=3 [[change.service]] name='files' rules*1|accepted
INT FILES [[change]] at=3 [[change.service]] name='files' rules*128|accepted
INT FILES [[change]] at=3 [[change.service]] name='files' rules*129|Rules
recording='stamped' INT LECTURE window_start=0 window_length=387 [[change]] at=3 [[change.service]] name='lecture' rules*0|Rules
recording='stamped' INT LECTURE window_start=0 window_length=387 [[change]] at=3 [[change.service]] name='lecture' rules*1|Window
recording='stamped' INT LECTURE window_start=1 window_length=387 [[change]] at=3 [[change.service]] name='lecture' rules*1|accepted
recording='stamped' INT LECTURE window_start=1 window_length=387 [[change]] at=3 [[change.service]] name='lecture' rules*40|Window
INT FILES MOVE rules=['10.0.0.1/8']|Rules";

#[test]
fn each_fault_is_named(rt: HostRuntime) -> Result<(), Fail> {
    for table in &[WHOLES, KEYS, URGENT, CHANGES, CHANGE_KEYS, VERSIONS] {
        expect_lines(rt.alloc(), fault_of, table)?;
    }
    expect("FF", &fault_in(rt.alloc(), &[0xFF])?, "Text")
}

/// A kind and its values; of urgent rules how many there are.
fn put_kind(text: &mut String, kind: &Kind) -> Result<(), AllocError> {
    match kind {
        Kind::Ule {
            pid,
            address,
            packing,
        } => write!(text, "Ule pid {pid}, address {address}, packing {packing}"),
        Kind::Mpe { pid } => write!(text, "Mpe pid {pid}"),
        Kind::Fec {
            pid,
            rows,
            parity,
            window,
        } => write!(
            text,
            "Fec pid {pid}, rows {rows}, parity {parity}, window {window:?}"
        ),
        Kind::Gse {
            isi,
            address,
            urgent,
        } => write!(
            text,
            "Gse isi {isi}, address {address}, urgent {}",
            urgent.len()
        ),
    }
}

/// A line for a service.
fn put_service(text: &mut String, service: &Service) -> Result<(), AllocError> {
    write!(text, "{} ", service.name.text())?;
    put_kind(text, &service.kind)?;
    write!(
        text,
        " up to {} bytes, unicast {:?}, service_id {}, component_tag {}\n",
        longest(&service.kind),
        service.unicast,
        service.service_id,
        service.component_tag
    )
}

/// A line for a change: its record, and for each service that it moves the place, the PID and the number of rules.
fn put_change(text: &mut String, change: &Change) -> Result<(), AllocError> {
    write!(text, "from {} on:", change.at)?;
    for moved in change.moved.items() {
        write!(
            text,
            " {} to {} with rules: {};",
            moved.service,
            moved.pid,
            moved.rules.len()
        )?;
    }
    text.push('\n')
}

/// The values of a plan.
fn put_plan(text: &mut String, plan: &Plan) -> Result<(), AllocError> {
    write!(
        text,
        "{:?}, packet_rate {}, cycle {}, frame_bytes {:?}\n",
        plan.recording, plan.packet_rate, plan.cycle, plan.frame_bytes
    )?;
    for address in [[10, 0, 0, 9], [239, 1, 1, 1], [239, 2, 2, 2]] {
        let service = route(plan, &IpAddress::V4(address));
        write!(text, "{address:?} to {service:?}\n")?;
    }
    for service in plan.services.items() {
        put_service(text, service)?;
    }
    for change in plan.changes.items() {
        put_change(text, change)?;
    }
    Ok(())
}

/// A line for a record: its version, the PIDs of the first two services in it, and which service takes 10.0.0.9 and 239.2.2.2.
fn put_version(text: &mut String, plan: &Plan, at: u32) -> Result<(), AllocError> {
    let version = version_at(plan, at);
    if usize::from(version) > plan.changes.len() || plan.services.len() < 2 {
        return Ok(());
    }
    let first = pid_in(plan, version, 0);
    let second = pid_in(plan, version, 1);
    let unicast = route_in(plan, version, &IpAddress::V4([10, 0, 0, 9]));
    let multicast = route_in(plan, version, &IpAddress::V4([239, 2, 2, 2]));
    write!(
        text,
        "record {at}: version {version}, PID {first:?} and {second:?}"
    )?;
    write!(
        text,
        ", 10.0.0.9 to {unicast:?}, 239.2.2.2 to {multicast:?}\n"
    )
}

/// The values of a plan.
fn text_of(alloc: Global, plan: &Plan) -> Result<String, AllocError> {
    let mut text = String::new(alloc);
    put_plan(&mut text, plan)?;
    Ok(text)
}

/// The plan of a realistic run, with defaults where a key is absent.
const RUN: &str = "Stamped, packet_rate 10000, cycle 20000, frame_bytes None
[10, 0, 0, 9] to None
[239, 1, 1, 1] to Some(0)
[239, 2, 2, 2] to Some(1)
lecture Fec pid 512, rows 1024, parity 64, window Some((100, 1500)) up to 4080 bytes, unicast [255, 255, 255, 255, 255, 255], service_id 10, component_tag 1
files Ule pid 513, address true, packing true up to 32757 bytes, unicast [255, 255, 255, 255, 255, 255], service_id 10, component_tag 2
";

/// A plan that changes, and three of its records. What a change does not give is as it was before it, and not as it was at first.
const CHANGING: &str = "Plain, packet_rate 10000, cycle 20000, frame_bytes None
[10, 0, 0, 9] to None
[239, 1, 1, 1] to None
[239, 2, 2, 2] to Some(1)
other Mpe pid 515 up to 4080 bytes, unicast [255, 255, 255, 255, 255, 255], service_id 1, component_tag 0
files Ule pid 513, address true, packing true up to 32757 bytes, unicast [255, 255, 255, 255, 255, 255], service_id 10, component_tag 2
from 3 on: 1 to 514 with rules: 1;
from 5 on: 1 to 514 with rules: 1; 0 to 516 with rules: 1;
record 2: version 0, PID Some(515) and Some(513), 10.0.0.9 to None, 239.2.2.2 to Some(1)
record 4: version 1, PID Some(515) and Some(514), 10.0.0.9 to Some(1), 239.2.2.2 to None
record 5: version 2, PID Some(516) and Some(514), 10.0.0.9 to Some(1), 239.2.2.2 to None
";

/// The values of a plan and of some of its records.
fn put_records(text: &mut String, plan: &Plan, records: &[u32]) -> Result<(), AllocError> {
    put_plan(text, plan)?;
    for at in records {
        put_version(text, plan, *at)?;
    }
    Ok(())
}

/// The values of the plan of words, and of some of its records.
fn read_of(alloc: Global, words: &str, records: &[u32]) -> Result<String, Fail> {
    let settings = settings_of(alloc, words)?;
    let plan = read_plan(alloc, settings.as_bytes())?;
    let mut text = String::new(alloc);
    put_records(&mut text, &plan, records)?;
    Ok(text)
}

#[test]
fn plans_are_read(rt: HostRuntime) -> Result<(), Fail> {
    let alloc = rt.alloc();
    let run = "recording='stamped' INT LECTURE window_start=100 window_length=1500 FILES";
    expect("a run", &read_of(alloc, run, &[])?, RUN)?;
    let changing = "INT OTHER FILES
[[change]] at=3 [[change.service]] name='files' pid=514 rules=['10.0.0.0/8']
[[change]] at=5 [[change.service]] name='files' [[change.service]] name='other' pid=516";
    expect("changes", &read_of(alloc, changing, &[2, 4, 5])?, CHANGING)
}

/// The plan of one PID.
const ONE_PID: &str = "Plain, packet_rate 10000, cycle 20000, frame_bytes None
[10, 0, 0, 9] to None
[239, 1, 1, 1] to None
[239, 2, 2, 2] to None
ule Ule pid 17, address true, packing true up to 32757 bytes, unicast [255, 255, 255, 255, 255, 255], service_id 1, component_tag 0
";

/// The plan of the sample job.
const SAMPLE: &str = "Stamped, packet_rate 10000, cycle 4000, frame_bytes None
[10, 0, 0, 9] to None
[239, 1, 1, 1] to Some(0)
[239, 2, 2, 2] to Some(1)
lecture Fec pid 512, rows 1024, parity 64, window Some((100, 1500)) up to 4080 bytes, unicast [255, 255, 255, 255, 255, 255], service_id 10, component_tag 1
files Ule pid 513, address true, packing true up to 32757 bytes, unicast [255, 255, 255, 255, 255, 255], service_id 10, component_tag 2
";

/// The plans of the commands without settings.
#[test]
fn plans_without_settings_are_made(rt: HostRuntime) -> Result<(), Fail> {
    let alloc = rt.alloc();
    expect("ule 17", &text_of(alloc, &ule_plan(alloc, 17)?)?, ONE_PID)?;
    expect("sample", &text_of(alloc, &sample_plan(alloc)?)?, SAMPLE)
}
