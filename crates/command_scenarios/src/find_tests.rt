//! `find 600` over recordings by hand: which PID each rule of the INT has. The columns are those of `runs`.
use crate::runs::all_end;
use std::test::Fail;

/// Most could mislead: what is not to be followed names another PID.
const CASES: &str = "an empty recording|find,600||head|
all three tables|find,600|PAT@0 PMT@8190 INT@600|both|
without the PMT|find,600|PAT@0 INT@600|neither|
what `tables` writes of a sliced lecture and files|find,600|PAT@0 PMT@8190 INT_SLICED@600|both|
the same without the PMT|find,600|PAT@0 INT_SLICED@600|neither|
the INT first|find,600|INT@600 PAT@0 PMT@8190|both|
no INT|find,600|PAT@0 PMT@8190|head|
the INT on another PID|find,600|PAT@0 PMT@8190 INT@601|head|
an INT of two sections|find,600|INT_PART@600 INT_REST@600:1 PAT@0 PMT@8190|head|
an INT of two sections before one of one|find,600|INT_PART@600 INT_REST@600:1 INT@600:2 PAT@0 PMT@8190|both|
a later version of the INT|find,600|INT@600 INT_LATER@600:1 PAT@0 PMT@8190|both|
no PAT|find,600|PMT@8190 INT@600|neither|
the PMT before the PAT|find,600|PMT@8190 PAT@0 INT@600|neither|
the same packet of the PMT before the PAT and after|find,600|PMT@8190 PAT@0 PMT@8190 INT@600|both|
a PMT that begins before the PAT and ends after|find,600|PMT_LONG/0@8190 PAT@0 PMT_LONG/1@8190:1 PMT_LONG/2@8190:2 INT@600|neither|
a PAT in two packets|find,600|PAT_LONG/0@0 PAT_LONG/1@0:1 PMT@8190 INT@600|both|
the PMT between the packets of the PAT|find,600|PAT_LONG/0@0 PMT@8190 PAT_LONG/1@0:1 INT@600|neither|
a PAT that is not in force yet|find,600|PAT_NEXT@0 PAT@0:1 PMT_OTHER@8189 PMT@8190 INT@600|both|
a PAT of several sections|find,600|PAT_PART@0 PMT@8189 INT@600|neither|
a damaged PAT|find,600|PAT_BROKEN@0 PAT@0:1 PMT_OTHER@8189 PMT@8190 INT@600|both|
a later version of the PAT|find,600|PAT@0 PAT_LATER@0:1 PMT_OTHER@8189 PMT@8190 INT@600|both|
another transport stream|find,600|PAT_OTHER@0 PMT@8190 INT@600|neither|
program 0 first|find,600|PAT_NETWORK@0 PMT_0@100 PMT@8190 INT@600|both|
service_id 0|find,600|PAT_NETWORK@0 PMT_0@100 PMT@8190 INT_0_AND_10@600|head 239.1.0.0/16,0,1,- 239.2.0.0/16,10,2,513|
two programs of one number|find,600|PAT_TWICE@0 PMT_OTHER@8189 PMT@8190 INT@600|both|
two programs of one number, the PMT on the second one's PID|find,600|PAT_TWICE@0 PMT@8189 INT@600|neither|
two programs on one PID|find,600|PAT_TWO@0 PMT_11_SECOND@8190 PMT@8190:1 INT_10_AND_11@600|head 239.1.0.0/16,10,1,512 239.2.0.0/16,11,2,513|
no such program|find,600|PAT@0 PMT@8190 PMT_11_SECOND@8190:1 INT_10_AND_11@600|head 239.1.0.0/16,10,1,512 239.2.0.0/16,11,2,-|
the PMT on another PID|find,600|PAT@0 PMT@8189 INT@600|neither|
a PMT of another program first|find,600|PAT@0 PMT_11_SECOND@8190 PMT@8190:1 INT@600|both|
the PMT on PID 31|find,600|PAT_31@0 PMT@31 INT@600|neither|
the PMT on PID 32|find,600|PAT_32@0 PMT@32 INT@600|both|
the PMT on PID 8191|find,600|PAT_8191@0 PMT@8191 INT@600|neither|
the PMT on the PID of the INT|find,600|PAT_600@0 INT@600 PMT@600:1|both|
the PMT on the PID of the INT, which comes last|find,600|PAT_600@0 PMT@600 INT@600:1|both|
a PMT that is not in force yet|find,600|PAT@0 PMT_NEXT@8190 PMT@8190:1 INT@600|both|
a damaged PMT|find,600|PAT@0 PMT_BROKEN@8190 PMT@8190:1 INT@600|both|
a later version of the PMT|find,600|PAT@0 PMT@8190 PMT_LATER@8190:1 INT@600|both|
no such component_tag|find,600|PAT@0 PMT_FIRST@8190 INT@600|head 239.1.0.0/16,10,1,512 239.2.0.0/16,10,2,-|
two streams of one tag|find,600|PAT@0 PMT_SAME_TAG@8190 INT@600|head 239.1.0.0/16,10,1,512 239.2.0.0/16,10,2,-|
a stream without descriptors and one with two|find,600|PAT@0 PMT_DESCRIPTORS@8190 INT@600|both|
a PMT over three packets|find,600|PAT@0 PMT_LONG/0@8190 PMT_LONG/1@8190:1 PMT_LONG/2@8190:2 INT@600|both|
a PMT over three packets, one of them lost|find,600|PAT@0 PMT_LONG/0@8190 PMT_LONG/2@8190:2 INT@600|neither|
a PMT over three packets, one of them lost, sent again|find,600|PAT@0 PMT_LONG/0@8190 PMT_LONG/2@8190:2 PMT_LONG/0@8190:3 PMT_LONG/1@8190:4 PMT_LONG/2@8190:5 INT@600|both|
records that are no packets, and bytes after the last|find,600|46*188 PAT@0 47FF*94 PMT@8190 INT@600 47*187|both|";

/// ISO/IEC 13818-1 clause 2.4.4, EN 301 192 clause 8.4, and the rules of the profile.
#[test]
fn each_rule_has_the_pid_that_pat_and_pmt_name(rt: HostRuntime) -> Result<(), Fail> {
    all_end(rt.alloc(), CASES)
}
