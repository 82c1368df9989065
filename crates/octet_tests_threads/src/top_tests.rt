//! Commands over a desk in memory: their texts and files, and what each failed call leaves. Each
//! call that may want memory succeeds here. What is said of other scripts and logs, and of those that
//! are cut or lie, the tests of the built program tell.
use crate::desks::{desk_with, words_of};
use octet_base::OpenGate;
use octet_top::{Status, serve};
use std::alloc::Global;
use std::process::Abort;
use std::sync::Wait;
use std::test::Fail as Failed;
use std::thread::Threads;

const SCRIPT: &[u8] = b"object y 3\nthread\nthread\nread r0 y\n";

const SAID: &[u8] = b"thread 0 done\nthread 1 done 3\nobject y 3\n";

/// Thread 0 has no event; thread 1 has one access and before it `Join(0, 0)`.
const LOG: &[u8] =
    b"OCTL\x01\x02\x00\x00\x00\x00\x00\x00\x00\x00\x00\x00\x00\x01\x00\x00\x00\x01\x01\x00\x00\x00\x00\x00\x00\x00\x00\x00\x00\x00\x00\x00";

/// The same in version 2, with the script's digest.
const SECOND: &[u8] =
    b"OCTL\x02\x02\x8b\x05\x7c\x43\xda\xdd\x83\xde\x73\x7b\x4c\xd3\x9f\xd1\x51\x08\x57\xb7\x55\x36\x9c\x76\x4f\x16\x5f\xb4\x63\xa6\x03\x1c\x53\x6e\x01\x01\x01\x00\x00\x00\xff\x00\x01";

/// A marks file of one thread, which has made nothing, and of an object that starts with 7.
const MARKS: &[u8] =
    b"\x4f\x43\x54\x4d\x01\x00\x00\x00\x00\x29\x00\x00\x00\x29\x01\x41\x42\x43\x44\x45\x46\x47\x48\x49\x4a\x4b\x4c\x4d\x4e\x4f\x50\x51\x52\x53\x54\x55\x56\x57\x58\x59\x5a\x5b\x5c\x5d\x5e\x5f\x60\x00\x00\x00\x00\x00\x00\x00\x07\x3d\x21\x2e\x93\x0b\x6d\x97\x63\x02\x00\x00\x00\x09\x00\x00\x00\x09\x00\x00\x00\x00\x00\x00\x00\x00\x00\x60\x67\xd3\xec\x15\x7c\x6c\xe9";

const MARKS_SAID: &[u8] =
    b"threads 1\ndeclared 4142434445464748494a4b4c4d4e4f505152535455565758595a5b5c5d5e5f60\nobject 0 7\nend 0 events 0\nwhole\n";

/// The file is taken and its lines are said, and then nothing more can be taken.
const MARKS_UNREAD: &[u8] =
    b"threads 1\ndeclared 4142434445464748494a4b4c4d4e4f505152535455565758595a5b5c5d5e5f60\nobject 0 7\nend 0 events 0\nread: failed\n";

/// All its lines are said, and some first bytes of the last one.
const MARKS_CUT: &[u8] =
    b"threads 1\ndeclared 4142434445464748494a4b4c4d4e4f505152535455565758595a5b5c5d5e5f60\nobject 0 7\nend 0 events 0\nwh";

/// The status, what is said, the file `L`, and how many takes and other calls failed.
type Left = (Status, &'static [u8], Option<&'static [u8]>, (u64, u64));

/// Over a desk with the script as `S` and these bytes as `K`, whose calls fail so, the words leave this.
fn leaves<R: Threads + Wait + Sync + Abort>(
    rt: &R,
    alloc: Global,
    log: &[u8],
    fails: &[(u64, u32)],
    line: &str,
    left: Left,
) -> Result<(), Failed> {
    let mut desk = desk_with(alloc, SCRIPT, log, fails)?;
    let answer = serve(rt, alloc, &words_of(alloc, line)?, &mut desk, &OpenGate);
    let (status, said, file, faults) = left;
    assert_eq!(rt; answer, status.code(), "{line}");
    assert_eq!(rt; desk.said(), said, "{line}");
    assert_eq!(rt; desk.file("L"), file, "{line}");
    assert_eq!(rt; desk.faults(), faults, "{line}");
    Ok(())
}

const CANONICAL: &[u8] = b"fuel 16384\nobject y 3\nthread\nthread\nread r0 y\n";

const SHOWN: &[u8] =
    b"threads 2\nthread 0 accesses 0 marks 0\nthread 1 accesses 1 marks 1\ngap 0 join 0 0\n";

const SERIAL: &[u8] = b"serial\nregion 1:0\nthread 0 done\nthread 1 done 3\nobject y 3\n";

const READ_FAILED: &[u8] = b"read: failed\n";

/// Each with its status, what is said and what is written.
const COMMANDS: &[(&str, Status, &[u8], Option<&[u8]>)] = &[
    ("run S L", Status::Done, SAID, Some(SECOND)),
    ("locked S L", Status::Done, SAID, Some(LOG)),
    ("tidy S", Status::Done, CANONICAL, None),
    ("tidy T", Status::Read, READ_FAILED, None),
    ("turns S L 0", Status::Done, SAID, Some(LOG)),
    ("show K", Status::Done, SHOWN, None),
    ("replay S K", Status::Done, SAID, None),
    ("parallel S K", Status::Done, SAID, None),
    ("verify S K", Status::Done, b"ordered\n", None),
    ("regions S K", Status::Done, SERIAL, None),
    (
        "slice S K 1 1",
        Status::Done,
        b"slice 1:1 read y 3\nevents 2 of 2\n",
        None,
    ),
    ("stop S K y 3", Status::Done, b"stop 1:1 read y 3\n", None),
    (
        "trace S K",
        Status::Done,
        b"1:0 join 0 0\n1:1 read y 3 line 4\n",
        None,
    ),
    (
        "profile S K y",
        Status::Done,
        b"read 1\nwrite 0\nother 1\n",
        None,
    ),
    ("convert S K L", Status::Done, b"converted\n", Some(SECOND)),
];

/// With ample memory: a program that always answered that memory was refused would fail here.
#[test]
fn main_job_is_not_refused_for_memory(rt: HostRuntime) -> Result<(), Failed> {
    for &(line, status, said, file) in COMMANDS {
        leaves(
            &rt,
            rt.alloc(),
            LOG,
            &[],
            line,
            (status, said, file, (0, 0)),
        )?;
    }
    Ok(())
}

const WHOLE: usize = usize::MAX;

/// The calls that fail, and how many bytes each lets through. Then the status, how much of the log
/// is written, what is said, and how many calls failed.
type Failure = (
    [(u64, u32); 2],
    Status,
    Option<usize>,
    &'static [u8],
    (u64, u64),
);

/// The calls are a take, a begin, an add, a finish and a say.
const FAILURES: &[Failure] = &[
    ([(6, 0), (7, 0)], Status::Done, Some(WHOLE), SAID, (0, 0)),
    ([(1, 9), (3, 0)], Status::Read, None, READ_FAILED, (1, 0)),
    ([(1, 9), (2, 0)], Status::Write, None, b"", (1, 1)),
    ([(2, 9), (3, 0)], Status::Write, None, b"", (0, 1)),
    ([(3, 10), (4, 0)], Status::Write, Some(10), b"", (0, 1)),
    ([(3, 35), (4, 0)], Status::Write, Some(35), b"", (0, 1)),
    ([(4, 9), (5, 0)], Status::Write, Some(WHOLE), b"", (0, 1)),
    ([(5, 3), (6, 0)], Status::Write, Some(WHOLE), b"thr", (0, 1)),
];

/// The calls are a take, a begin, the adds of the head, of one piece and of the tail, a finish and a
/// say.
const LIVE_FAILURES: &[Failure] = &[
    ([(8, 0), (9, 0)], Status::Done, Some(WHOLE), SAID, (0, 0)),
    ([(1, 9), (3, 0)], Status::Read, None, READ_FAILED, (1, 0)),
    ([(1, 9), (2, 0)], Status::Write, None, b"", (1, 1)),
    ([(2, 9), (3, 0)], Status::Write, None, b"", (0, 1)),
    ([(3, 10), (4, 0)], Status::Write, Some(10), b"", (0, 1)),
    ([(4, 2), (5, 0)], Status::Write, Some(40), b"", (0, 1)),
    ([(5, 1), (6, 0)], Status::Write, Some(45), b"", (0, 1)),
    ([(6, 9), (7, 0)], Status::Write, Some(WHOLE), b"", (0, 1)),
    ([(7, 3), (8, 0)], Status::Write, Some(WHOLE), b"thr", (0, 1)),
];

/// The calls are a take of the file and a say of its lines, and then a take of no bytes and a say.
const MARKS_FAILURES: &[Failure] = &[
    ([(5, 0), (6, 0)], Status::Done, None, MARKS_SAID, (0, 0)),
    ([(1, 9), (3, 0)], Status::Read, None, READ_FAILED, (1, 0)),
    ([(1, 9), (2, 0)], Status::Write, None, b"", (1, 1)),
    ([(2, 3), (3, 0)], Status::Write, None, b"thr", (0, 1)),
    ([(3, 9), (5, 0)], Status::Read, None, MARKS_UNREAD, (1, 0)),
    ([(4, 2), (5, 0)], Status::Write, None, MARKS_CUT, (0, 1)),
];

fn front(whole: &'static [u8], length: Option<usize>) -> Option<&'static [u8]> {
    let length = length?;
    Some(&whole[..length.min(whole.len())])
}

/// The call after the one that ends the run would fail too, and be counted: it is not made.
#[test]
fn failed_calls_leave_prefixes(rt: HostRuntime) -> Result<(), Failed> {
    for (line, taken, whole, rows) in [
        ("locked S L", LOG, LOG, FAILURES),
        ("run S L", LOG, SECOND, LIVE_FAILURES),
        ("marks K", MARKS, MARKS, MARKS_FAILURES),
    ] {
        for &(fails, status, written, said, faults) in rows {
            let left = (status, said, front(whole, written), faults);
            leaves(&rt, rt.alloc(), taken, &fails, line, left)?;
        }
    }
    Ok(())
}
