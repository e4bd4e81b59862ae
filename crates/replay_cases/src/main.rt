// Runs stored call logs and stored cases on the code, and compares the answers and the tables with stored ones.
//
// Of each log there are three files in data/: NAME.log, NAME.answers and NAME.image, the 12,800 bytes of the tables after it. A log starts
// from fresh tables. The logs mixed, wide, isolation and long are random; paper_cases and malformed were written by hand: W1 to W15, and
// each kind of malformed record. short_1, short_16 and short_135 end in a part of as many bytes.
//
// A file NAME.cases has an image, 12,800 bytes, and then for each case
//     its name, 32 bytes, spaces after it;
//     three lengths in bytes, each of two bytes, lowest first: of the changes before, of the log, of the changes after;
//     the changes before: the bytes in which the tables that the case starts from differ from the image;
//     the log: call records, all whole;
//     the answer records;
//     the changes after: the bytes in which the tables after the log differ from those that it started from.
// A change is a place in the image, two bytes, lowest first, and the byte that stands there. R, Q, M, T and X are cases on what documents 01
// and 02 say of each directive; sound_tables has a tick on images that keep or break each rule of "Sound tables".
//
// The answers and tables come from an independent program, written from documents 01 and 02 and sharing nothing with this code; the answers
// of worked_example are the 16 bytes that document 01 prints.
#![tactic(auto)]

mod case; // case.rt: a case, run on the code

ghost use Rattle.std.specs.Prelude.{◌≡◌, ◌+◌, ◌<◌, ◌≤◌, length, IfOk};
ghost use Rattle.records.specs.Layout.{image_size};
ghost use Rattle.replay_cases.specs.StoredCase.{rest_room};

use crate::case::{REST_ROOM, case_holds};
use calllog::layout::{ANSWER_WIDTH, RECORD_WIDTH};
use fresh_tables::start::fresh;
use logio::agreeing::agreeing;
use logio::block::{ANSWERS, BLOCK, replay_block};
use octets::copy::copy_into;
use octets::numbers::{bytes_at, read_u16};
use records::layout::{
    IMAGE_SIZE, POOL_PLACE, POOL_SIZE, QUEUES_PLACE, QUEUES_SIZE, TASKS_PLACE, TASKS_SIZE,
};
use std::fs::File;
use std::io;
use std::io::Write;
use std::ops::Add;
use streams::reading::{fill, open};

// The logs.
const LOGS: [&str; 11] = [
    "empty",
    "worked_example",
    "paper_cases",
    "malformed",
    "short_1",
    "short_16",
    "short_135",
    "mixed",
    "wide",
    "isolation",
    "long",
];

// The files of cases.
const CASES: [&str; 6] = ["R", "Q", "M", "T", "X", "sound_tables"];

// ---- Files

// The room for the name of a file.
const NAME_ROOM: usize = 64;

// Opens the file of a name with an ending.
fn open_named(rt: &HostRuntime, name: &str, ending: &str) -> io::Result<File> {
    let mut room = [0u8; NAME_ROOM];
    let mut left = &mut room[..];
    write!(left, "{name}{ending}")?;
    let length = NAME_ROOM.saturating_sub(left.len());
    open(rt, &room[..length])
}

// Reads until the buffer is full or the file ends. How many bytes stand at its start. A file that can't be opened can't be read.
fn fill_from(file: &io::Result<File>, buffer: &mut [u8]) -> io::Result<usize>
    ensures { IfOk result (λ n. n ≤ length buffer.old) }
{
    match file {
        Ok(file) => fill(file, buffer),
        Err(error) => Err(*error),
    }
}

// Fills the whole buffer.
fn fill_whole(file: &io::Result<File>, buffer: &mut [u8]) -> io::Result<()> {
    if fill_from(file, buffer)? == buffer.len() {
        Ok(())
    } else {
        Err(io::Error::from(io::ErrorKind::UnexpectedEof))
    }
}

// ---- What was found

#[derive(Clone, Copy, Debug, Default, PartialEq, Eq)]
struct Totals {
    files: u64, // logs, or files of cases
    cases: u64,
    records: u64, // answered
    differences: u64,
}

impl Add for Totals {
    type Output = Totals;

    fn add(self, other: Totals) -> Totals {
        Totals {
            files: self.files.wrapping_add(other.files),
            cases: self.cases.wrapping_add(other.cases),
            records: self.records.wrapping_add(other.records),
            differences: self.differences.wrapping_add(other.differences),
        }
    }
}

// Where two byte strings differ first, if they do.
fn first_difference(one: &[u8], two: &[u8]) -> Option<usize> {
    if one == two {
        None
    } else {
        Some(agreeing(one, two))
    }
}

// ---- A log: its answers block by block, then the tables

#[derive(Clone, Copy, Debug, Default, PartialEq, Eq)]
struct Answered {
    records: u64,
    differs_at: Option<u64>, // the record whose answer differs first
}

impl Answered {
    // With a block of so many records more, of which one may be the first whose answer differs.
    fn with_block(self, records: usize, differs_at: Option<usize>) -> Answered {
        Answered {
            records: self.records.wrapping_add(records as u64),
            differs_at: self
                .differs_at
                .or(differs_at.map(|at| self.records.wrapping_add(at as u64))),
        }
    }
}

// Replays the next block of a log and compares its answers with the stored ones: what could not be read differs. How many bytes of the log were
// read.
#[tactic(auto, unfolding(calllog::specs::CallLog::record_count))]
fn compare_block(
    found: &mut Answered,
    log: &io::Result<File>,
    answers: &io::Result<File>,
    queues: &mut [u8],
    pool: &mut [u8],
    tasks: &mut [u8],
) -> usize {
    let mut records = [0u8; BLOCK];
    let mut given = [0u8; ANSWERS];
    let mut stored = [0u8; ANSWERS];
    let replayed = match log {
        Ok(log) => replay_block(log, queues, pool, tasks, &mut records, &mut given),
        Err(error) => Err(*error),
    };
    let differs_at = match (replayed, fill_from(answers, &mut stored)) {
        (Ok(block), Ok(n)) => first_difference(&given[..block.end], &stored[..n]),
        _ => Some(0),
    };
    let block = replayed.unwrap_or_default();
    *found = found.with_block(
        block.end / ANSWER_WIDTH,
        differs_at.map(|at| at / ANSWER_WIDTH),
    );
    block.n
}

// The whole log. The turns have a number, since nothing says that a log ends.
fn compare_answers(
    log: &io::Result<File>,
    answers: &io::Result<File>,
    queues: &mut [u8],
    pool: &mut [u8],
    tasks: &mut [u8],
) -> Answered {
    let mut found = Answered::default();
    for _ in 0..u64::MAX {
        if compare_block(&mut found, log, answers, queues, pool, tasks) < BLOCK {
            break;
        }
    }
    found
}

// The byte of the image that differs first. "An image is the three tables in this order, 12,800 bytes." Room for one byte more shows a stored
// image that is too long.
fn image_difference(
    file: &io::Result<File>,
    queues: &[u8; QUEUES_SIZE],
    pool: &[u8; POOL_SIZE],
    tasks: &[u8; TASKS_SIZE],
) -> Option<usize> {
    let mut image = [0u8; IMAGE_SIZE];
    copy_into(&mut image, QUEUES_PLACE, queues);
    copy_into(&mut image, POOL_PLACE, pool);
    copy_into(&mut image, TASKS_PLACE, tasks);
    let mut stored = [0u8; IMAGE_SIZE + 1];
    match fill_from(file, &mut stored) {
        Ok(n) => first_difference(&image, &stored[..n]),
        Err(_) => Some(0),
    }
}

// Tells of a log in a line.
fn tell_log(rt: &HostRuntime, name: &str, answered: Answered, image: Option<usize>) {
    let _ = print!(rt; "{name}: {} records, answers ", answered.records);
    let _ = match answered.differs_at {
        None => print!(rt; "equal, image "),
        Some(at) => print!(rt; "differ first at record {at}, image "),
    };
    let _ = match image {
        None => println!(rt; "equal"),
        Some(at) => println!(rt; "differs first at byte {at}"),
    };
}

// Replays a log and compares. Records and bytes of the image count from 0.
fn compare_log(rt: &HostRuntime, name: &str) -> Totals {
    let log = open_named(rt, name, ".log");
    let answers = open_named(rt, name, ".answers");
    let image = open_named(rt, name, ".image");
    let mut t = fresh();
    let answered = compare_answers(&log, &answers, &mut t.queues, &mut t.pool, &mut t.tasks);
    let differs_at = image_difference(&image, &t.queues, &t.pool, &t.tasks);
    tell_log(rt, name, answered, differs_at);
    Totals {
        files: 1,
        cases: 0,
        records: answered.records,
        differences: u64::from(answered.differs_at.is_some()) + u64::from(differs_at.is_some()),
    }
}

// ---- A file of cases

// How many bytes the name of a case has, and its whole head.
const CASE_NAME: usize = 32;

const HEAD: usize = CASE_NAME + 6;

// Where the log, the answers and the changes after begin in what follows a case's head, and where that ends.
#[derive(Clone, Copy, Debug, PartialEq, Eq)]
struct Parts {
    log: usize,
    answers: usize,
    after: usize,
    end: usize,
}

fn parts_of(head: &[u8; HEAD]) -> Parts
    ensures { (result.log ≤ result.answers) × ((result.answers ≤ result.after) × (result.after ≤ result.end)) }
{
    let log = length_at(head, CASE_NAME);
    let size = length_at(head, CASE_NAME + 2);
    let answers = log + size;
    let after = answers + size / RECORD_WIDTH * ANSWER_WIDTH;
    let end = after + length_at(head, CASE_NAME + 4);
    Parts {
        log,
        answers,
        after,
        end,
    }
}

// The number in two bytes.
fn length_at(head: &[u8; HEAD], at: usize) -> usize
    requires { at + 2 ≤ 38 }
    ensures { result < 65536 }
{
    usize::from(read_u16(head, at))
}

// Whether the case of which this follows the head holds.
fn rest_holds(base: &[u8], rest: &[u8], p: Parts) -> bool
    requires { (length base.now ≡ image_size) × ((length rest.now ≤ rest_room) × ((p.log ≤ p.answers) × ((p.answers ≤ p.after) × (p.after ≤ length rest.now)))) }
{
    case_holds(
        base,
        &rest[..p.log],
        &rest[p.log..p.answers],
        &rest[p.answers..p.after],
        &rest[p.after..],
    )
}

// A case that was run.
#[derive(Clone, Copy, Debug, PartialEq, Eq)]
struct CaseRun {
    name: [u8; CASE_NAME],
    records: usize, // answered
    holds: bool,
}

// Reads the next case of a file and runs it. None where the file has ended.
fn next_case(file: &io::Result<File>, base: &[u8]) -> io::Result<Option<CaseRun>>
    requires { length base.now ≡ image_size }
{
    let mut head = [0u8; HEAD];
    match fill_from(file, &mut head)? {
        0 => return Ok(None),
        HEAD => {}
        _ => return Err(io::Error::from(io::ErrorKind::UnexpectedEof)),
    }
    let parts = parts_of(&head);
    let mut room = [0u8; REST_ROOM];
    if parts.end > REST_ROOM {
        return Err(io::Error::from(io::ErrorKind::InvalidData));
    }
    let rest = &mut room[..parts.end];
    fill_whole(file, rest)?;
    Ok(Some(CaseRun {
        name: bytes_at(&head, 0),
        records: (parts.after - parts.answers) / ANSWER_WIDTH,
        holds: rest_holds(base, rest, parts),
    }))
}

// Tells which case is another than stored.
fn tell_case(rt: &HostRuntime, file: &str, name: &[u8]) {
    let _ = print!(rt; "{file} differs: ");
    let _ = rt.stdout().write_all(name);
    let _ = println!(rt; "");
}

// Runs all cases of a file, from an image. One that does not hold is named; where the file can't be read on, that is a difference too.
// The turns have a number, since nothing says that a file ends.
fn run_cases(rt: &HostRuntime, file: &io::Result<File>, name: &str, base: &[u8]) -> Totals
    requires { length base.now ≡ image_size }
{
    let mut totals = Totals::default();
    for _ in 0..u64::MAX {
        match next_case(file, base) {
            Ok(Some(case)) => {
                if !case.holds {
                    tell_case(rt, name, &case.name);
                }
                totals = totals
                    + (Totals {
                        files: 0,
                        cases: 1,
                        records: case.records as u64,
                        differences: u64::from(!case.holds),
                    });
            }
            Ok(None) => break,
            Err(_) => {
                totals.differences = totals.differences.wrapping_add(1);
                break;
            }
        }
    }
    totals
}

// The image, and then the cases.
fn read_cases(rt: &HostRuntime, name: &str) -> Totals {
    let file = open_named(rt, name, ".cases");
    let mut base = [0u8; IMAGE_SIZE];
    match fill_whole(&file, &mut base) {
        Ok(()) => run_cases(rt, &file, name, &base),
        Err(_) => Totals {
            differences: 1,
            ..Totals::default()
        },
    }
}

// Runs the cases of a file and tells of them in a line.
fn compare_cases(rt: &HostRuntime, name: &str) -> Totals {
    let found = read_cases(rt, name);
    let _ = println!(rt;
        "{name}: {} cases, {} records, {} differences",
        found.cases, found.records, found.differences
    );
    Totals { files: 1, ..found }
}

fn main(rt: HostRuntime) {
    let mut totals = Totals::default();
    for name in LOGS {
        totals = totals + compare_log(&rt, name);
    }
    for name in CASES {
        totals = totals + compare_cases(&rt, name);
    }
    let _ = println!(rt;
        "{} files, {} cases, {} records, {} differences",
        totals.files, totals.cases, totals.records, totals.differences
    );
}
