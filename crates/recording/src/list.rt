// The records of a recorded list: the part of each pass, and a part against the words of an answer.
ghost use Rattle.std.specs.Prelude.{◌≡◌, ◌+◌, ◌*◌, ◌<◌, ◌≤◌, length, IfOk, OnErr};
ghost use Rattle.recording.specs.Told.{numbers, difference, record_words, record_bytes, record_at, record_in, Within};
ghost use Rattle.recording.specs.Told.{other_records, list_differences, run_below, parts_of};

use crate::tell::{Case, Numbers};
use crate::{read, tell};
use std::io;

// Codes below 50 are resolve's, from there to 59 access's, and the rest linear's.
const ACCESS: usize = 50;

const LINEAR: usize = 60;

// A record is four words: code, place, related and entry. Each is two bytes in the file.
pub const RECORD_WORDS: usize = 4;

pub const RECORD_BYTES: usize = 2 * RECORD_WORDS;

// Some of the recorded records: where they start, and how many.
#[derive(Clone, Copy)]
pub struct Part {
    pub at: usize,
    pub count: usize,
}

// The parts of the three passes.
#[derive(Clone, Copy)]
pub struct Parts {
    pub resolve: Part,
    pub access: Part,
    pub linear: Part,
}

pub fn part_of(at: usize, count: usize) -> Part
    ensures { (result.at ≡ at) × (result.count ≡ count) }
{
    Part { at, count }
}

// A list's refusal and how many records it has, with one of them beside.
fn with_record(head: Numbers, code: usize, place: usize, related: usize, entry: usize) -> Numbers
    ensures { result ≡ numbers head.0 head.1 code place related entry }
{
    Numbers(head.0, head.1, code, place, related, entry)
}

fn recorded_with(file: &[u8], at: usize, head: Numbers) -> Numbers
    requires { at + record_bytes ≤ length file.now }
    ensures { result ≡ record_at file.now at head }
{
    let code = read::u16_at(file, at);
    let place = read::u16_at(file, at + 2);
    let related = read::u16_at(file, at + 4);
    let entry = read::u16_at(file, at + 6);
    with_record(head, code, place, related, entry)
}

fn answered_with(words: &[u16], k: usize, head: Numbers) -> Numbers
    requires { k + record_words ≤ length words.now }
    ensures { result ≡ record_in words.now k head }
{
    let code = usize::from(words[k]);
    let place = usize::from(words[k + 1]);
    let related = usize::from(words[k + 2]);
    let entry = usize::from(words[k + 3]);
    with_record(head, code, place, related, entry)
}

// A recorded record against the one of an answer: 1 where they differ, which is told.
fn record_differs(
    rt: &impl Print,
    case: Case,
    asked: &[u8],
    file: &[u8],
    at: usize,
    words: &[u16],
    k: usize,
    head: Numbers,
) -> io::Result<usize>
    requires { (at + record_bytes ≤ length file.now) × (k + record_words ≤ length words.now) }
    ensures ok { IfOk result (λ n. (n ≡ difference (record_at file.now at head) (record_in words.now k head)) × (n ≤ 1)) }
    ensures err { OnErr result (0 < difference (record_at file.now at head) (record_in words.now k head)) }
{
    let recorded = recorded_with(file, at, head);
    let answered = answered_with(words, k, head);
    tell::differs(rt, case, asked, recorded, answered)
}

// How many of the recorded records, as many as `head` says, are not the answer's.
fn others(
    rt: &impl Print,
    case: Case,
    asked: &[u8],
    file: &[u8],
    at: usize,
    words: &[u16],
    head: Numbers,
) -> io::Result<usize>
    requires { (at + record_bytes * head.1 ≤ length file.now) × (record_words * head.1 ≤ length words.now) }
    ensures ok { IfOk result (λ n. (n ≡ other_records file.now at head words.now head.1) × (n ≤ head.1)) }
    ensures err { OnErr result (0 < other_records file.now at head words.now head.1) }
{
    let count = head.1;
    let mut differ = 0;
    for i in 0..count {
        differ += record_differs(
            rt,
            case,
            asked,
            file,
            at + RECORD_BYTES * i,
            words,
            RECORD_WORDS * i,
            head,
        )?;
    }
    Ok(differ)
}

// How many records the list starts with whose codes are below `code`.
fn run_below(file: &[u8], at: usize, count: usize, code: usize) -> usize
    requires { at + record_bytes * count ≤ length file.now }
    ensures { (result ≡ run_below file.now at code count) × (result ≤ count) }
{
    for i in 0..count {
        if code <= read::u16_at(file, at + RECORD_BYTES * i) {
            return i;
        }
    }
    count
}

// Each pass's part of a list.
pub fn parts_of(file: &[u8], at: usize, count: usize) -> Parts
    requires { at + record_bytes * count ≤ length file.now }
    ensures value { result ≡ parts_of file.now at count }
    ensures within { Within file.now result.resolve × Within file.now result.access × Within file.now result.linear }
{
    let n = run_below(file, at, count, ACCESS);
    let then = at + RECORD_BYTES * n;
    let rest = count - n;
    let m = run_below(file, then, rest, LINEAR);
    let resolve = part_of(at, n);
    let access = part_of(then, m);
    let linear = part_of(then + RECORD_BYTES * m, rest - m);
    Parts {
        resolve,
        access,
        linear,
    }
}

// An answer and its words against a part of the recorded list: how many differ of its head and its records. Each is told.
pub fn records_differ(
    rt: &impl Print,
    case: Case,
    asked: &[u8],
    file: &[u8],
    part: Part,
    answer: Numbers,
    words: &[u16],
) -> io::Result<usize>
    requires { Within file.now part × (record_words * part.count ≤ length words.now) }
    ensures ok { IfOk result (λ n. (n ≡ list_differences case.refusal file.now part answer words.now) × (n ≤ part.count + 1)) }
    ensures err { OnErr result (0 < list_differences case.refusal file.now part answer words.now) }
{
    let head = Numbers(case.refusal, part.count, 0, 0, 0, 0);
    let first = tell::differs(rt, case, asked, head, answer)?;
    Ok(first + others(rt, case, asked, file, part.at, words, head)?)
}
