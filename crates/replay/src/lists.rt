// The recorded list of an image against the face's: whole, in a buffer that is one word short, and each pass's part.
ghost use Rattle.std.specs.Prelude.{◌≡◌, ◌+◌, ◌*◌, ◌<◌, ◌≤◌, length, IfOk, OnErr};
ghost use Rattle.recording.specs.Told.{record_words, record_bytes, Within, list_differences};
ghost use Rattle.replay.specs.Differences.{list_numbers, words_in, zeros, list_difference, short_difference, parts_differences, lists_differences};

use crate::ask;
use crate::ask::Asked;
use recording::{Case, Numbers, Part, Parts, RECORD_WORDS};
use std::io;

// Words for as many records as a file of main's ROOM bytes can hold.
const WORDS: usize = 225000;

// Zeros for the words of an answer. Whoever takes them knows their number and not each of them, which spares counting.
fn blank() -> [u16; WORDS]
    ensures { (result ≡ zeros) × (225000 ≡ length result) }
{
    [0; WORDS]
}

// The answer, its records in the first `size` words.
fn answer_in(asked: Asked, image: &[u8], words: &mut [u16], size: usize) -> Numbers
    requires { size ≤ length words.old }
    ensures value { (result ≡ list_numbers asked image.now size) × (words.new ≡ words_in asked image.now size words.old) }
    ensures words_len { length words.new ≡ length words.old }
{
    ask::of_listed(ask::list_of(asked, image, &mut words[..size]))
}

// A list that is asked for with room for the recorded records and no more.
fn list_in(
    rt: &impl Print,
    case: Case,
    name: &[u8],
    asked: Asked,
    file: &[u8],
    part: Part,
    image: &[u8],
    words: &mut [u16],
) -> io::Result<usize>
    requires { Within file.now part × (record_words * part.count ≤ length words.old) }
    ensures value { IfOk result (λ n. (n ≡ list_differences case.refusal file.now part (list_numbers asked image.now (record_words * part.count)) words.new) × (n ≤ part.count + 1)) }
    ensures err { OnErr result (0 < list_differences case.refusal file.now part (list_numbers asked image.now (record_words * part.count)) words.new) }
    ensures words_value { words.new ≡ words_in asked image.now (record_words * part.count) words.old }
{
    let answer = answer_in(asked, image, words, RECORD_WORDS * part.count);
    recording::records_differ(rt, case, name, file, part, answer, words)
}

fn list_differs(
    rt: &impl Print,
    case: Case,
    name: &[u8],
    asked: Asked,
    file: &[u8],
    part: Part,
    image: &[u8],
) -> io::Result<usize>
    requires { Within file.now part × (length file.now ≤ 450000) }
    ensures ok { IfOk result (λ n. (n ≡ list_difference asked file.now part case.refusal image.now) × (n ≤ 56251)) }
    ensures err { OnErr result (0 < list_difference asked file.now part case.refusal image.now) }
{
    let mut words = blank();
    list_in(rt, case, name, asked, file, part, image, &mut words)
}

// Where there is a record, a buffer that is one word short is refused by 9.
fn short_differs(rt: &impl Print, case: Case, count: usize, image: &[u8]) -> io::Result<usize>
    requires { record_bytes * count ≤ 450000 }
    ensures ok { IfOk result (λ n. (n ≡ short_difference count image.now) × (n ≤ 1)) }
    ensures err { OnErr result (0 < short_difference count image.now) }
{
    if count == 0 {
        return Ok(0);
    }
    let mut words = blank();
    let answer = answer_in(Asked::Whole, image, &mut words, RECORD_WORDS * count - 1);
    let recorded = Numbers(9, 0, 0, 0, 0, 0);
    recording::differs(rt, case, b"list, one word short", recorded, answer)
}

// Each pass's list against its part of the recorded one.
fn parts_differ(
    rt: &impl Print,
    case: Case,
    file: &[u8],
    parts: Parts,
    image: &[u8],
) -> io::Result<usize>
    requires { Within file.now parts.resolve × Within file.now parts.access × Within file.now parts.linear × (length file.now ≤ 450000) }
    ensures ok { IfOk result (λ n. (n ≡ parts_differences parts file.now case.refusal image.now) × (n ≤ 168753)) }
    ensures err { OnErr result (0 < parts_differences parts file.now case.refusal image.now) }
{
    let Parts {
        resolve,
        access,
        linear,
    } = parts;
    let a = list_differs(
        rt,
        case,
        b"resolve_list",
        Asked::Resolve,
        file,
        resolve,
        image,
    )?;
    let b = list_differs(rt, case, b"access_list", Asked::Access, file, access, image)?;
    let c = list_differs(rt, case, b"linear_list", Asked::Linear, file, linear, image)?;
    Ok(a + b + c)
}

// How many of the lists differ from the recorded one.
pub fn differ(
    rt: &impl Print,
    case: Case,
    file: &[u8],
    at: usize,
    count: usize,
    image: &[u8],
) -> io::Result<usize>
    requires { (at + record_bytes * count ≤ length file.now) × (length file.now ≤ 450000) }
    ensures ok { IfOk result (λ n. (n ≡ lists_differences file.now at count case.refusal image.now) × (n ≤ 400000)) }
    ensures err { OnErr result (0 < lists_differences file.now at count case.refusal image.now) }
{
    let whole = recording::part_of(at, count);
    let parts = recording::parts_of(file, at, count);
    let a = list_differs(rt, case, b"list", Asked::Whole, file, whole, image)?;
    let b = short_differs(rt, case, count, image)?;
    let c = parts_differ(rt, case, file, parts, image)?;
    Ok(a + b + c)
}
