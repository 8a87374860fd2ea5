// Replays recorded/answers.bin through the public face and prints what differs. Its layout is in recorded/README.md.
// A read or a write that fails ends it: that is told on standard error, and the exit status is 1.
#![tactic(auto)]

mod ask;
mod lists;

ghost use Rattle.std.specs.Prelude.{◌≡◌, ◌+◌, ◌<◌, ◌≤◌, length, IfOk, OnErr};
ghost use Rattle.rules.specs.Linear.{linear};
ghost use Rattle.recording.specs.Told.{difference, verdict_at, reply_at};
ghost use Rattle.replay.specs.Differences.{of_verdict, of_reply, pass_difference, pass_differences, verdict_differences, question_differences};
ghost use Rattle.replay.specs.Differences.{place_of, differ_of, name_step, names_step, answers_step, image_step, images_step};
ghost use Rattle.replay.specs.Differences.{name_told, names_told, answers_told, image_told, images_told};

use recording::{Case, Numbers, RECORD_BYTES};
use std::io;
use std::process::ExitCode;
use typeck::{Refusal, Verdict};

// More than the recorded answers have: input that fills it is too long.
const ROOM: usize = 450000;

// Zeros for what is read.
fn room_for_all() -> [u8; ROOM]
    ensures { 450000 ≡ length result }
{
    [0; ROOM]
}

// Where the reading goes on and how many differences were told. Where the answers end too early there is none.
#[derive(Clone, Copy)]
struct Step {
    at: usize,
    differ: usize,
}

// A verdict of the face against the recorded one.
fn pass_differs(
    rt: &impl Print,
    case: Case,
    asked: &[u8],
    file: &[u8],
    at: usize,
    verdict: Verdict,
) -> io::Result<usize>
    requires { at + 12 ≤ length file.now }
    ensures ok { IfOk result (λ n. (n ≡ difference (verdict_at file.now at case.refusal) (of_verdict verdict)) × (n ≤ 1)) }
    ensures err { OnErr result (0 < difference (verdict_at file.now at case.refusal) (of_verdict verdict)) }
{
    recording::verdict_differs(rt, case, asked, file, at, ask::of_verdict(verdict))
}

// The refusal, and each pass asked by itself.
fn passes_differ(
    rt: &impl Print,
    case: Case,
    file: &[u8],
    at: usize,
    image: &[u8],
) -> io::Result<usize>
    requires { at + 36 ≤ length file.now }
    ensures ok { IfOk result (λ n. (n ≡ pass_differences file.now at case.refusal image.now) × (n ≤ 4)) }
    ensures err { OnErr result (0 < pass_differences file.now at case.refusal image.now) }
{
    let recorded = Numbers(case.refusal, 0, 0, 0, 0, 0);
    let refused = ask::of_refusal(typeck::refused(image));
    let a = recording::differs(rt, case, b"refused", recorded, refused)?;
    let b = pass_differs(rt, case, b"resolve", file, at, typeck::resolve(image))?;
    let c = pass_differs(rt, case, b"access", file, at + 12, typeck::access(image))?;
    let d = pass_differs(rt, case, b"linear", file, at + 24, typeck::linear(image))?;
    Ok(a + b + c + d)
}

// The passes asked at once.
fn verdicts_differ(
    rt: &impl Print,
    case: Case,
    file: &[u8],
    at: usize,
    image: &[u8],
) -> io::Result<usize>
    requires { at + 36 ≤ length file.now }
    ensures ok { IfOk result (λ n. (n ≡ verdict_differences file.now at case.refusal image.now) × (n ≤ 3)) }
    ensures err { OnErr result (0 < verdict_differences file.now at case.refusal image.now) }
{
    let verdicts = ask::verdicts_of(image);
    let a = pass_differs(rt, case, b"verdicts, resolve", file, at, verdicts.resolve)?;
    let b = pass_differs(
        rt,
        case,
        b"verdicts, access",
        file,
        at + 12,
        verdicts.access,
    )?;
    let c = pass_differs(
        rt,
        case,
        b"verdicts, linear",
        file,
        at + 24,
        verdicts.linear,
    )?;
    Ok(a + b + c)
}

// The linear pass in a table of rows that it is lent.
fn lent_differs(
    rt: &impl Print,
    case: Case,
    file: &[u8],
    at: usize,
    image: &[u8],
) -> io::Result<usize>
    requires { at + 36 ≤ length file.now }
    ensures ok { IfOk result (λ n. (n ≡ pass_difference linear file.now (at + 24) case.refusal image.now) × (n ≤ 1)) }
    ensures err { OnErr result (0 < pass_difference linear file.now (at + 24) case.refusal image.now) }
{
    let verdict = linear_lent::linear_here(image);
    pass_differs(rt, case, b"linear, rows lent", file, at + 24, verdict)
}

// An answer of the face about a name against the recorded one.
fn reply_differs(
    rt: &impl Print,
    case: Case,
    asked: &[u8],
    file: &[u8],
    at: usize,
    reply: Result<bool, Refusal>,
) -> io::Result<usize>
    requires { at < length file.now }
    ensures ok { IfOk result (λ n. (n ≡ difference (reply_at file.now at case.refusal) (of_reply reply)) × (n ≤ 1)) }
    ensures err { OnErr result (0 < difference (reply_at file.now at case.refusal) (of_reply reply)) }
{
    recording::answer_differs(rt, case, asked, file, at, ask::of_reply(reply))
}

// The three questions about one name.
fn questions_differ(
    rt: &impl Print,
    case: Case,
    file: &[u8],
    at: usize,
    image: &[u8],
    name: &[u8],
) -> io::Result<usize>
    requires { at + 3 ≤ length file.now }
    ensures ok { IfOk result (λ n. (n ≡ question_differences file.now at case.refusal image.now name.now) × (n ≤ 3)) }
    ensures err { OnErr result (0 < question_differences file.now at case.refusal image.now name.now) }
{
    let state = typeck::is_state(image, name);
    let declared = typeck::is_declared_asset(image, name);
    let known = typeck::is_known_asset(image, name);
    let a = reply_differs(rt, case, b"is_state", file, at, state)?;
    let b = reply_differs(rt, case, b"is_declared_asset", file, at + 1, declared)?;
    let c = reply_differs(rt, case, b"is_known_asset", file, at + 2, known)?;
    Ok(a + b + c)
}

// One name that is asked about.
fn name_step(
    rt: &impl Print,
    case: Case,
    file: &[u8],
    at: usize,
    image: &[u8],
) -> io::Result<Option<Step>>
    requires { at ≤ length file.now }
    ensures value { IfOk result (λ step. step ≡ name_step file.now case.refusal image.now at) }
    ensures at_in_bounds { IfOk result (λ step. (place_of step ≤ length file.now) × (differ_of step ≤ 3)) }
    ensures err { OnErr result (0 < name_told file.now case.refusal image.now at) }
{
    let n = file.len();
    if n - at < 1 {
        return Ok(None);
    }
    let size = recording::u8_at(file, at);
    let from = at + 1;
    if n - from < size + 3 {
        return Ok(None);
    }
    let to = from + size;
    let differ = questions_differ(rt, case, file, to, image, &file[from..to])?;
    Ok(Some(Step { at: to + 3, differ }))
}

// The names that are asked about.
fn names_step(
    rt: &impl Print,
    case: Case,
    file: &[u8],
    at: usize,
    count: usize,
    image: &[u8],
) -> io::Result<Option<Step>>
    requires { (at ≤ length file.now) × (count < 256) }
    ensures value { IfOk result (λ step. step ≡ names_step file.now case.refusal image.now count at) }
    ensures at_in_bounds { IfOk result (λ step. (place_of step ≤ length file.now) × (differ_of step ≤ 768)) }
    ensures err { OnErr result (0 < names_told file.now case.refusal image.now count at) }
{
    let mut next = at;
    let mut differ = 0;
    for _name in 0..count {
        let found = name_step(rt, case, file, next, image)?;
        let Some(step) = found else {
            return Ok(None);
        };
        next = step.at;
        differ += step.differ;
    }
    Ok(Some(Step { at: next, differ }))
}

// The answers on one image, from its refusal on.
fn answers_step(
    rt: &impl Print,
    file: &[u8],
    at: usize,
    number: usize,
    image: &[u8],
) -> io::Result<Option<Step>>
    requires { (at + 41 ≤ length file.now) × (length file.now ≤ 450000) }
    ensures value { IfOk result (λ step. step ≡ answers_step file.now at image.now) }
    ensures at_in_bounds { IfOk result (λ step. (place_of step ≤ length file.now) × (differ_of step ≤ 500000)) }
    ensures err { OnErr result (0 < answers_told file.now at image.now) }
{
    let refusal = recording::u8_at(file, at);
    let case = Case { number, refusal };
    let count = recording::u32_at(file, at + 37);
    let list = at + 41;
    if file.len() - list < RECORD_BYTES * count + 1 {
        return Ok(None);
    }
    let names = list + RECORD_BYTES * count;
    let a = passes_differ(rt, case, file, at + 1, image)?;
    let b = verdicts_differ(rt, case, file, at + 1, image)?;
    let c = lists::differ(rt, case, file, list, count, image)?;
    let d = lent_differs(rt, case, file, at + 1, image)?;
    let asked = recording::u8_at(file, names);
    let found = names_step(rt, case, file, names + 1, asked, image)?;
    let Some(step) = found else {
        return Ok(None);
    };
    Ok(Some(Step {
        at: step.at,
        differ: a + b + c + d + step.differ,
    }))
}

// One image and the answers on it.
fn image_step(rt: &impl Print, file: &[u8], at: usize, number: usize) -> io::Result<Option<Step>>
    requires { (at ≤ length file.now) × (length file.now ≤ 450000) }
    ensures value { IfOk result (λ step. step ≡ image_step file.now at) }
    ensures at_in_bounds { IfOk result (λ step. (place_of step ≤ length file.now) × (differ_of step ≤ 500000)) }
    ensures err { OnErr result (0 < image_told file.now at) }
{
    let n = file.len();
    if n - at < 4 {
        return Ok(None);
    }
    let size = recording::u32_at(file, at);
    let from = at + 4;
    if n - from < size + 41 {
        return Ok(None);
    }
    let to = from + size;
    answers_step(rt, file, to, number, &file[from..to])
}

// All images, from the first on.
fn images_step(rt: &impl Print, file: &[u8], count: usize) -> io::Result<Option<Step>>
    requires { (4 ≤ length file.now) × (length file.now ≤ 450000) × (count ≤ 4294967296) }
    ensures value { IfOk result (λ step. step ≡ images_step file.now count) }
    ensures at_in_bounds { IfOk result (λ step. place_of step ≤ length file.now) }
    ensures err { OnErr result (0 < images_told file.now count) }
{
    let mut next = 4;
    let mut differ = 0;
    for number in 0..count {
        let found = image_step(rt, file, next, number)?;
        let Some(step) = found else {
            return Ok(None);
        };
        next = step.at;
        differ += step.differ;
    }
    Ok(Some(Step { at: next, differ }))
}

fn replay(rt: &impl Print, file: &[u8]) -> io::Result<()> {
    let n = file.len();
    if ROOM <= n {
        return println!(rt; "recorded answers are too long");
    }
    if n < 4 {
        return println!(rt; "recorded answers end early");
    }
    let count = recording::u32_at(file, 0);
    let Some(step) = images_step(rt, file, count)? else {
        return println!(rt; "recorded answers end early");
    };
    if step.at < n {
        println!(rt; "recorded answers go on after the last image")?;
    }
    recording::summary(rt, count, step.differ)
}

// Why the answers were not compared, or not all that differs was told.
fn failed(rt: &impl Eprint, stream: &str, error: io::Error) -> ExitCode {
    // Where standard error does not take this either, the exit status still says so.
    let _ = eprintln!(rt; "replay: {stream}: {error}");
    ExitCode::FAILURE
}

fn main(rt: HostRuntime) -> ExitCode {
    let mut room = room_for_all();
    match input::read_full(&mut rt.stdin(), &mut room) {
        Err(error) => failed(&rt, "standard input", error),
        Ok(n) => match replay(&rt, &room[..n]) {
            Err(error) => failed(&rt, "standard output", error),
            Ok(()) => ExitCode::SUCCESS,
        },
    }
}
