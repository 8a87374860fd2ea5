// What is printed of the recorded answers: a line for each difference, and how many there are. A write that fails ends
// it, and its error is the answer.
ghost use Rattle.std.specs.Prelude.{◌≡◌, ◌+◌, ◌<◌, ◌≤◌, length, IfOk, OnErr};
ghost use Rattle.recording.specs.Told.{difference, verdict_at, reply_at};

use crate::read;
use std::{fmt, io};

// An answer as numbers, 0 where it has fewer. Of a pass: refusal, code, place, span words. Of a list: refusal, how many
// records, and the code, place, related and entry word of one that differs. Of a question: refusal, and 1 for yes.
#[derive(Clone, Copy, PartialEq, Eq)]
pub struct Numbers(
    pub usize,
    pub usize,
    pub usize,
    pub usize,
    pub usize,
    pub usize,
);

// An image by its number in the file, from 0 on, and its recorded refusal.
#[derive(Clone, Copy)]
pub struct Case {
    pub number: usize,
    pub refusal: usize,
}

impl fmt::Display for Numbers {
    fn fmt<W: fmt::Write>(&self, f: &mut fmt::Formatter<W>) -> fmt::Result {
        let Numbers(a, b, c, d, e, g) = *self;
        write!(f, "{a} {b} {c} {d} {e} {g}")
    }
}

// What was asked for are any bytes, written as they are.
fn line(
    rt: &impl Print,
    image: usize,
    asked: &[u8],
    recorded: Numbers,
    answered: Numbers,
) -> io::Result<()> {
    print!(rt; "image {image}, ")?;
    rt.write_all(asked)?;
    println!(rt; ": recorded {recorded}, answered {answered}")
}

// 1 where the answer is not the recorded one, which is then told.
pub fn differs(
    rt: &impl Print,
    case: Case,
    asked: &[u8],
    recorded: Numbers,
    answered: Numbers,
) -> io::Result<usize>
    ensures ok { IfOk result (λ n. (n ≡ difference recorded answered) × (n ≤ 1)) }
    ensures err { OnErr result (0 < difference recorded answered) }
{
    if recorded == answered {
        return Ok(0);
    }
    line(rt, case.number, asked, recorded, answered)?;
    Ok(1)
}

// A pass's answer against the recorded verdict.
pub fn verdict_differs(
    rt: &impl Print,
    case: Case,
    asked: &[u8],
    file: &[u8],
    at: usize,
    answer: Numbers,
) -> io::Result<usize>
    requires { at + 12 ≤ length file.now }
    ensures ok { IfOk result (λ n. (n ≡ difference (verdict_at file.now at case.refusal) answer) × (n ≤ 1)) }
    ensures err { OnErr result (0 < difference (verdict_at file.now at case.refusal) answer) }
{
    differs(
        rt,
        case,
        asked,
        read::verdict_at(file, at, case.refusal),
        answer,
    )
}

// The answer to a question against the recorded one.
pub fn answer_differs(
    rt: &impl Print,
    case: Case,
    asked: &[u8],
    file: &[u8],
    at: usize,
    answer: Numbers,
) -> io::Result<usize>
    requires { at < length file.now }
    ensures ok { IfOk result (λ n. (n ≡ difference (reply_at file.now at case.refusal) answer) × (n ≤ 1)) }
    ensures err { OnErr result (0 < difference (reply_at file.now at case.refusal) answer) }
{
    let recorded = Numbers(case.refusal, read::u8_at(file, at), 0, 0, 0, 0);
    differs(rt, case, asked, recorded, answer)
}

// How many images were read, and how many answers differ.
pub fn summary(rt: &impl Print, images: usize, differ: usize) -> io::Result<()> {
    println!(rt; "{images} images, {differ} differ")
}
