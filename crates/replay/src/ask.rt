// The answers of the public face, as the numbers in which they are recorded.
ghost use Rattle.std.specs.Prelude.{◌≡◌, length};
ghost use Rattle.rules.specs.Resolve.{resolve};
ghost use Rattle.rules.specs.Access.{access};
ghost use Rattle.rules.specs.Linear.{linear};
ghost use Rattle.recording.specs.Told.{head_of};
ghost use Rattle.typeck.specs.Face.{Judged, refused_as};
ghost use Rattle.replay.specs.Differences.{of_verdict, of_reply, of_listed, listed_for, words_for};

use recording::Numbers;
use typeck::{Refusal, Unlisted, Verdict};

// Which list is asked for. A case and not a closure: contracts say what each answers, by `listed_for`.
#[derive(Clone, Copy)]
pub enum Asked {
    Whole,
    Resolve,
    Access,
    Linear,
}

pub fn of_refusal(refused: Option<Refusal>) -> Numbers
    ensures { result ≡ head_of (refused_as refused) 0 }
{
    match refused {
        None => Numbers(0, 0, 0, 0, 0, 0),
        Some(refusal) => Numbers(refusal.number(), 0, 0, 0, 0, 0),
    }
}

// The verdicts of all passes, asked for at once.
#[derive(Clone, Copy)]
pub struct Verdicts {
    pub resolve: Verdict,
    pub access: Verdict,
    pub linear: Verdict,
}

pub fn verdicts_of(image: &[u8]) -> Verdicts
    ensures { Judged resolve image.now result.resolve × Judged access image.now result.access × Judged linear image.now result.linear }
{
    match typeck::verdicts(image) {
        Err(refusal) => Verdicts {
            resolve: Err(refusal),
            access: Err(refusal),
            linear: Err(refusal),
        },
        Ok(answers) => Verdicts {
            resolve: Ok(answers.resolve),
            access: Ok(answers.access),
            linear: Ok(answers.linear),
        },
    }
}

pub fn of_verdict(verdict: Verdict) -> Numbers
    ensures { result ≡ of_verdict verdict }
{
    match verdict {
        Err(refusal) => Numbers(refusal.number(), 0, 0, 0, 0, 0),
        Ok(None) => Numbers(0, 0, 0, 0, 0, 0),
        Ok(Some(offence)) => Numbers(
            0,
            usize::from(offence.code),
            usize::from(offence.place),
            recording::wide_u32(offence.from),
            recording::wide_u32(offence.to),
            0,
        ),
    }
}

pub fn of_reply(reply: Result<bool, Refusal>) -> Numbers
    ensures { result ≡ of_reply reply }
{
    match reply {
        Err(refusal) => Numbers(refusal.number(), 0, 0, 0, 0, 0),
        Ok(yes) => Numbers(0, usize::from(yes), 0, 0, 0, 0),
    }
}

pub fn of_listed(listed: Result<usize, Unlisted>) -> Numbers
    ensures { result ≡ of_listed listed }
{
    match listed {
        Err(unlisted) => Numbers(unlisted.number(), 0, 0, 0, 0, 0),
        Ok(count) => Numbers(0, count, 0, 0, 0, 0),
    }
}

pub fn list_of(asked: Asked, image: &[u8], words: &mut [u16]) -> Result<usize, Unlisted>
    ensures { (result ≡ listed_for asked image.now (length words.old)) × (words.new ≡ words_for asked image.now words.old) }
{
    match asked {
        Asked::Whole => typeck::list(image, words),
        Asked::Resolve => typeck::resolve_list(image, words),
        Asked::Access => typeck::access_list(image, words),
        Asked::Linear => typeck::linear_list(image, words),
    }
}
