// The public face of the checker: any bytes in, an answer in document 01's numbers out. No function here asks anything of its caller.
#![tactic(auto)]

ghost use Rattle.std.specs.Prelude.{◌≡◌};
ghost use Rattle.image.specs.Admit.{refusal};
ghost use Rattle.rules.specs.Model.{is_state, is_declared_asset, is_known_asset};
ghost use Rattle.rules.specs.Resolve.{resolve};
ghost use Rattle.rules.specs.Access.{access};
ghost use Rattle.rules.specs.Linear.{linear};
ghost use Rattle.model.specs.Questions.{question_of};
ghost use Rattle.passes.specs.Verdicts.{records_of};
ghost use Rattle.typeck.specs.declared.Unlisted.TheVariants.{Image};
ghost use Rattle.typeck.specs.Face.{Judged, Replied, ListedAll, ListedPart, Stands, refused_as, refusal_as, unlisted_by, verdict_in};

pub use image::Refusal;
use model::Question;
use passes::Pass;
pub use passes::{Answers, Offence};

// A verdict: the pass accepts, or refuses with an offence; or the image is refused.
pub type Verdict = Result<Option<Offence>, Refusal>;

// Why there is no list: the image is refused, or the buffer has too few words, refusal 9.
#[derive(Clone, Copy, PartialEq, Eq)]
pub enum Unlisted {
    Image(Refusal),
    Room,
}

impl Unlisted {
    pub fn number(self) -> usize
        ensures { result ≡ unlisted_by self }
    {
        match self {
            Unlisted::Image(refusal) => refusal.number(),
            Unlisted::Room => 9,
        }
    }
}

impl From<Refusal> for Unlisted {
    ghost from_gives = { λ refusal result. result ≡ Image refusal };

    fn from(refusal: Refusal) -> Unlisted {
        Unlisted::Image(refusal)
    }
}

// The image's refusal; none where it is admitted.
pub fn refused(image: &[u8]) -> Option<Refusal>
    ensures { Stands refused_as refusal_as (refusal image.now) result }
{
    match admission::admit(image) {
        Err(refusal) => Some(refusal),
        Ok(_head) => None,
    }
}

fn verdict_of(pass: Pass, image: &[u8]) -> Verdict
    ensures { Judged (records_of pass) image.now result }
{
    let head = admission::admit(image)?;
    Ok(passes::first_of(pass, image, head))
}

// The verdict of the resolve pass.
pub fn resolve(image: &[u8]) -> Verdict
    ensures { Judged resolve image.now result }
{
    verdict_of(Pass::Resolve, image)
}

// The verdict of the access pass.
pub fn access(image: &[u8]) -> Verdict
    ensures { Judged access image.now result }
{
    verdict_of(Pass::Access, image)
}

// The verdict of the linear pass.
pub fn linear(image: &[u8]) -> Verdict
    ensures { Judged linear image.now result }
{
    verdict_of(Pass::Linear, image)
}

// All verdicts, with one admission.
pub fn verdicts(image: &[u8]) -> Result<Answers, Refusal>
    ensures { Judged resolve image.now (verdict_in (λ a. a.resolve) result) × Judged access image.now (verdict_in (λ a. a.access) result) × Judged linear image.now (verdict_in (λ a. a.linear) result) }
{
    let head = admission::admit(image)?;
    Ok(passes::answer_all(image, head))
}

// The full list: how many records, those of all passes; or refusal 9 where the buffer has fewer than 4 words for each.
pub fn list(image: &[u8], words: &mut [u16]) -> Result<usize, Unlisted>
    ensures { ListedAll image.now words.old result words.new }
{
    let head = admission::admit(image)?;
    if words.len() < 4 * passes::count_all(image, head) {
        return Err(Unlisted::Room);
    }
    let count = passes::fill(image, head, words);
    Ok(count)
}

// A pass's part of the list, from the buffer's start: what fits is written, all is counted.
fn part_of(pass: Pass, image: &[u8], words: &mut [u16]) -> Result<usize, Unlisted>
    ensures { ListedPart (records_of pass) image.now words.old result words.new }
{
    let head = admission::admit(image)?;
    Ok(passes::list_of(pass, image, head, words))
}

// The resolve pass's part of the list.
pub fn resolve_list(image: &[u8], words: &mut [u16]) -> Result<usize, Unlisted>
    ensures { ListedPart resolve image.now words.old result words.new }
{
    part_of(Pass::Resolve, image, words)
}

// The access pass's part of the list.
pub fn access_list(image: &[u8], words: &mut [u16]) -> Result<usize, Unlisted>
    ensures { ListedPart access image.now words.old result words.new }
{
    part_of(Pass::Access, image, words)
}

// The linear pass's part of the list.
pub fn linear_list(image: &[u8], words: &mut [u16]) -> Result<usize, Unlisted>
    ensures { ListedPart linear image.now words.old result words.new }
{
    part_of(Pass::Linear, image, words)
}

fn reply_of(question: Question, image: &[u8], name: &[u8]) -> Result<bool, Refusal>
    ensures { Replied (question_of question) image.now name.now result }
{
    let head = admission::admit(image)?;
    let yes = model::holds(question, image, head, name);
    Ok(yes)
}

// Whether the name is that of a state field.
pub fn is_state(image: &[u8], name: &[u8]) -> Result<bool, Refusal>
    ensures { Replied is_state image.now name.now result }
{
    reply_of(Question::State, image, name)
}

// Whether the name is that of an Asset item.
pub fn is_declared_asset(image: &[u8], name: &[u8]) -> Result<bool, Refusal>
    ensures { Replied is_declared_asset image.now name.now result }
{
    reply_of(Question::Declared, image, name)
}

// Whether the name is that of a known asset.
pub fn is_known_asset(image: &[u8], name: &[u8]) -> Result<bool, Refusal>
    ensures { Replied is_known_asset image.now name.now result }
{
    reply_of(Question::Known, image, name)
}
