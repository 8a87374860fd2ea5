// The face of typeck and of why for C and Rust, in plain numbers. A refused image answers its number, 1 to 8, and zeros.
#![tactic(auto)]

ghost use Rattle.std.specs.Prelude.{◌≡◌, [], ◌∷◌, ◌++◌, ◌+◌, ◌≤◌, length};
ghost use Rattle.std.proofs.lemmas.List.Edits.{sets};
ghost use Rattle.image.specs.Admit.{refusal};
ghost use Rattle.rules.specs.Model.{is_state, is_declared_asset, is_known_asset};
ghost use Rattle.rules.specs.Resolve.{resolve};
ghost use Rattle.rules.specs.Access.{access};
ghost use Rattle.rules.specs.Linear.{linear};
ghost use Rattle.rules.specs.Answers.{pass_answer, ask, list_answer, list_buffer};
ghost use Rattle.reasons.specs.Answer.{why_answer, why_buffer};
ghost use Rattle.why.specs.Face.{explained_by};
ghost use Rattle.typeck.specs.Face.{answer_of, numbered, listing_of, part_answer, part_words};
ghost use Rattle.isonkaypu.specs.Plain.{Gives, row, Says, Tells, Counts};

use typeck::{Refusal, Unlisted, Verdict};
use why::Explained;

// The number of the image's refusal, 0 where it is admitted.
#[unsafe(no_mangle)]
pub extern "C" fn isonkaypu_refusal(image: &[u8]) -> usize
    ensures { result ≡ refusal image.now }
{
    match typeck::refused(image) {
        None => 0,
        Some(refusal) => refusal.number(),
    }
}

// A verdict's number, with its place and span words.
fn give(v: Verdict, place: &mut u16, from: &mut u32, to: &mut u32) -> usize
    ensures { Gives (answer_of v) result place.new from.new to.new }
{
    *place = 0;
    *from = 0;
    *to = 0;
    match v {
        Err(refusal) => refusal.number(),
        Ok(verdict) => match verdict {
            None => 0,
            Some(offence) => {
                *place = offence.place;
                *from = offence.from;
                *to = offence.to;
                usize::from(offence.code)
            }
        },
    }
}

// The verdict of the resolve pass: 0 accepted, 1 to 8 the image's refusal, else the code.
#[unsafe(no_mangle)]
pub extern "C" fn isonkaypu_resolve(
    image: &[u8],
    place: &mut u16,
    from: &mut u32,
    to: &mut u32,
) -> usize
    ensures { Gives (pass_answer resolve image.now) result place.new from.new to.new }
{
    give(typeck::resolve(image), place, from, to)
}

// The verdict of the access pass.
#[unsafe(no_mangle)]
pub extern "C" fn isonkaypu_access(
    image: &[u8],
    place: &mut u16,
    from: &mut u32,
    to: &mut u32,
) -> usize
    ensures { Gives (pass_answer access image.now) result place.new from.new to.new }
{
    give(typeck::access(image), place, from, to)
}

// The verdict of the linear pass.
#[unsafe(no_mangle)]
pub extern "C" fn isonkaypu_linear(
    image: &[u8],
    place: &mut u16,
    from: &mut u32,
    to: &mut u32,
) -> usize
    ensures { Gives (pass_answer linear image.now) result place.new from.new to.new }
{
    give(typeck::linear(image), place, from, to)
}

// Four numbers at their place in the row: number, place, span words.
fn store(numbers: &mut [usize; 12], at: usize, number: usize, place: usize, from: usize, to: usize)
    requires { at + 4 ≤ 12 }
    ensures { numbers.new ≡ sets numbers.old at (number ∷ place ∷ from ∷ to ∷ []) }
{
    numbers[at] = number;
    numbers[at + 1] = place;
    numbers[at + 2] = from;
    numbers[at + 3] = to;
}

// A verdict's four numbers.
fn note(v: Verdict, numbers: &mut [usize; 12], at: usize)
    requires { at + 4 ≤ 12 }
    ensures { numbers.new ≡ sets numbers.old at (row (answer_of v)) }
{
    match v {
        Err(refusal) => store(numbers, at, refusal.number(), 0, 0, 0),
        Ok(verdict) => match verdict {
            None => store(numbers, at, 0, 0, 0, 0),
            Some(offence) => store(
                numbers,
                at,
                usize::from(offence.code),
                usize::from(offence.place),
                offence.from as usize,
                offence.to as usize,
            ),
        },
    }
}

// All verdicts with one admission: number, place and span words of resolve, then of access, then of linear.
#[unsafe(no_mangle)]
pub extern "C" fn isonkaypu_verdicts(image: &[u8], numbers: &mut [usize; 12])
    ensures { numbers.new ≡ sets numbers.old 0 (row (pass_answer resolve image.now) ++ row (pass_answer access image.now) ++ row (pass_answer linear image.now)) }
{
    match typeck::verdicts(image) {
        Err(refusal) => {
            note(Err(refusal), numbers, 0);
            note(Err(refusal), numbers, 4);
            note(Err(refusal), numbers, 8);
        }
        Ok(answers) => {
            note(Ok(answers.resolve), numbers, 0);
            note(Ok(answers.access), numbers, 4);
            note(Ok(answers.linear), numbers, 8);
        }
    }
}

// A reply's number, and 1 for yes, 0 for no.
fn say(v: Result<bool, Refusal>, yes: &mut u8) -> usize
    ensures { Says (numbered v) result yes.new }
{
    match v {
        Err(refusal) => {
            *yes = 0;
            refusal.number()
        }
        Ok(said) => {
            *yes = u8::from(said);
            0
        }
    }
}

// Whether the name is that of a state field: 0 with yes 1 or 0, or the image's refusal.
#[unsafe(no_mangle)]
pub extern "C" fn isonkaypu_is_state(image: &[u8], name: &[u8], yes: &mut u8) -> usize
    ensures { Says (ask is_state image.now name.now) result yes.new }
{
    say(typeck::is_state(image, name), yes)
}

// Whether the name is that of an Asset item.
#[unsafe(no_mangle)]
pub extern "C" fn isonkaypu_is_declared_asset(image: &[u8], name: &[u8], yes: &mut u8) -> usize
    ensures { Says (ask is_declared_asset image.now name.now) result yes.new }
{
    say(typeck::is_declared_asset(image, name), yes)
}

// Whether the name is that of a known asset.
#[unsafe(no_mangle)]
pub extern "C" fn isonkaypu_is_known_asset(image: &[u8], name: &[u8], yes: &mut u8) -> usize
    ensures { Says (ask is_known_asset image.now name.now) result yes.new }
{
    say(typeck::is_known_asset(image, name), yes)
}

// A list's number, and how many records it has.
fn tell(v: Result<usize, Unlisted>, count: &mut usize) -> usize
    ensures { Tells (listing_of v) result count.new }
{
    match v {
        Err(unlisted) => {
            *count = 0;
            unlisted.number()
        }
        Ok(records) => {
            *count = records;
            0
        }
    }
}

// The full list, or refusal 9 where there are fewer than 4 words for each record.
#[unsafe(no_mangle)]
pub extern "C" fn isonkaypu_list(image: &[u8], words: &mut [u16], count: &mut usize) -> usize
    ensures { Tells (list_answer image.now (length words.old)) result count.new × (words.new ≡ list_buffer image.now words.old) }
{
    tell(typeck::list(image, words), count)
}

// The resolve pass's part of the list, into the words from their start; all records are counted.
#[unsafe(no_mangle)]
pub extern "C" fn isonkaypu_resolve_list(
    image: &[u8],
    words: &mut [u16],
    count: &mut usize,
) -> usize
    ensures { Tells (part_answer resolve image.now) result count.new × (words.new ≡ part_words resolve image.now words.old) }
{
    tell(typeck::resolve_list(image, words), count)
}

// The access pass's part of the list.
#[unsafe(no_mangle)]
pub extern "C" fn isonkaypu_access_list(image: &[u8], words: &mut [u16], count: &mut usize) -> usize
    ensures { Tells (part_answer access image.now) result count.new × (words.new ≡ part_words access image.now words.old) }
{
    tell(typeck::access_list(image, words), count)
}

// The linear pass's part of the list.
#[unsafe(no_mangle)]
pub extern "C" fn isonkaypu_linear_list(image: &[u8], words: &mut [u16], count: &mut usize) -> usize
    ensures { Tells (part_answer linear image.now) result count.new × (words.new ≡ part_words linear image.now words.old) }
{
    tell(typeck::linear_list(image, words), count)
}

// The number of an answer to why, and how many words it has.
fn explain(v: Explained, count: &mut usize) -> usize
    ensures { Counts (explained_by v) result count.new }
{
    match v {
        Err(untold) => {
            *count = 0;
            untold.number()
        }
        Ok(words) => {
            *count = words;
            0
        }
    }
}

// Why the lot at this place is refused, or is not: two words for each clause and each use. Refusals, in this order: 1 to 8, 13 where no lot stands there, 10 where there are too few words.
#[unsafe(no_mangle)]
pub extern "C" fn isonkaypu_why(
    image: &[u8],
    place: usize,
    words: &mut [u16],
    count: &mut usize,
) -> usize
    ensures { Counts (why_answer image.now place (length words.old)) result count.new × (words.new ≡ why_buffer image.now place words.old) }
{
    explain(why::why(image, place, words), count)
}
