// The three passes on an admitted image: the records of each, the verdict by the first of them, the records of all in one list.
#![tactic(auto)]

ghost use Rattle.std.specs.Prelude.{◌≡◌, Ok, List, ℕ, ◌+◌, ◌*◌, ◌≤◌, ◌^◌, length, replicate};
ghost use Rattle.rules.specs.Vocabulary.{Rec};
ghost use Rattle.rules.specs.Tree.{tree};
ghost use Rattle.rules.specs.Resolve.{resolve};
ghost use Rattle.rules.specs.Access.{access};
ghost use Rattle.rules.specs.Linear.{linear};
ghost use Rattle.rules.specs.All.{offences, entry_of};
ghost use Rattle.records.specs.Records.{Laid, Adds, on};
ghost use Rattle.nodes.specs.Shown.{Admitted};
ghost use Rattle.names.specs.Spelled.{Looked, looked};
ghost use Rattle.passes.specs.Lookups.{LookedUp};
ghost use Rattle.passes.specs.Verdicts.{Judged, records_of, verdict_by};

use image::Image;
use names::Words;
use nodes::Marks;

// What a pass refuses an admitted image with: the code, the place and its two span words. A pass that accepts answers none.
#[derive(Clone, Copy, PartialEq, Eq)]
pub struct Offence {
    pub code: u16,
    pub place: u16,
    pub from: u32,
    pub to: u32,
}

// The passes, in the order that they run in. A case and not a closure: contracts say what each lists, by `records_of`.
#[derive(Clone, Copy, PartialEq, Eq)]
pub enum Pass {
    Resolve,
    Access,
    Linear,
}

// The records of a pass, from the buffer's start: what fits is written, all is counted. Words and state names were looked up before.
fn list_with(pass: Pass, nodes: &[u8], words: Words, state: &Marks, out: &mut [u16]) -> usize
    requires { Looked nodes.now words state.now }
    ensures { Adds (looked (records_of pass) nodes.now words state.now) (2 ^ 38) out.old out.new 0 result }
{
    match pass {
        Pass::Resolve => resolve::list(nodes, words, state, out),
        Pass::Access => access::list(nodes, words, state, out),
        Pass::Linear => linear::list(nodes, words, out),
    }
}

// The same for an admitted image, with look-ups of its own.
pub fn list_of(pass: Pass, image: &[u8], head: Image, out: &mut [u16]) -> usize
    requires { Admitted image.now head }
    ensures { Adds (λ (_ : Unit {0}). on (records_of pass) (tree image.now)) (2 ^ 38) out.old out.new 0 result }
{
    let nodes = nodes::area(image, head);
    let words = names::find_words(image, head);
    let mut state = [false; Image::NAMES];
    model::mark_state(nodes, &mut state);
    list_with(pass, nodes, words, &state, out)
}

// The verdict, from the first record of a list that was written into four words.
fn judge(image: &[u8], head: Image, out: &[u16], count: usize) -> Option<Offence>
    requires { Admitted image.now head × (length out.now ≡ 4) }
    ensures { (e : ℕ → ℕ) (l : List Rec) → Laid e (replicate 4 0) 0 l out.now count → result ≡ verdict_by image.now l }
{
    if count == 0 {
        return None;
    }
    let code = out[0];
    let place = out[1];
    let span = spans::of_place(image, head, usize::from(place));
    Some(Offence {
        code,
        place,
        from: span.from as u32,
        to: span.to as u32,
    })
}

// The verdict of a pass on an admitted image, whose words and state names were looked up before.
fn first_with(
    pass: Pass,
    image: &[u8],
    head: Image,
    nodes: &[u8],
    words: Words,
    state: &Marks,
) -> Option<Offence>
    requires { LookedUp image.now head nodes.now words state.now }
    ensures { Judged (records_of pass) image.now (Ok result) }
{
    let mut out = [0u16; 4];
    let count = list_with(pass, nodes, words, state, &mut out);
    judge(image, head, &out, count)
}

// The verdict of a pass on an admitted image.
pub fn first_of(pass: Pass, image: &[u8], head: Image) -> Option<Offence>
    requires { Admitted image.now head }
    ensures { Judged (records_of pass) image.now (Ok result) }
{
    let mut out = [0u16; 4];
    let count = list_of(pass, image, head, &mut out);
    judge(image, head, &out, count)
}

// The verdicts of all passes.
#[derive(Clone, Copy)]
pub struct Answers {
    pub resolve: Option<Offence>,
    pub access: Option<Offence>,
    pub linear: Option<Offence>,
}

// All verdicts on an admitted image, with words and state names looked up once.
pub fn answer_all(image: &[u8], head: Image) -> Answers
    requires { Admitted image.now head }
    ensures { Judged resolve image.now (Ok result.resolve) × Judged access image.now (Ok result.access) × Judged linear image.now (Ok result.linear) }
{
    let nodes = nodes::area(image, head);
    let words = names::find_words(image, head);
    let mut state = [false; Image::NAMES];
    model::mark_state(nodes, &mut state);
    let resolve = first_with(Pass::Resolve, image, head, nodes, words, &state);
    let access = first_with(Pass::Access, image, head, nodes, words, &state);
    let linear = first_with(Pass::Linear, image, head, nodes, words, &state);
    Answers {
        resolve,
        access,
        linear,
    }
}

// How many records a pass has.
fn count(pass: Pass, image: &[u8], head: Image) -> usize
    requires { Admitted image.now head }
    ensures { (result ≡ length (records_of pass (tree image.now))) × (result ≤ 2 ^ 38) }
{
    let mut none = [0u16; 0];
    list_of(pass, image, head, &mut none)
}

// How many records all passes have.
pub fn count_all(image: &[u8], head: Image) -> usize
    requires { Admitted image.now head }
    ensures { (result ≡ length (offences (tree image.now))) × (result ≤ 2 ^ 40) }
{
    let resolve = count(Pass::Resolve, image, head);
    let access = count(Pass::Access, image, head);
    let linear = count(Pass::Linear, image, head);
    resolve + access + linear
}

// The records of a pass after `count` others, written into the rest of the buffer from where those stop.
fn list_after(pass: Pass, image: &[u8], head: Image, words: &mut [u16], count: usize) -> usize
    requires { Admitted image.now head × (4 * (count + length (records_of pass (tree image.now))) ≤ length words.old) }
    ensures { Adds (λ (_ : Unit {0}). on (records_of pass) (tree image.now)) (2 ^ 38) words.old words.new count result }
{
    let start = 4 * count;
    let end = words.len();
    let more = list_of(pass, image, head, &mut words[start..end]);
    count + more
}

// The records of all passes, each from where the last one stopped.
pub fn fill(image: &[u8], head: Image, words: &mut [u16]) -> usize
    requires { Admitted image.now head × (4 * length (offences (tree image.now)) ≤ length words.old) }
    ensures { Laid (entry_of (tree image.now)) words.old 0 (offences (tree image.now)) words.new result }
{
    let resolve = list_after(Pass::Resolve, image, head, words, 0);
    let access = list_after(Pass::Access, image, head, words, resolve);
    list_after(Pass::Linear, image, head, words, access)
}
