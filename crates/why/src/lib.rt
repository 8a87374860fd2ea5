// Why a lot is refused (E3 of document 02): any bytes and any place in, the Burns clauses and the counted occurrences of the lot there out, two words each. The public function asks nothing of its caller.
#![tactic(auto)]

ghost use Rattle.std.specs.Prelude.{◌≡◌, ℕ, ◌≤◌, ltb, eqb, MatchOption};
ghost use Rattle.image.specs.Pick.{both};
ghost use Rattle.nodes.specs.Shown.{View, In, Admitted, tree_of};
ghost use Rattle.linear.specs.Seen.{LookedWords};
ghost use Rattle.reasons.specs.Reasons.{TrackedAt};
ghost use Rattle.lot_words.specs.Told.{Rowed, row_node};
ghost use Rattle.why.specs.Sought.{NoEntryAt, EntryAt, NoRowAt, RowAt};
ghost use Rattle.why.specs.declared.Untold.TheVariants.{Image};
ghost use Rattle.why.specs.Face.{Explains, untold_by};

use image::Image;
pub use image::Refusal;
use linear_tracked::Cells;
use nodes::{Children, ENTRY, Marks};
use places::Places;

// Why there are no words: the image is refused, no lot stands at the place, refusal 13, or the buffer is too short, refusal 10.
#[derive(Clone, Copy, PartialEq, Eq)]
pub enum Untold {
    Image(Refusal),
    NoLot,
    Room,
}

impl Untold {
    pub fn number(self) -> usize
        ensures { result ≡ untold_by self }
    {
        match self {
            Untold::Image(refusal) => refusal.number(),
            Untold::NoLot => 13,
            Untold::Room => 10,
        }
    }
}

impl From<Refusal> for Untold {
    ghost from_gives = { λ refusal result. result ≡ Image refusal };

    fn from(refusal: Refusal) -> Untold {
        Untold::Image(refusal)
    }
}

// What is answered: how many words there are.
pub type Explained = Result<usize, Untold>;

// What is answered of a row: 10 where the buffer is too short, and then nothing is written.
fn answer_row(
    asset: usize,
    nodes: &[u8],
    entry: usize,
    row: usize,
    reader: &Marks,
    first: &Places,
    last: &Places,
    out: &mut [u16],
) -> Explained
    requires { Rowed nodes.now entry row asset reader.now first.now last.now }
    ensures { (T : Rowed nodes.now entry row asset reader.now first.now last.now) (p : ℕ) → TrackedAt (tree_of T.view) p entry (row_node (tree_of T.view) entry row) → Explains T.view.image p out.old result out.new }
{
    let size = out.len();
    let mut none = [0u16; 0];
    let asked = lot_words::tell_row(asset, nodes, entry, row, reader, first, last, &mut none);
    if size < asked {
        return Err(Untold::Room);
    }
    Ok(lot_words::tell_row(asset, nodes, entry, row, reader, first, last, out))
}

// The number, from 1 on, of the row at this place, if one of the n rows stands there.
fn row_at(n: usize, places: &Cells, place: usize) -> Option<usize>
    requires { n ≤ 511 }
    ensures { MatchOption result (NoRowAt n places.now place) (λ row. RowAt n places.now place row) }
{
    for row in 0..n {
        if usize::from(places[row]) == place {
            return Some(row + 1);
        }
    }
    None
}

// What is answered of a place that an entry holds: 13 where no row of the entry stands there.
fn answer_entry(
    words: names::Words,
    nodes: &[u8],
    entry: usize,
    place: usize,
    out: &mut [u16],
) -> Explained
    requires { (T : LookedWords nodes.now words) × EntryAt T.view place entry }
    ensures { (T : LookedWords nodes.now words) → EntryAt T.view place entry → Explains T.view.image place out.old result out.new }
{
    let asset_words = linear_parts::asset_words(words);
    let asset = asset_words.asset;
    let mut places = [0u16; 511];
    let mut first = [0u16; Image::NAMES];
    let mut last = [0u16; Image::NAMES];
    let mut none = [0u16; 0];
    let tracked = linear_tracked::track(
        asset_words,
        nodes,
        entry,
        &mut places,
        &mut first,
        &mut last,
        &mut none,
        0,
    );
    let Some(row) = row_at(tracked.rows, &places, place) else {
        return Err(Untold::NoLot);
    };
    let mut reader = [false; Image::NAMES];
    linear_occurrences::mark_readers(words, &mut reader);
    answer_row(asset, nodes, entry, row, &reader, &first, &last, out)
}

// Whether an item, which ends at `end`, is an Entry that holds this place.
fn holds(nodes: &[u8], item: usize, end: usize, place: usize) -> bool
    requires { In nodes.now 0 item }
    ensures { (W : View nodes.now 0) → result ≡ both (eqb ((tree_of W).kind item) 9) (both (ltb item place) (ltb place end)) }
{
    if nodes::kind(nodes, 0, item) != ENTRY {
        return false;
    }
    if place <= item {
        return false;
    }
    place < end
}

// The Entry that holds this place, if one does.
fn entry_at(nodes: &[u8], place: usize) -> Option<usize>
    requires { View nodes.now 0 × In nodes.now 0 0 }
    ensures { (W : View nodes.now 0) → MatchOption result (NoEntryAt W place) (λ entry. EntryAt W place entry) }
{
    for item in Children::of(nodes, 0, 0) {
        if holds(nodes, item, nodes::end(nodes, 0, item), place) {
            return Some(item);
        }
    }
    None
}

// What is answered of an admitted image.
fn answer(image: &[u8], head: Image, place: usize, out: &mut [u16]) -> Explained
    requires { Admitted image.now head }
    ensures { Explains image.now place out.old result out.new }
{
    let nodes = nodes::area(image, head);
    let Some(entry) = entry_at(nodes, place) else {
        return Err(Untold::NoLot);
    };
    let words = names::find_words(image, head);
    answer_entry(words, nodes, entry, place, out)
}

// Why the lot at this place is refused, or is not: its clauses and its uses, two words each. Refusals: 1 to 8, those of the image; 13, no lot stands there; 10, the buffer is too short.
pub fn why(image: &[u8], place: usize, words: &mut [u16]) -> Explained
    ensures { Explains image.now place words.old result words.new }
{
    let head = admission::admit(image)?;
    answer(image, head, place, words)
}
