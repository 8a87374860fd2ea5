// One node for each name: the first, or the last, of a kind below a node that has it as its Name ("met before", "no such Let in an earlier statement", "the event's last declaration" of document 01).
#![tactic(auto)]

ghost use Rattle.std.specs.Prelude.{◌≡◌, List, [], ◌∷◌, ℕ, ◌+◌, ◌-◌, ◌<◌};
ghost use Rattle.nodes.specs.Shown.{View, In, Worded, tree_of};
ghost use Rattle.nodes.specs.First.{NameFirst, Declaring, NamedPart, HeadPart, Head, Until};
ghost use Rattle.places.specs.Places.{Places, Notes, taken, noting, notes_below, is_named};

use image::Image;
use nodes::{Children, Declarations};

// One node for each of 1,024 names, by name number less one; 0 where there is none. A table of set size, as document 01 names the form, and no map.
pub type Places = [u16; Image::NAMES];

// What is noted for a name at a node that has it: that node, if none is noted yet; that node; none. A case and not a closure: contracts say what each notes, by `noting`.
#[derive(Clone, Copy)]
pub enum Note {
    First,
    Last,
    Off,
}

// The node that is noted for the word of node p; 0 where none is. No `Option`: rules ask whether a node stands before it, which needs no test for 0.
pub fn at(places: &Places, nodes: &[u8], base: usize, p: usize) -> usize
    requires { Worded nodes.now base p }
    ensures { (result < 65536) × ((W : View nodes.now base) (F : List ℕ → ℕ) → Places W.image F places.now → result ≡ F ((tree_of W).text p)) }
{
    let x = nodes::name(nodes, base, p);
    usize::from(places[x - 1])
}

#[tactic(auto, using(std::proofs::lemmas::Bool::Decides::nat_tests))]
pub fn taken(note: Note, was: u16, p: u16) -> u16
    ensures { result ≡ taken note was p }
{
    match note {
        Note::First if was != 0 => was,
        Note::First | Note::Last => p,
        Note::Off => 0,
    }
}

// A node of this kind is noted for its Name.
fn note_node(note: Note, kind: usize, nodes: &[u8], p: usize, places: &mut Places)
    requires { NameFirst kind × View nodes.now 0 × In nodes.now 0 p }
    ensures { Notes (λ (W : View nodes.now 0) w v. noting note v (is_named (tree_of W) (kind ∷ []) w p) p) places.old places.new }
{
    if nodes::kind(nodes, 0, p) == kind {
        let place = &mut places[nodes::name(nodes, 0, p + 1) - 1];
        *place = taken(note, *place, p as u16);
    }
}

// The fields or the events of a contract are noted, by a walk over its items and fields.
pub fn note_names(note: Note, kind: usize, nodes: &[u8], places: &mut Places)
    requires { Declaring kind × View nodes.now 0 × In nodes.now 0 0 }
    ensures { Notes (λ (W : View nodes.now 0). notes_below note (tree_of W) (kind ∷ []) 0) places.old places.new }
{
    for declaration in Declarations::of(nodes) {
        note_node(note, kind, nodes, declaration, places);
    }
}

// The parts of this kind of an entry are noted, by a walk over its children up to `to`, behind which none stands.
fn note_until(note: Note, kind: usize, nodes: &[u8], entry: usize, to: usize, places: &mut Places)
    requires { NamedPart kind × Until nodes.now 0 entry to kind }
    ensures { Notes (λ (W : View nodes.now 0). notes_below note (tree_of W) (kind ∷ []) entry) places.old places.new }
{
    for part in Children::until(nodes, entry, to) {
        note_node(note, kind, nodes, part, places);
    }
}

// The parameters or the Lets of an entry are noted.
pub fn note_parts(note: Note, kind: usize, nodes: &[u8], entry: usize, places: &mut Places)
    requires { NamedPart kind × View nodes.now 0 × In nodes.now 0 entry × (0 < entry) }
    ensures { Notes (λ (W : View nodes.now 0). notes_below note (tree_of W) (kind ∷ []) entry) places.old places.new }
{
    let end = nodes::end(nodes, 0, entry);
    note_until(note, kind, nodes, entry, end, places);
}

// The parameters of an entry are noted, all of which stand before `to`, its first statement.
pub fn note_heads(
    note: Note,
    kind: usize,
    nodes: &[u8],
    entry: usize,
    to: usize,
    places: &mut Places,
)
    requires { HeadPart kind × Head nodes.now 0 entry to }
    ensures { Notes (λ (W : View nodes.now 0). notes_below note (tree_of W) (kind ∷ []) entry) places.old places.new }
{
    note_until(note, kind, nodes, entry, to, places);
}
