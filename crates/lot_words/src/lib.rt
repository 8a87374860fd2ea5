// The words of a lot (E3 of document 02): two for each Burns clause that gives it a mark, then two for each counted occurrence of it.
#![tactic(auto)]

ghost use Rattle.std.specs.Prelude.{◌≡◌, List, [], ◌∷◌, ℕ, ◌+◌, ◌-◌, ◌<◌, ◌≤◌, ◌^◌};
ghost use Rattle.image.specs.Pick.{pick};
ghost use Rattle.rules.specs.Linear.{is_burned};
ghost use Rattle.nodes.specs.Shown.{View, In, tree_of};
ghost use Rattle.nodes.specs.First.{Head};
ghost use Rattle.places.specs.Places.{Places};
ghost use Rattle.linear_occurrences.specs.Counted.{Clear};
ghost use Rattle.linear_uses.specs.Uses.{Spoken, burn_at, burns_on, uses_on};
ghost use Rattle.reasons.specs.Compute.{clause_of, clause_words, use_words, each, reasons};
ghost use Rattle.lot_words.specs.Told.{Wrote, AddsWords, Clauses, Marking, Telling, Rowed, row_node, found_words};

use image::Image;
use linear_occurrences::{Consumers, Occurrence};
use nodes::{BURNS, Children, Marks, PARAM};
use places::{Note, Places};

// An entry behind `count` words, where there is room; it is always counted.
fn tell(out: &mut [u16], count: usize, node: usize, beside: u16) -> usize
    requires { (count < 2 ^ 60) × (node < 65536) }
    ensures { AddsWords (λ (_ : Unit {0}). node ∷ beside ∷ []) 2 out.old out.new count result }
{
    records::put(out, count, node as u16);
    records::put(out, count + 1, beside);
    count + 2
}

// The first Burns clause that gives the mark of the parameter p; 0 where none does.
// A number and no Option: it is a cell of the table of clauses as it stands, in which 0 is no clause.
fn clause_of(asset: usize, nodes: &[u8], entry: usize, p: usize, clauses: &Places) -> usize
    requires { Clauses nodes.now entry asset clauses.now × In nodes.now 0 p × ((W : View nodes.now 0) → (tree_of W).kind p ≡ 10) }
    ensures { (result < 2048) × ((T : Clauses nodes.now entry asset clauses.now) → result ≡ pick (is_burned (tree_of T.view) entry p) (clause_of (tree_of T.view) entry p) 0) }
{
    let inner = model::inner_of(nodes, p + 2, asset);
    if inner == 0 {
        return 0;
    }
    places::at(clauses, nodes, 0, inner)
}

// A node of an entry: the entry of its mark, if it is a parameter that a Burns clause burns, and the table notes the row for its name.
fn tell_mark(
    asset: usize,
    nodes: &[u8],
    entry: usize,
    p: usize,
    row: usize,
    clauses: &Places,
    first: &Places,
    out: &mut [u16],
    count: usize,
) -> usize
    requires { Marking nodes.now entry asset clauses.now first.now × In nodes.now 0 p × (0 < row) × (count < 2 ^ 60) }
    ensures { AddsWords (λ (T : Marking nodes.now entry asset clauses.now first.now). each (clause_words (tree_of T.clausal.view) entry) (burn_at (tree_of T.clausal.view) entry T.row_of (row - 1) p)) 2 out.old out.new count result }
{
    if nodes::kind(nodes, 0, p) != PARAM {
        return count;
    }
    if places::at(first, nodes, 0, p + 1) != row {
        return count;
    }
    let clause = clause_of(asset, nodes, entry, p, clauses);
    if clause == 0 {
        return count;
    }
    tell(out, count, clause + 1, 0)
}

// The entries of a row's marks, by a walk over the children of the entry before `to`, its first statement.
fn tell_marks(
    asset: usize,
    nodes: &[u8],
    entry: usize,
    to: usize,
    row: usize,
    clauses: &Places,
    first: &Places,
    out: &mut [u16],
) -> usize
    requires { Marking nodes.now entry asset clauses.now first.now × Head nodes.now 0 entry to × (0 < row) }
    ensures { AddsWords (λ (T : Marking nodes.now entry asset clauses.now first.now). each (clause_words (tree_of T.clausal.view) entry) (burns_on (tree_of T.clausal.view) entry T.row_of (row - 1))) 4096 out.old out.new 0 result }
{
    let mut total = 0;
    for part in Children::heads(nodes, entry, to) {
        total = tell_mark(asset, nodes, entry, part, row, clauses, first, out, total);
    }
    total
}

// The entry of a counted occurrence, if one was found, and the table notes the row for its word.
fn tell_use(
    found: Option<Occurrence>,
    nodes: &[u8],
    base: usize,
    row: usize,
    last: &Places,
    out: &mut [u16],
    count: usize,
) -> usize
    requires { Spoken nodes.now base found × (count < 2 ^ 60) }
    ensures { ((W : View nodes.now base) (F : List ℕ → ℕ) → Places W.image F last.now → Wrote out.old count (found_words (tree_of W) F row found) out.new result) × (result ≤ count + 2) }
{
    let Some(Occurrence { ident, consumer }) = found else {
        return count;
    };
    if places::at(last, nodes, base, ident) != row {
        return count;
    }
    tell(out, count, ident, consumer)
}

// The entries of a row's counted occurrences in an entry's statements, lent as their own part of the node area, which starts with number `base`: one sweep that finds them.
fn tell_uses(
    nodes: &[u8],
    base: usize,
    row: usize,
    reader: &Marks,
    consumers: &mut Consumers,
    last: &Places,
    out: &mut [u16],
    count: usize,
) -> usize
    requires { Telling nodes.now base reader.now last.now × Clear base consumers.old × (0 < row) × (count < 2 ^ 50) }
    ensures { AddsWords (λ (T : Telling nodes.now base reader.now last.now). each (use_words (tree_of T.counting.view) T.counting.entry) (uses_on (tree_of T.counting.view) T.counting.entry T.row_of base T.counting.view.upto (row - 1))) 4096 out.old out.new count result }
{
    let end = base + nodes.len() / 16;
    let mut total = count;
    for p in base..end {
        let found = linear_occurrences::occurrence_at(nodes, base, p, reader, consumers);
        total = tell_use(found, nodes, base, row, last, out, total);
    }
    total
}

// All entries of a row: what fits is written, all is counted.
pub fn tell_row(
    asset: usize,
    nodes: &[u8],
    entry: usize,
    row: usize,
    reader: &Marks,
    first: &Places,
    last: &Places,
    out: &mut [u16],
) -> usize
    requires { Rowed nodes.now entry row asset reader.now first.now last.now }
    ensures { AddsWords (λ (T : Rowed nodes.now entry row asset reader.now first.now last.now). reasons (tree_of T.view) entry (row_node (tree_of T.view) entry row)) 8192 out.old out.new 0 result }
{
    let start = items::first_statement(nodes, 0, entry);
    let mut clauses = [0u16; Image::NAMES];
    places::note_heads(Note::First, BURNS, nodes, entry, start, &mut clauses);
    let marks = tell_marks(asset, nodes, entry, start, row, &clauses, first, out);
    let body = items::statements(nodes, 0, entry, start);
    let mut consumers = [0u16; Image::NODES];
    tell_uses(body, start, row, reader, &mut consumers, last, out, marks)
}
