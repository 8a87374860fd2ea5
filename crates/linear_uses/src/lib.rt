// Marks and occurrences on the tracked rows: "Burn mark" and "Counted occurrences" of document 01, and which occurrence 62 is related to (E4 of document 02).
#![tactic(auto)]

ghost use Rattle.std.specs.Prelude.{◌≡◌, Bool, false, List, [], ◌++◌, ℕ, ◌+◌, ◌*◌, ◌<◌, eqb, get_or, set};
ghost use Rattle.nodes.specs.Shown.{In, Worded, tree_of};
ghost use Rattle.nodes.specs.Marks.{Marks};
ghost use Rattle.nodes.specs.First.{Head};
ghost use Rattle.linear_occurrences.specs.Counted.{Clear};
ghost use Rattle.linear_rows.specs.Tallies.{marks_at, count_at, related_turn, Tallied, Blank};
ghost use Rattle.linear_uses.specs.Uses.{SpareMarks, SpareCounts, OnRows, Burning, Unburned, Using, Marks-one, Uses-one, Spoken, burn_at, burns_on, uses_on};

use linear_occurrences::{Consumers, Occurrence};
use linear_rows::{COUNT, MARKS, RELATED, Tallies};
use nodes::{BURNS, Children, Marks, PARAM};
use places::Places;

// One more in a cell of a row.
fn add_one(tallies: &mut Tallies, row: usize, field: usize)
    requires { (row < 511) × (field < 3) × (get_or tallies.old (3 * row + field) 0 < 65535) }
    ensures { tallies.new ≡ set tallies.old (3 * row + field) (get_or tallies.old (3 * row + field) 0 + 1) }
{
    let i = 3 * row + field;
    tallies[i] = tallies[i] + 1;
}

// A mark on the row that the table notes for the word of node p, if it notes one.
fn mark_row(rows: &Places, nodes: &[u8], p: usize, tallies: &mut Tallies)
    requires { OnRows nodes.now 0 rows.now × Worded nodes.now 0 p × SpareMarks tallies.old }
    ensures { (T : OnRows nodes.now 0 rows.now) → Marks-one T p tallies.old tallies.new }
{
    let row = places::at(rows, nodes, 0, p);
    if row == 0 {
        return;
    }
    add_one(tallies, row - 1, MARKS);
}

// A node of an entry: a mark, if it is a parameter that a Burns clause burns.
fn burn_mark(
    asset: usize,
    nodes: &[u8],
    entry: usize,
    p: usize,
    burned: &Marks,
    rows: &Places,
    tallies: &mut Tallies,
)
    requires { Burning nodes.now entry asset burned.now rows.now × In nodes.now 0 p × SpareMarks tallies.old }
    ensures { (T : Burning nodes.now entry asset burned.now rows.now) (M : ℕ → List ℕ) → Tallied M (λ r. []) tallies.old
        → Tallied (λ r. M r ++ burn_at (tree_of T.on_rows.view) entry T.on_rows.row_of r p) (λ r. []) tallies.new }
{
    if nodes::kind(nodes, 0, p) != PARAM {
        return;
    }
    let inner = model::inner_of(nodes, p + 2, asset);
    if inner == 0 {
        return;
    }
    if nodes::is_marked(burned, nodes, 0, inner) {
        mark_row(rows, nodes, p + 1, tallies);
    }
}

// The burn marks of an entry, whose first statement is `to`, each on the first row of its parameter's name.
fn burn_marks(
    asset: usize,
    nodes: &[u8],
    entry: usize,
    to: usize,
    burned: &Marks,
    rows: &Places,
    tallies: &mut Tallies,
)
    requires { Burning nodes.now entry asset burned.now rows.now × Head nodes.now 0 entry to × Blank tallies.old }
    ensures { (T : Burning nodes.now entry asset burned.now rows.now) → Tallied (burns_on (tree_of T.on_rows.view) entry T.on_rows.row_of) (λ r. []) tallies.new }
{
    for part in Children::heads(nodes, entry, to) {
        burn_mark(asset, nodes, entry, part, burned, rows, tallies);
    }
}

// The same, with the names of the entry's Burns clauses marked before and the marks taken off after.
pub fn mark_burned(
    asset: usize,
    nodes: &[u8],
    entry: usize,
    to: usize,
    burned: &mut Marks,
    rows: &Places,
    tallies: &mut Tallies,
)
    requires { Unburned nodes.now asset burned.old rows.now × Head nodes.now 0 entry to × Blank tallies.old }
    ensures { (T : Unburned nodes.now asset burned.old rows.now) → Marks T.on_rows.view.image (λ w. false) burned.new
        × Tallied (burns_on (tree_of T.on_rows.view) entry T.on_rows.row_of) (λ r. []) tallies.new }
{
    nodes::mark_parts(BURNS, nodes, entry, to, true, burned);
    burn_marks(asset, nodes, entry, to, burned, rows, tallies);
    nodes::mark_parts(BURNS, nodes, entry, to, false, burned);
}

// Whether the occurrence that was counted last on a row is the one that 62 is related to: the first where the row has a burn mark, the second where it has none. All marks are there before the first occurrence.
fn is_related(tallies: &Tallies, row: usize) -> bool
    requires { row < 511 }
    ensures { result ≡ eqb (count_at tallies.now row) (related_turn (marks_at tallies.now row)) }
{
    let count = linear_rows::cell(tallies, row, COUNT);
    if linear_rows::cell(tallies, row, MARKS) == 0 {
        return count == 2;
    }
    count == 1
}

// A counted occurrence, if one was found, on the row that the table notes for its word, and the related word of that row.
fn use_row(
    found: Option<Occurrence>,
    nodes: &[u8],
    base: usize,
    rows: &Places,
    tallies: &mut Tallies,
)
    requires { OnRows nodes.now base rows.now × Spoken nodes.now base found × SpareCounts tallies.old }
    ensures { (T : OnRows nodes.now base rows.now) → Uses-one T found tallies.old tallies.new }
{
    let Some(Occurrence { ident, .. }) = found else {
        return;
    };
    let row = places::at(rows, nodes, base, ident);
    if row == 0 {
        return;
    }
    add_one(tallies, row - 1, COUNT);
    if is_related(tallies, row - 1) {
        tallies[3 * (row - 1) + RELATED] = ident as u16;
    }
}

// The counted occurrences in an entry's statements, lent as their own part of the node area, which starts with number `base`: one sweep that finds them, each with its consumer, and counts each on the last row of its name.
pub fn count_uses(
    nodes: &[u8],
    base: usize,
    reader: &Marks,
    consumers: &mut Consumers,
    rows: &Places,
    tallies: &mut Tallies,
)
    requires { Using nodes.now base reader.now rows.now × Clear base consumers.old × ((M : ℕ → List ℕ) × Tallied M (λ r. []) tallies.old) }
    ensures { (T : Using nodes.now base reader.now rows.now) → Clear T.counting.view.upto consumers.new
        × ((M : ℕ → List ℕ) → Tallied M (λ r. []) tallies.old
        → Tallied M (uses_on (tree_of T.counting.view) T.counting.entry T.row_of base T.counting.view.upto) tallies.new) }
{
    let end = base + nodes.len() / 16;
    for p in base..end {
        let found = linear_occurrences::occurrence_at(nodes, base, p, reader, consumers);
        use_row(found, nodes, base, rows, tallies);
    }
}
