// The tracked rows of an entry ("Linear" of document 01) and its 60s, collected in one walk over its parts; and taken off again.
#![tactic(auto)]

ghost use Rattle.std.specs.Prelude.{◌≡◌, ◌+◌, ◌*◌, ◌<◌, ◌≤◌, ◌^◌};
ghost use Rattle.rules.specs.Sweep.{same};
ghost use Rattle.rules.specs.Tree.{«let»};
ghost use Rattle.rules.specs.Vocabulary.{below, named};
ghost use Rattle.rules.specs.Linear.{rule60};
ghost use Rattle.records.specs.Records.{Adds, on, within};
ghost use Rattle.nodes.specs.Shown.{View, Worded, tree_of};
ghost use Rattle.places.specs.declared.Note.TheVariants.{Off};
ghost use Rattle.places.specs.Places.{Noted, Notes, noting};
ghost use Rattle.linear_parts.specs.Parts.{PartAt};
ghost use Rattle.linear_tracked.specs.Rows.{at60, Unrowed, TakesRow, TakesRows, Placed, Clears, PlaceOf};

use linear_parts::{Part, Words};
use nodes::{Children, LET};
use places::{Note, Places};

// One cell for each of the at most 511 rows of an entry.
pub type Cells = [u16; 511];

// A row's number, from 1 on, is noted for the word of node p.
fn note_row(note: Note, row: usize, nodes: &[u8], p: usize, rows: &mut Places)
    requires { Worded nodes.now 0 p × (row < 65536) }
    ensures { Notes (λ (W : View nodes.now 0) w v. noting note v (same ((tree_of W).text p) w) row) rows.old rows.new }
{
    let i = nodes::name(nodes, 0, p) - 1;
    rows[i] = places::taken(note, rows[i], row as u16);
}

// How far a walk over the parts of an entry has come: so many rows, and so many records of the list.
#[derive(Clone, Copy)]
pub struct Tracked {
    pub rows: usize,
    pub count: usize,
}

// Part p of an entry, after n rows and `count` records: a row more, a 60 more, or neither.
fn take_part(
    words: Words,
    nodes: &[u8],
    p: usize,
    entry: usize,
    n: usize,
    places: &mut Cells,
    first: &mut Places,
    last: &mut Places,
    out: &mut [u16],
    count: usize,
) -> Tracked
    requires { PartAt nodes.now words p first.old × (entry < 2048) × (4 * n < p) × (count < 2 ^ 51) }
    ensures takes_row { TakesRow nodes.now words p n places.old places.new first.old first.new last.old last.new result.rows }
    ensures adds { Adds (within entry p (p + 1) (λ (T : PartAt nodes.now words p first.old). on (λ t. at60 p t T.entry) (tree_of T.known.view))) 1 out.old out.new count result.count }
{
    match linear_parts::part_of(words, nodes, p, first) {
        Part::Row => {
            places[n] = linear_parts::place_of(nodes, p) as u16;
            note_row(Note::First, n + 1, nodes, p + 1, first);
            note_row(Note::Last, n + 1, nodes, p + 1, last);
            Tracked { rows: n + 1, count }
        }
        Part::Alias => {
            let total = records::emit(out, count, 60, p as u16, 0, entry as u16);
            Tracked {
                rows: n,
                count: total,
            }
        }
        Part::Other => Tracked { rows: n, count },
    }
}

// The rows of an entry and its 60s, both in order, in one walk over its parts. Each row has four nodes of the entry at least.
pub fn track(
    words: Words,
    nodes: &[u8],
    entry: usize,
    places: &mut Cells,
    first: &mut Places,
    last: &mut Places,
    out: &mut [u16],
    count: usize,
) -> Tracked
    requires { Unrowed nodes.now words entry places.old first.old last.old × (count < 2 ^ 50) }
    ensures rows_bound { (result.rows ≤ 511) × TakesRows nodes.now words entry places.old places.new first.old first.new last.old last.new result.rows }
    ensures adds { Adds (λ (T : Unrowed nodes.now words entry places.old first.old last.old). on (λ t. below t «let» entry (rule60 t entry)) (tree_of T.known.view)) 2048 out.old out.new count result.count }
{
    let mut tracked = Tracked { rows: 0, count };
    for part in Children::of(nodes, 0, entry) {
        tracked = take_part(
            words,
            nodes,
            part,
            entry,
            tracked.rows,
            places,
            first,
            last,
            out,
            tracked.count,
        );
    }
    tracked
}

// The node that has the name of the row at this place: the place itself, or the node after a Let.
pub fn name_at(nodes: &[u8], place: usize) -> usize
    requires { PlaceOf nodes.now place }
    ensures { (T : PlaceOf nodes.now place) → result ≡ T.row + 1 }
{
    if nodes::kind(nodes, 0, place) == LET {
        return place + 1;
    }
    place
}

// What is noted for the name of the row at this place is taken off.
fn untrack_row(nodes: &[u8], place: usize, rows: &mut Places)
    requires { PlaceOf nodes.now place }
    ensures { Noted (λ (T : PlaceOf nodes.now place). T.view.image) (λ T w v. noting Off v (named (tree_of T.view) w T.row) 0) rows.old rows.new }
{
    note_row(Note::Off, 0, nodes, name_at(nodes, place), rows);
}

// What the rows of an entry set in a table by name is taken off again, row by row.
pub fn untrack(n: usize, nodes: &[u8], places: &Cells, rows: &mut Places)
    requires { Placed nodes.now n places.now }
    ensures { Clears nodes.now n places.now rows.old rows.new }
{
    for k in 0..n {
        untrack_row(nodes, usize::from(places[k]), rows);
    }
}
