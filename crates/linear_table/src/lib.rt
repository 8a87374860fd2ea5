// The table of tracked rows of a contract in plain cells ("Linear" of document 01): the rows of its entries in order, up to the first entry that has a 60, which is an offence before those of its rows and of all entries after it.
#![tactic(auto)]

ghost use Rattle.std.specs.Prelude.{◌≡◌, List, [], ◌++◌, ◌+◌, ◌*◌, ◌<◌, ◌≤◌, length, get_or, MatchResult};
ghost use Rattle.rules.specs.Sweep.{run};
ghost use Rattle.nodes.specs.Shown.{In, Admitted, tree_of};
ghost use Rattle.linear_occurrences.specs.Counted.{Clear};
ghost use Rattle.linear_tracked.specs.Rows.{Unrowed, TakesRows, Placed, PlaceOf};
ghost use Rattle.linear_rows.specs.Tallies.{Blanks};
ghost use Rattle.linear.specs.Seen.{LinearTables};
ghost use Rattle.linear_table.specs.declared.Row.{Row};
ghost use Rattle.linear_table.specs.Table.{stored, Holds, row_by, rows_by, entry60s, First60, ItemStands, ItemStops, Cut, refused_table, TableOf};

use image::Image;
use linear::Tables;
use linear_parts::Words;
use linear_rows::Tallies;
use linear_tracked::Cells;
use nodes::{Children, ENTRY, Marks};
use places::Places;

// A tracked row: the number of its name, its place, its burn marks and its counted occurrences.
#[derive(Clone, Copy)]
pub struct Row {
    pub name: u16,
    pub place: u16,
    pub marks: u16,
    pub count: u16,
}

// Four cells for each of the at most 511 rows of a contract, then the place of the first 60 and the number of the image's refusal.
pub type Table = [u16; 2046];

pub const ALIAS: usize = 2044;

pub const REFUSED: usize = 2045;

// A row is stored in its four cells.
fn put(table: &mut Table, i: usize, row: Row)
    requires { i < 511 }
    ensures { table.new ≡ stored table.old i row }
{
    table[4 * i] = row.name;
    table[4 * i + 1] = row.place;
    table[4 * i + 2] = row.marks;
    table[4 * i + 3] = row.count;
}

// The row of an entry that has this place, with so many marks and occurrences.
fn row_of(nodes: &[u8], place: u16, marks: u16, count: u16) -> Row
    requires { PlaceOf nodes.now place }
    ensures { (T : PlaceOf nodes.now place) → result ≡ row_by T.view.image T.row place marks count }
{
    let p = linear_tracked::name_at(nodes, usize::from(place));
    let name = nodes::name(nodes, 0, p) as u16;
    Row {
        name,
        place,
        marks,
        count,
    }
}

// The n rows of an entry go to the table, after the `total` rows before. Their tallies are blank again.
fn stand(
    n: usize,
    nodes: &[u8],
    places: &Cells,
    tallies: &mut Tallies,
    table: &mut Table,
    total: usize,
)
    requires { Placed nodes.now n places.now × (total + n ≤ 511) }
    ensures holds { (T : Placed nodes.now n places.now) (rows : List Row) → length rows ≡ total → Holds rows table.old → Holds (rows ++ run (rows_by T tallies.old) 0 n) table.new }
    ensures blanks { Blanks n tallies.old tallies.new }
{
    for k in 0..n {
        let row = row_of(nodes, places[k], tallies[3 * k], tallies[3 * k + 1]);
        put(table, total + k, row);
        linear_rows::blank(tallies, k);
    }
}

// The rows of an entry are tracked: how many it has itself, or the place of its first 60.
fn track_entry(
    words: Words,
    nodes: &[u8],
    entry: usize,
    places: &mut Cells,
    first: &mut Places,
    last: &mut Places,
) -> Result<usize, u16>
    requires { Unrowed nodes.now words entry places.old first.old last.old }
    ensures { (T : Unrowed nodes.now words entry places.old first.old last.old) → MatchResult result
        (λ n. (entry60s (tree_of T.known.view) entry ≡ []) × TakesRows nodes.now words entry places.old places.new first.old first.new last.old last.new n)
        (λ alias. First60 (entry60s (tree_of T.known.view) entry) alias) }
{
    let mut out = [0u16; 4];
    let tracked = linear_tracked::track(words, nodes, entry, places, first, last, &mut out, 0);
    if tracked.count != 0 {
        return Err(out[1]);
    }
    Ok(tracked.rows)
}

// The rows of an item, if it is an Entry, or the place of its first 60: how many rows there are then. Where it has none, the other tables are left as they were found.
fn entry(
    words: Words,
    nodes: &[u8],
    item: usize,
    reader: &Marks,
    tables: &mut Tables,
    table: &mut Table,
    total: usize,
) -> Result<usize, u16>
    requires { LinearTables nodes.now words reader.now tables.old.burned tables.old.places tables.old.first tables.old.last tables.old.tallies × In nodes.now 0 item × (0 < item) × Clear item tables.old.consumers × (4 * total < item) }
    ensures { (T : LinearTables nodes.now words reader.now tables.old.burned tables.old.places tables.old.first tables.old.last tables.old.tallies) → MatchResult result
        (λ n. ItemStands T.known.view.image item total table.old table.new tables.new.burned tables.new.consumers tables.new.places tables.new.first tables.new.last tables.new.tallies n)
        (λ alias. ItemStops T.known.view.image item table.old table.new alias) }
{
    if nodes::kind(nodes, 0, item) != ENTRY {
        return Ok(total);
    }
    let n = track_entry(
        words,
        nodes,
        item,
        &mut tables.places,
        &mut tables.first,
        &mut tables.last,
    )?;
    linear::tally(
        words,
        nodes,
        item,
        reader,
        &mut tables.burned,
        &mut tables.consumers,
        &tables.first,
        &tables.last,
        &mut tables.tallies,
    );
    stand(n, nodes, &tables.places, &mut tables.tallies, table, total);
    linear_tracked::untrack(n, nodes, &tables.places, &mut tables.first);
    linear_tracked::untrack(n, nodes, &tables.places, &mut tables.last);
    Ok(total + n)
}

// The entries in order, up to the first that has a 60: its place.
fn entries(
    words: Words,
    nodes: &[u8],
    reader: &Marks,
    tables: &mut Tables,
    table: &mut Table,
) -> Result<(), u16>
    requires { LinearTables nodes.now words reader.now tables.old.burned tables.old.places tables.old.first tables.old.last tables.old.tallies × Clear 1 tables.old.consumers × Holds [] table.old }
    ensures { (T : LinearTables nodes.now words reader.now tables.old.burned tables.old.places tables.old.first tables.old.last tables.old.tallies) → MatchResult result
        (λ _. Cut T.known.view.image table.new 0) (λ alias. Cut T.known.view.image table.new alias) }
{
    let mut total = 0;
    for item in Children::of(nodes, 0, 0) {
        total = entry(words, nodes, item, reader, tables, table, total)?;
    }
    Ok(())
}

// The table of an admitted image.
fn tracked(image: &[u8], head: Image) -> Table
    requires { Admitted image.now head }
    ensures { TableOf image.now result }
{
    let nodes = nodes::area(image, head);
    let words = names::find_words(image, head);
    let asset_words = linear_parts::asset_words(words);
    let mut reader = [false; Image::NAMES];
    linear_occurrences::mark_readers(words, &mut reader);
    let mut tables = Tables::new();
    let mut table = [0u16; 2046];
    let stopped = entries(asset_words, nodes, &reader, &mut tables, &mut table);
    table[ALIAS] = match stopped {
        Ok(()) => 0,
        Err(alias) => alias,
    };
    table[REFUSED] = 0;
    table
}

// The table of an image that is refused by this number: no rows, and all other cells 0.
fn refused(number: usize) -> Table
    requires { number < 65536 }
    ensures { result ≡ refused_table number }
{
    let mut table = [0u16; 2046];
    table[REFUSED] = number as u16;
    table
}

// The table of any bytes.
pub fn table_of(image: &[u8]) -> Table
    ensures { TableOf image.now result }
{
    match admission::admit(image) {
        Err(refusal) => refused(refusal.number()),
        Ok(head) => tracked(image, head),
    }
}
