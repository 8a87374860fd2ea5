// The linear pass: codes 60, 61 and 62 of document 01, entry by entry, as the pass's part of the list.
#![tactic(auto)]

ghost use Rattle.std.specs.Prelude.{◌≡◌, ◌*◌, ◌<◌, ◌^◌};
ghost use Rattle.rules.specs.Linear.{linear};
ghost use Rattle.records.specs.Records.{Adds, on};
ghost use Rattle.nodes.specs.Shown.{In, tree_of};
ghost use Rattle.linear_occurrences.specs.Counted.{Clear};
ghost use Rattle.linear.specs.Seen.{LookedWords, RowsNoted, Tallies-entry, LinearTables, CleansRows, fresh_tables, seen_linear, item_linear};

use image::Image;
use linear_occurrences::Consumers;
use linear_parts::Words;
use linear_rows::Tallies;
use linear_tracked::Cells;
use nodes::{Children, ENTRY, Marks};
use places::Places;

// What the pass is lent from entry to entry: the names that an entry burns, what takes each node, the places of its rows, for each name the first and the last row, and the tallies of the rows.
#[derive(Drop)]
pub struct Tables {
    pub burned: Marks,
    pub consumers: Consumers,
    pub places: Cells,
    pub first: Places,
    pub last: Places,
    pub tallies: Tallies,
}

impl Tables {
    // With nothing in them.
    pub fn new() -> Tables
        ensures { result ≡ fresh_tables }
    {
        Tables {
            burned: [false; Image::NAMES],
            consumers: [0; Image::NODES],
            places: [0; 511],
            first: [0; Image::NAMES],
            last: [0; Image::NAMES],
            tallies: [0; 1533],
        }
    }
}

// The marks and the counted occurrences of an entry on its rows.
pub fn tally(
    words: Words,
    nodes: &[u8],
    entry: usize,
    reader: &Marks,
    burned: &mut Marks,
    consumers: &mut Consumers,
    first: &Places,
    last: &Places,
    tallies: &mut Tallies,
)
    requires { RowsNoted nodes.now words entry reader.now burned.old first.now last.now tallies.old × In nodes.now 0 entry × (0 < entry) × Clear entry consumers.old }
    ensures { (T : RowsNoted nodes.now words entry reader.now burned.old first.now last.now tallies.old) → Tallies-entry T burned.new consumers.new tallies.new }
{
    let asset = words.asset;
    let start = items::first_statement(nodes, 0, entry);
    linear_uses::mark_burned(asset, nodes, entry, start, burned, first, tallies);
    let body = items::statements(nodes, 0, entry, start);
    linear_uses::count_uses(body, start, reader, consumers, last, tallies);
}

// 60, 61 and 62 in an item, if it is an Entry. The tables are left as they were found.
fn entry(
    words: Words,
    nodes: &[u8],
    item: usize,
    reader: &Marks,
    tables: &mut Tables,
    out: &mut [u16],
    count: usize,
) -> usize
    requires { LinearTables nodes.now words reader.now tables.old.burned tables.old.places tables.old.first tables.old.last tables.old.tallies × In nodes.now 0 item × (0 < item) × Clear item tables.old.consumers × (count < 2 ^ 49) }
    ensures adds { Adds (seen_linear (item_linear item) nodes.now words reader.now tables.old.burned tables.old.places tables.old.first tables.old.last tables.old.tallies) 3070 out.old out.new count result }
    ensures cleans_rows { CleansRows item nodes.now words reader.now tables.old.burned tables.new.burned tables.old.consumers tables.new.consumers tables.old.places tables.new.places tables.old.first tables.new.first tables.old.last tables.new.last tables.old.tallies tables.new.tallies }
{
    if nodes::kind(nodes, 0, item) != ENTRY {
        return count;
    }
    let tracked = linear_tracked::track(
        words,
        nodes,
        item,
        &mut tables.places,
        &mut tables.first,
        &mut tables.last,
        out,
        count,
    );
    let n = tracked.rows;
    let aliased = tracked.count;
    tally(
        words,
        nodes,
        item,
        reader,
        &mut tables.burned,
        &mut tables.consumers,
        &tables.first,
        &tables.last,
        &mut tables.tallies,
    );
    let total = linear_rows::judge(item, n, &tables.places, &mut tables.tallies, out, aliased);
    linear_tracked::untrack(n, nodes, &tables.places, &mut tables.first);
    linear_tracked::untrack(n, nodes, &tables.places, &mut tables.last);
    total
}

// The entries in order.
fn entries(
    words: Words,
    nodes: &[u8],
    reader: &Marks,
    tables: &mut Tables,
    out: &mut [u16],
) -> usize
    requires { LinearTables nodes.now words reader.now tables.old.burned tables.old.places tables.old.first tables.old.last tables.old.tallies × Clear 1 tables.old.consumers }
    ensures { Adds (seen_linear linear nodes.now words reader.now tables.old.burned tables.old.places tables.old.first tables.old.last tables.old.tallies) (3070 * 2048) out.old out.new 0 result }
{
    let mut total = 0;
    for item in Children::from(nodes, 0, 0, 1) {
        total = entry(words, nodes, item, reader, tables, out, total);
    }
    total
}

// The records of the linear pass of an admitted image, from the buffer's start.
pub fn list(nodes: &[u8], words: names::Words, out: &mut [u16]) -> usize
    requires { LookedWords nodes.now words }
    ensures { Adds (λ (T : LookedWords nodes.now words). on linear (tree_of T.view)) (3070 * 2048) out.old out.new 0 result }
{
    let asset_words = linear_parts::asset_words(words);
    let mut reader = [false; Image::NAMES];
    linear_occurrences::mark_readers(words, &mut reader);
    let mut tables = Tables::new();
    entries(asset_words, nodes, &reader, &mut tables, out)
}
