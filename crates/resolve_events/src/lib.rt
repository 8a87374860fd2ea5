// The Emits of a contract: codes 30 and 31 of document 01, item by item.
#![tactic(auto)]

ghost use Rattle.std.specs.Prelude.{◌≡◌, false, [], ◌∷◌, ◌*◌, ◌<◌, ◌^◌};
ghost use Rattle.rules.specs.Tree.{event, genesis};
ghost use Rattle.rules.specs.Resolve.{emits, group30};
ghost use Rattle.records.specs.Records.{Adds, on};
ghost use Rattle.nodes.specs.Shown.{View, In, tree_of};
ghost use Rattle.nodes.specs.Items.{NoItem};
ghost use Rattle.nodes.specs.Entries.{in_part};
ghost use Rattle.items.specs.Found.{ItemsOf};
ghost use Rattle.places.specs.declared.Note.TheVariants.{Last};
ghost use Rattle.places.specs.Places.{Notes, notes_below};
ghost use Rattle.resolve_emits.specs.Emitted.{Emitted};
ghost use Rattle.resolve_events.specs.Events.{Bodied, Events, item30, swept30, events};

use image::Image;
use items::Items;
use nodes::{Children, ENTRY, EVENT, GENESIS};
use places::{Note, Places};

// 30 and 31 in an item's statements, each from the end of the one before it; they stand in this entry (0: in none), and are lent as their own part of the node area, which starts with number `base`.
fn statements(
    nodes: &[u8],
    base: usize,
    entry: usize,
    area: &[u8],
    last: &Places,
    out: &mut [u16],
    count: usize,
) -> usize
    requires { Emitted nodes.now base area.now last.now × (count < 2 ^ 50) × (entry < 2048) }
    ensures { Adds (in_part entry nodes.now base (swept30 nodes.now base area.now last.now)) 4096 out.old out.new count result }
{
    let mut total = count;
    for s in Children::all(nodes, base) {
        total = resolve_emits::emit(nodes, base, entry, s, area, last, out, total);
    }
    total
}

// 30 and 31 in an item, if it is of this kind.
fn item(
    kind: usize,
    nodes: &[u8],
    item: usize,
    last: &Places,
    out: &mut [u16],
    count: usize,
) -> usize
    requires { Events nodes.now last.now × Bodied kind × In nodes.now 0 item × (0 < item) × (count < 2 ^ 50) }
    ensures { Adds (events (item30 kind item) nodes.now last.now) 4096 out.old out.new count result }
{
    if nodes::kind(nodes, 0, item) != kind {
        return count;
    }
    let first = items::first_statement(nodes, 0, item);
    let body = items::statements(nodes, 0, item, first);
    let entry = items::entry_of(kind, item);
    statements(body, first, entry, nodes, last, out, count)
}

// 30 and 31 in the items of this kind, in order.
fn emits(kind: usize, nodes: &[u8], last: &Places, out: &mut [u16], count: usize) -> usize
    requires { Events nodes.now last.now × Bodied kind × (count < 2 ^ 45) }
    ensures { Adds (events (λ t. emits t (kind ∷ [])) nodes.now last.now) (4096 * 2048) out.old out.new count result }
{
    let mut total = count;
    for node in Children::of(nodes, 0, 0) {
        total = item(kind, nodes, node, last, out, total);
    }
    total
}

// The last event of each name is noted; nothing is where the contract has no Event.
fn note_events(has: bool, nodes: &[u8], last: &mut Places)
    requires { View nodes.now 0 × In nodes.now 0 0 × (has ≡ false → NoItem event nodes.now) }
    ensures { Notes (λ (W : View nodes.now 0). notes_below Last (tree_of W) event 0) last.old last.new }
{
    if !has {
        return;
    }
    places::note_names(Note::Last, EVENT, nodes, last);
}

// 30 and 31 in each Genesis; nothing where the contract has none.
fn genesis_emits(has: bool, nodes: &[u8], last: &Places, out: &mut [u16], count: usize) -> usize
    requires { Events nodes.now last.now × (count < 2 ^ 45) × (has ≡ false → NoItem genesis nodes.now) }
    ensures { Adds (events (λ t. emits t genesis) nodes.now last.now) (4096 * 2048) out.old out.new count result }
{
    if !has {
        return count;
    }
    emits(GENESIS, nodes, last, out, count)
}

// 30 and 31: the entries, then each Genesis.
pub fn group30(nodes: &[u8], items: Items, out: &mut [u16], count: usize) -> usize
    requires { View nodes.now 0 × In nodes.now 0 0 × (count < 2 ^ 40) × ItemsOf nodes.now items }
    ensures { Adds (λ (W : View nodes.now 0). on group30 (tree_of W)) (2 * 4096 * 2048) out.old out.new count result }
{
    let mut last = [0u16; Image::NAMES];
    note_events(items.event, nodes, &mut last);
    let total = emits(ENTRY, nodes, &last, out, count);
    genesis_emits(items.genesis, nodes, &last, out, total)
}
