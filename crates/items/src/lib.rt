// The items of a contract: which of them there are, and the statements of one, lent as their own part of the node area.
#![tactic(auto)]

ghost use Rattle.std.specs.Prelude.{◌≡◌, ◌<◌, eqb};
ghost use Rattle.image.specs.Pick.{pick};
ghost use Rattle.rules.specs.Sweep.{either, has};
ghost use Rattle.rules.specs.Tree.{bodied, statement};
ghost use Rattle.nodes.specs.Shown.{View, In, Shown, tree_of};
ghost use Rattle.nodes.specs.First.{Starts, Body};
ghost use Rattle.items.specs.Found.{ItemsOf};

use nodes::{Children, ENTRY, EVENT, GENESIS};

// Which items a contract has: an Event, a Genesis. Where it has none, what is asked of them is not asked.
#[derive(Clone, Copy)]
pub struct Items {
    pub event: bool,
    pub genesis: bool,
}

// With one more item, of kind k.
fn with_item(items: Items, k: usize) -> Items
    ensures { (result.event ≡ either (eqb k 5) items.event) × (result.genesis ≡ either (eqb k 7) items.genesis) }
{
    Items {
        event: k == EVENT || items.event,
        genesis: k == GENESIS || items.genesis,
    }
}

// The items of a contract at a glance.
pub fn find_items(nodes: &[u8]) -> Items
    requires { View nodes.now 0 × In nodes.now 0 0 }
    ensures { ItemsOf nodes.now result }
{
    let mut items = Items {
        event: false,
        genesis: false,
    };
    for item in Children::of(nodes, 0, 0) {
        items = with_item(items, nodes::kind(nodes, 0, item));
    }
    items
}

// Genesis and Entry, the items that hold statements.
#[tactic(auto, using(std::proofs::lemmas::Bool::Decides::nat_tests), unfolding(rules::specs::Sweep::has))]
pub fn is_bodied(k: usize) -> bool
    ensures { result ≡ has k bodied }
{
    matches!(k, GENESIS | ENTRY)
}

// The entry that the nodes of an item of kind k stand in: the item itself, if it is an Entry; else none, 0, which the entry word of a record is then.
#[tactic(auto, using(std::proofs::lemmas::Bool::Decides::nat_tests))]
pub fn entry_of(k: usize, item: usize) -> usize
    ensures { result ≡ pick (eqb k 9) item 0 }
{
    if k == ENTRY { item } else { 0 }
}

#[tactic(auto, using(std::proofs::lemmas::Bool::Decides::nat_tests), unfolding(rules::specs::Sweep::has))]
pub fn is_statement(k: usize) -> bool
    ensures { result ≡ has k statement }
{
    matches!(k, 24..=28)
}

// The first statement of an entry, found child by child; the entry's end if it has none.
pub fn first_statement(nodes: &[u8], base: usize, entry: usize) -> usize
    requires { View nodes.now base × In nodes.now base entry × (0 < entry) }
    ensures { (W : View nodes.now base) → Starts W entry result }
{
    for child in Children::of(nodes, base, entry) {
        if is_statement(nodes::kind(nodes, base, child)) {
            return child;
        }
    }
    nodes::end(nodes, base, entry)
}

// The statements of an entry, from the first one on, as their own part of the node area.
pub fn statements(nodes: &[u8], base: usize, entry: usize, first: usize) -> &[u8]
    requires { Body nodes.now base entry first }
    ensures { (W : View nodes.now base) → Shown W.image result.now first ((tree_of W).end entry) }
{
    let from = 16 * (first - base);
    let to = 16 * (nodes::end(nodes, base, entry) - base);
    &nodes[from..to]
}
