// Counted occurrences ("Linear" of document 01, E5 of document 02): the Idents that an Assign takes as its bare value, or a Call as an argument, each with the node that takes it.
#![tactic(auto)]

ghost use Rattle.std.specs.Prelude.{◌≡◌, false, List, ℕ, ◌<◌, get_or, set};
ghost use Rattle.image.specs.Admit.{refusal};
ghost use Rattle.nodes.specs.Shown.{View, In, tree_of};
ghost use Rattle.nodes.specs.Marks.{Marks};
ghost use Rattle.names.specs.Spelled.{WordsOf};
ghost use Rattle.linear_occurrences.specs.Counted.{IsCall, Counting, Finds, Takes, TakesItsOwn, consumed_by, peels_to, is_taken, is_reader};

use image::Image;
use names::Words;
use nodes::{ASSIGN, CALL, Children, IDENT, Marks, Past};

// For each of 2,048 nodes, by its number, the Assign or the Call that takes it; 0 where none does, as node 0 is the contract. A table of set size, as document 01 names the form, and no map.
pub type Consumers = [u16; Image::NODES];

// A counted occurrence: its Ident and the node that consumes it.
#[derive(Clone, Copy)]
pub struct Occurrence {
    pub ident: usize,
    pub consumer: u16,
}

// An Ident, by what the table has for it.
fn consumed(consumers: &Consumers, ident: usize) -> Option<Occurrence>
    requires { ident < 2048 }
    ensures { result ≡ consumed_by ident (get_or consumers.now ident 0) }
{
    let consumer = consumers[ident];
    if consumer == 0 {
        return None;
    }
    Some(Occurrence { ident, consumer })
}

// A node is taken by `consumer`.
fn take(consumers: &mut Consumers, node: usize, consumer: usize)
    requires { (node < 2048) × (consumer < 2048) }
    ensures { consumers.new ≡ set consumers.old node consumer }
{
    consumers[node] = consumer as u16;
}

// The Call takes the node that an argument peels to.
fn take_argument(nodes: &[u8], base: usize, call: usize, argument: usize, consumers: &mut Consumers)
    requires { View nodes.now base × In nodes.now base call × In nodes.now base argument }
    ensures { Takes call (λ (W : View nodes.now base) i. peels_to (tree_of W) i argument) consumers.old consumers.new }
{
    let bottom = nodes::down(Past::Peels, nodes, base, argument);
    if bottom < nodes::end(nodes, base, argument) {
        take(consumers, bottom, call);
    }
}

// The Call takes the nodes that its arguments peel to: its children after the callee.
fn take_arguments(nodes: &[u8], base: usize, call: usize, consumers: &mut Consumers)
    requires { View nodes.now base × IsCall nodes.now base call }
    ensures { Takes call (λ (W : View nodes.now base) i. is_taken (tree_of W) i call) consumers.old consumers.new }
{
    let callee = call + 1;
    let from = nodes::end(nodes, base, callee);
    for argument in Children::from(nodes, base, call, from) {
        take_argument(nodes, base, call, argument, consumers);
    }
}

// The counted occurrence at node p, if it is one. It is asked node by node from the entry's first statement on: what p itself takes stands after it, and the table has it then.
pub fn occurrence_at(
    nodes: &[u8],
    base: usize,
    p: usize,
    reader: &Marks,
    consumers: &mut Consumers,
) -> Option<Occurrence>
    requires { Counting nodes.now base reader.now × In nodes.now base p }
    ensures finds { Finds nodes.now base reader.now p consumers.old result }
    ensures takes_its_own { TakesItsOwn nodes.now base reader.now p consumers.old consumers.new }
{
    match nodes::kind(nodes, base, p) {
        IDENT => consumed(consumers, p),
        ASSIGN => {
            let value = nodes::end(nodes, base, p + 1);
            take(consumers, value, p);
            None
        }
        CALL => {
            if nodes::is_field(nodes, base, p + 1, reader) {
                return None;
            }
            take_arguments(nodes, base, p, consumers);
            None
        }
        _ => None,
    }
}

// The marks of the words that only read their arguments.
pub fn mark_readers(words: Words, reader: &mut Marks)
    requires { (s : List ℕ) × (refusal s ≡ 0) × WordsOf s words }
    ensures { (s : List ℕ) → refusal s ≡ 0 → WordsOf s words → Marks s (λ w. false) reader.old → Marks s is_reader reader.new }
{
    let get = words.methods.get;
    let contains = words.methods.contains;
    names::mark_number(get, reader);
    names::mark_number(contains, reader);
    names::mark_number(words.has, reader);
}
