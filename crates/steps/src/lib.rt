// One step of the walk over the nodes of an image: what a node itself must be, whatever its children are, its name marked, and the
// position of the walk after it.
#![tactic(auto)]

ghost use Rattle.std.specs.Prelude.{◌≡◌, ℕ, ◌+◌, ◌*◌, ◌<◌, ◌≤◌, true, length, get_or, set, eqb};
ghost use Rattle.image.specs.Maxima.{max_nodes, max_names};
ghost use Rattle.image.specs.Node.{half, kind_of, name_of};
ghost use Rattle.image.specs.Digits.{kind_facts, kind_table, fields_ok};
ghost use Rattle.steps.specs.Steps.{root_ok, child_ok, begun, ascended, passed, Roomy, Opened, Further};
ghost use Rattle.image.specs.Text.{names_ok};
ghost use Rattle.image.specs.Tree.{carries, name_fits};

use children::{Kinds, MAY_END, START, TEXT};
use image::Image;

// The three parts of an image, lent, and how many nodes and names they have by its header.
#[derive(Clone, Copy)]
pub struct Parts<'a> {
    pub nodes: &'a [u8],
    pub names: &'a [u8],
    pub text: &'a [u8],
    pub n: usize,
    pub m: usize,
}

// Whether name number n fits a node of a kind that carries a text of form f. The names were judged before,
// so the first byte of one tells its form: a number text starts with a digit, and a letter or `_` is above every digit.
fn name_fits(parts: &Parts, f: usize, n: usize) -> bool
    requires { (2 * parts.now.m + 2 ≤ length parts.now.names.now) × (names_ok parts.now.names.now parts.now.text.now parts.now.m ≡ true) × (f < 3) }
    ensures { (k : ℕ) → f ≡ carries k → result ≡ name_fits parts.now.names.now parts.now.text.now parts.now.m k n }
{
    if f == 0 {
        return n == 0;
    }
    if n < 1 {
        return false;
    }
    if parts.m < n {
        return false;
    }
    let a = image::offset(parts.names, n - 1);
    if f == 2 {
        return parts.text[a] <= b'9';
    }
    b'9' < parts.text[a]
}

// Whether the byte and the u16 of node i that are to be 0 are.
fn zeros_ok(nodes: &[u8], i: usize) -> bool
    requires { 16 * i + 16 ≤ length nodes.now }
    ensures { result ≡ eqb (get_or nodes.now (16 * i + 1) 0 + half nodes.now (16 * i + 6)) 0 }
{
    usize::from(nodes[16 * i + 1]) + image::half_at(nodes, 16 * i + 6) == 0
}

// Whether the fields of node i, but for its end, are as the tree wants them; `of` are the facts of its kind.
fn fields_ok(parts: &Parts, of: usize, i: usize) -> bool
    requires { (16 * i + 16 ≤ length parts.now.nodes.now) × (2 * parts.now.m + 2 ≤ length parts.now.names.now) × (names_ok parts.now.names.now parts.now.text.now parts.now.m ≡ true) × (of ≡ kind_facts (kind_of parts.now.nodes.now i)) }
    ensures { result ≡ fields_ok parts.now.nodes.now parts.now.names.now parts.now.text.now parts.now.m i }
{
    if !zeros_ok(parts.nodes, i) {
        return false;
    }
    name_fits(parts, of / TEXT % 4, image::name(parts.nodes, i))
}

// Whether node 0 is the contract, ends at n, and has its fields in order.
pub fn root_ok(kinds: &Kinds, parts: &Parts) -> bool
    requires { (16 ≤ length parts.now.nodes.now) × (2 * parts.now.m + 2 ≤ length parts.now.names.now) × (names_ok parts.now.names.now parts.now.text.now parts.now.m ≡ true) × (kinds.now ≡ kind_table) }
    ensures { result ≡ root_ok parts.now.nodes.now parts.now.names.now parts.now.text.now parts.now.n parts.now.m }
{
    if image::kind(parts.nodes, 0) != 1 {
        return false;
    }
    if image::end(parts.nodes, 0) != parts.n {
        return false;
    }
    fields_ok(parts, children::facts(kinds, 1), 0)
}

// Whether the next node is in order as a child of the open one, whatever its own children are; `of` are the facts of its kind.
pub fn child_ok(parts: &Parts, of: usize, p: Position) -> bool
    requires { (16 * p.at + 16 ≤ length parts.now.nodes.now) × (2 * parts.now.m + 2 ≤ length parts.now.names.now) × (names_ok parts.now.names.now parts.now.text.now parts.now.m ≡ true) × (of ≡ kind_facts (kind_of parts.now.nodes.now p.at)) }
    ensures { result ≡ child_ok parts.now.nodes.now parts.now.names.now parts.now.text.now parts.now.m p.end p.at }
{
    if !fields_ok(parts, of, p.at) {
        return false;
    }
    let to = image::end(parts.nodes, p.at);
    p.at < to && to <= p.end
}

// The name of node i is marked.
pub fn mark(nodes: &[u8], i: usize, marks: &mut [bool; Image::NAMES + 1])
    requires { (16 * i + 16 ≤ length nodes.now) × (name_of nodes.now i ≤ max_names) }
    ensures { marks.new ≡ set marks.old (name_of nodes.now i) true }
{
    let x = image::name(nodes, i);
    marks[x] = true;
}

// Where the walk over the nodes stands. Nodes stand in preorder, so one node after the other is met, each as a child of the open node.
#[derive(Clone, Copy)]
pub struct Position {
    // The next node.
    pub at: usize,
    // How far the open node's children have got in its row of the table of children.
    pub state: usize,
    // Where the open node ends.
    pub end: usize,
    // How many ancestors the open node has: that many states and ends are on the stack.
    pub depth: usize,
    // The most that a node which was met has of ancestors besides the contract.
    pub deepest: usize,
}

// What is to be known of the ancestors of the open node, the contract first: the state of its row, and where it ends.
#[derive(Drop)]
pub struct Stack {
    pub states: [u8; Image::NODES],
    pub ends: [u16; Image::NODES],
}

// Before node 1: the contract, which ends at n, is open.
pub fn start(n: usize) -> Position
    ensures { result ≡ begun n }
{
    Position {
        at: 1,
        state: START,
        end: n,
        depth: 0,
        deepest: 0,
    }
}

// The open node ends here: its parent is open again, with the state and the end that the stack has of it.
pub fn up(p: Position, stack: &Stack) -> Position
    requires { (1 ≤ p.depth) × (p.depth ≤ max_nodes) }
    ensures { result ≡ ascended stack.now.states stack.now.ends p }
{
    let d = p.depth - 1;
    Position {
        at: p.at,
        state: usize::from(stack.states[d]),
        end: usize::from(stack.ends[d]),
        depth: d,
        deepest: p.deepest,
    }
}

// Past a node without children: its parent's row is in state `after`.
fn past(p: Position, after: usize) -> Position
    requires { p.at < max_nodes }
    ensures { result ≡ passed after p }
{
    Position {
        at: p.at + 1,
        state: after,
        end: p.end,
        depth: p.depth,
        deepest: p.deepest.max(p.depth),
    }
}

// Down into a node that ends at `to` and whose row starts in state `row`: what is to be known of its parent goes onto the stack.
fn down(p: Position, after: usize, row: usize, to: usize, stack: &mut Stack) -> Position
    requires { Roomy p after }
    ensures { Opened after row to stack.old.states stack.old.ends stack.new.states stack.new.ends p result }
{
    let d = p.depth;
    stack.states[d] = after as u8;
    stack.ends[d] = p.end as u16;
    Position {
        at: p.at + 1,
        state: row,
        end: to,
        depth: d + 1,
        deepest: p.deepest.max(d),
    }
}

// On to the node after this one. A node without children is passed, unless its row asks for some: then it is opened, and found to end too early.
pub fn on(p: Position, after: usize, row: usize, to: usize, stack: &mut Stack) -> Position
    requires { Roomy p after }
    ensures { Further after row to stack.old.states stack.old.ends stack.new.states stack.new.ends p result }
{
    if p.at + 1 < to || row < MAY_END {
        return down(p, after, row, to, stack);
    }
    past(p, after)
}
