// Nodes read from a part of the node area whose first node is number `base`; a mark for each name; the walk down an expression.
#![tactic(auto)]

ghost use Rattle.std.specs.Prelude.{◌≡◌, Bool, List, [], ◌∷◌, ℕ, ◌+◌, ◌-◌, ◌≤◌, ◌⊎◌};
ghost use Rattle.image.specs.Node.{end_of};
ghost use Rattle.image.specs.Admit.{node_count};
ghost use Rattle.rules.specs.Sweep.{also, has, same, has_word};
ghost use Rattle.rules.specs.Tree.{peels, state, type_holders};
ghost use Rattle.rules.specs.Vocabulary.{some_below, named, down, is_ident, is_field};
ghost use Rattle.nodes.specs.Shown.{View, In, Shown, Worded, Admitted, tree_of, number};
ghost use Rattle.nodes.specs.Marks.{Marks, Turns};
ghost use Rattle.nodes.specs.Past.{taken_off};
ghost use Rattle.nodes.specs.First.{NameFirst, HeadPart, Head};
ghost use Rattle.nodes.specs.Walk.{onward};
ghost use Rattle.nodes.specs.Cursors.{Stepped};

mod walk;

use image::Image;
pub use walk::{Children, Declarations};

// One mark for each of 1,024 names, by name number less one: a table of set size, as document 01 names the form, and no map.
pub type Marks = [bool; Image::NAMES];

// The kinds of document 01 that the passes name.
pub const ASSET: usize = 2;

pub const STATE: usize = 3;

pub const FIELD_DECL: usize = 4;

pub const EVENT: usize = 5;

pub const GENESIS: usize = 7;

pub const INVARIANT: usize = 8;

pub const ENTRY: usize = 9;

pub const PARAM: usize = 10;

pub const TYPE: usize = 11;

pub const WRITES: usize = 14;

pub const READS: usize = 15;

pub const CONSERVES: usize = 16;

pub const MINTS: usize = 17;

pub const BURNS: usize = 18;

pub const LIMITS: usize = 19;

pub const DENIES: usize = 20;

pub const AFTER: usize = 21;

pub const NAME: usize = 23;

pub const LET: usize = 25;

pub const EMIT: usize = 26;

pub const ASSIGN: usize = 27;

pub const IDENT: usize = 35;

pub const CALLER: usize = 36;

pub const FIELD: usize = 42;

pub const CALL: usize = 43;

// The nodes of an admitted image.
pub fn area(image: &[u8], head: Image) -> &[u8]
    requires { Admitted image.now head }
    ensures { Shown image.now result.now 0 (node_count image.now) }
{
    let end = head.names_at();
    &image[Image::HEADER..end]
}

pub fn kind(nodes: &[u8], base: usize, p: usize) -> usize
    requires { In nodes.now base p }
    ensures { (W : View nodes.now base) → result ≡ (tree_of W).kind p }
{
    image::kind(nodes, p - base)
}

pub fn end(nodes: &[u8], base: usize, p: usize) -> usize
    requires { In nodes.now base p }
    ensures { (W : View nodes.now base) → result ≡ (tree_of W).end p }
{
    image::end(nodes, p - base)
}

pub fn name(nodes: &[u8], base: usize, p: usize) -> usize
    requires { In nodes.now base p }
    ensures { (W : View nodes.now base) → result ≡ number W.image p }
{
    image::name(nodes, p - base)
}

// A position among the children of a node, in a part of the node area whose first node is number `base`: at the next child, or at the end of those that are walked over.
#[derive(Clone, Copy)]
pub struct Cursor {
    pub base: usize,
    pub at: usize,
    pub end: usize,
}

// One step: the child that the cursor was at, and the cursor moved past it.
#[derive(Clone, Copy)]
pub struct Step {
    pub child: usize,
    pub rest: Cursor,
}

impl Cursor {
    // Past the child at the cursor: the next one begins at its end. This is the one place where a walk goes from child to child.
    pub fn step(self, nodes: &[u8]) -> Step
        requires { In nodes.now self.base self.at }
        ensures { Stepped nodes.now self result }
    {
        let base = self.base;
        let child = self.at;
        let to = self.end;
        let at = image::end(nodes, child - base);
        Step {
            child,
            rest: Cursor { base, at, end: to },
        }
    }
}

// Whether the word of node p is marked.
pub fn is_marked(marks: &Marks, nodes: &[u8], base: usize, p: usize) -> bool
    requires { Worded nodes.now base p }
    ensures { (W : View nodes.now base) (P : List ℕ → Bool) → Marks W.image P marks.now → result ≡ P ((tree_of W).text p) }
{
    let x = name(nodes, base, p);
    marks[x - 1]
}

// Sets the mark of the word of node p, or takes it off.
pub fn mark(marks: &mut Marks, nodes: &[u8], base: usize, p: usize, on: bool)
    requires { Worded nodes.now base p }
    ensures { Turns on (λ (W : View nodes.now base). same ((tree_of W).text p)) marks.old marks.new }
{
    let x = name(nodes, base, p);
    marks[x - 1] = on;
}

// The mark of the Name of a node of this kind is set, or taken off.
pub fn mark_name(sort: usize, nodes: &[u8], p: usize, on: bool, marks: &mut Marks)
    requires { NameFirst sort × View nodes.now 0 × In nodes.now 0 p }
    ensures { Turns on (λ (W : View nodes.now 0) w. also (has ((tree_of W).kind p) (sort ∷ [])) (named (tree_of W) w) p) marks.old marks.new }
{
    if kind(nodes, 0, p) == sort {
        mark(marks, nodes, 0, p + 1, on);
    }
}

// The marks of the Names of the parts of an entry of this kind are set, or taken off, by a walk over its children before `to`, its first statement.
pub fn mark_parts(sort: usize, nodes: &[u8], entry: usize, to: usize, on: bool, marks: &mut Marks)
    requires { HeadPart sort × Head nodes.now 0 entry to }
    ensures { Turns on (λ (W : View nodes.now 0) w. some_below (tree_of W) (sort ∷ []) entry (named (tree_of W) w)) marks.old marks.new }
{
    for part in Children::heads(nodes, entry, to) {
        mark_name(sort, nodes, part, on, marks);
    }
}

// What is taken off on the way down an expression: Checked and Wrapping, Fields, or all three. A case and not a closure: contracts say what each takes off, by `taken_off`.
#[derive(Clone, Copy)]
pub enum Past {
    Peels,
    Fields,
    Both,
}

// Checked and Wrapping.
#[tactic(auto, using(std::proofs::lemmas::Bool::Decides::nat_tests), unfolding(rules::specs::Sweep::has))]
fn is_peel(k: usize) -> bool
    ensures { result ≡ has k peels }
{
    matches!(k, 44 | 45)
}

#[tactic(auto, using(std::proofs::lemmas::Bool::Decides::nat_tests), unfolding(rules::specs::Sweep::has))]
fn is_past(past: Past, k: usize) -> bool
    ensures { result ≡ has k (taken_off past) }
{
    match past {
        Past::Peels => is_peel(k),
        Past::Fields => k == FIELD,
        Past::Both => k == FIELD || is_peel(k),
    }
}

// Down from x, past what is taken off, to the first node that is not; the end of x if there is none.
pub fn down(past: Past, nodes: &[u8], base: usize, x: usize) -> usize
    requires { View nodes.now base × In nodes.now base x }
    ensures { (x ≤ result) × ((W : View nodes.now base) → result ≡ down (tree_of W) (taken_off past) x) }
{
    let to = end(nodes, base, x);
    for r in x..to {
        if !is_past(past, kind(nodes, base, r)) {
            return r;
        }
    }
    to
}

// The next node of a walk over the items and the fields of a contract: into a State, past any other node.
pub fn next_declaration(nodes: &[u8], base: usize, p: usize) -> usize
    requires { In nodes.now base p }
    ensures moved { (W : View nodes.now base) → result ≡ onward (tree_of W) state p }
    ensures goes_on { (result ≡ p + 1) ⊎ (result ≡ end_of nodes.now (p - base)) }
{
    if kind(nodes, base, p) == STATE {
        return p + 1;
    }
    image::end(nodes, p - base)
}

// The kinds that may hold a Type.
#[tactic(auto, using(std::proofs::lemmas::Bool::Decides::nat_tests), unfolding(rules::specs::Sweep::has))]
fn is_type_holder(k: usize) -> bool
    ensures { result ≡ has k type_holders }
{
    matches!(k, STATE | FIELD_DECL | ENTRY | PARAM | TYPE)
}

// The next node of a walk over the types of a contract: into what may hold one, past any other node.
pub fn next_type(nodes: &[u8], base: usize, p: usize) -> usize
    requires { In nodes.now base p }
    ensures { (W : View nodes.now base) → result ≡ onward (tree_of W) type_holders p }
{
    if is_type_holder(kind(nodes, base, p)) {
        return p + 1;
    }
    end(nodes, base, p)
}

// Whether x is an Ident of a word that is marked.
pub fn is_ident(nodes: &[u8], base: usize, x: usize, marks: &Marks) -> bool
    requires { View nodes.now base × In nodes.now base x }
    ensures { (W : View nodes.now base) (ws : List (List ℕ)) → Marks W.image (λ w. has_word w ws) marks.now → result ≡ is_ident (tree_of W) ws x }
{
    if kind(nodes, base, x) != IDENT {
        return false;
    }
    is_marked(marks, nodes, base, x)
}

// Whether x is a Field of a word that is marked.
pub fn is_field(nodes: &[u8], base: usize, x: usize, marks: &Marks) -> bool
    requires { View nodes.now base × In nodes.now base x }
    ensures { (W : View nodes.now base) (ws : List (List ℕ)) → Marks W.image (λ w. has_word w ws) marks.now → result ≡ is_field (tree_of W) ws x }
{
    if kind(nodes, base, x) != FIELD {
        return false;
    }
    is_marked(marks, nodes, base, end(nodes, base, x + 1))
}
