// Admission: every byte slice is an image, or is refused by number. The header's refusals, 1 to 4, are `Image::read`'s; here are one walk over
// the nodes (6 and 7, and the marks behind 8) and the refusals in their order.
#![tactic(auto)]

ghost use Rattle.std.specs.Prelude.{◌≡◌, ℕ, ◌+◌, ◌*◌, ◌<◌, ◌≤◌, true, false, length, get_or, replicate, ltb};
ghost use Rattle.image.specs.Pick.{pick, every};
ghost use Rattle.image.specs.Maxima.{max_nodes, max_names, max_depth};
ghost use Rattle.image.specs.Digits.{Rooted, WalkTables, mark_at, next_states, kind_table};
ghost use Rattle.image.specs.Text.{names_ok};
ghost use Rattle.image.specs.Tree.{node_ok, tree_ok, depth_ok, used_in};
ghost use Rattle.admission.specs.Refused.{refused_by};
ghost use Rattle.image.specs.Admit.{body_refusal, refusal, admission_of};

use children::{KINDS, Kinds, MAY_END, Nexts, ROW, TEXT};
use image::{Image, Refusal};
use steps::{Parts, Stack};

// Refusal 7, where `deepest` is what the deepest node has of ancestors besides the contract.
fn check_depth(deepest: usize) -> Result<(), Refusal>
    ensures { refused_by result ≡ pick (ltb deepest max_depth) 0 7 }
{
    if deepest < Image::DEPTH {
        return Ok(());
    }
    Err(Refusal::Depth)
}

// Refusals 6 and 7, given what was seen of node 0, and a mark for each name that a node has: one walk over the nodes, with the ancestors of the open node on a stack.
fn walk(
    kinds: &Kinds,
    nexts: &Nexts,
    parts: &Parts,
    stack: &mut Stack,
    marks: &mut [bool; Image::NAMES + 1],
) -> Result<(), Refusal>
    requires { (parts.now.n ≤ max_nodes) × (parts.now.m ≤ max_names) × (16 * parts.now.n ≤ length parts.now.nodes.now) × (2 * parts.now.m + 2 ≤ length parts.now.names.now) × (names_ok parts.now.names.now parts.now.text.now parts.now.m ≡ true) × (kinds.now ≡ kind_table) × (nexts.now ≡ next_states) × Rooted parts.now.nodes.now parts.now.names.now parts.now.text.now parts.now.n parts.now.m × WalkTables parts.now.nodes.now stack.old.states stack.old.ends marks.old }
    ensures value { refused_by result ≡ pick (every (node_ok parts.now.nodes.now parts.now.names.now parts.now.text.now parts.now.n parts.now.m) parts.now.n) (pick (depth_ok parts.now.nodes.now parts.now.n) 0 7) 6 }
    ensures false_after { refused_by result ≡ 0 → (k : ℕ) → k < max_names → get_or marks.new (k + 1) false ≡ used_in parts.now.nodes.now parts.now.n k }
{
    let mut p = steps::start(parts.n);
    loop {
        if p.end == p.at {
            if p.state < MAY_END {
                return Err(Refusal::Tree);
            }
            if p.depth < 1 {
                return check_depth(p.deepest);
            }
            p = steps::up(p, stack);
        } else {
            let of = children::facts(kinds, image::kind(parts.nodes, p.at));
            if !steps::child_ok(parts, of, p) {
                return Err(Refusal::Tree);
            }
            steps::mark(parts.nodes, p.at, marks);
            let after = children::next(nexts, p.state, of % TEXT);
            p = steps::on(p, after, of / ROW, image::end(parts.nodes, p.at), stack);
        }
    }
}

// Refusals 6 and 7, for the whole tree, and a mark for each name that a node has.
fn tree(parts: &Parts, marks: &mut [bool; Image::NAMES + 1]) -> Result<(), Refusal>
    requires { (1 ≤ parts.now.n) × (parts.now.n ≤ max_nodes) × (parts.now.m ≤ max_names) × (16 * parts.now.n ≤ length parts.now.nodes.now) × (2 * parts.now.m + 2 ≤ length parts.now.names.now) × (names_ok parts.now.names.now parts.now.text.now parts.now.m ≡ true) × (marks.old ≡ replicate (max_names + 1) false) }
    ensures value { refused_by result ≡ pick (tree_ok parts.now.nodes.now parts.now.names.now parts.now.text.now parts.now.n parts.now.m) (pick (depth_ok parts.now.nodes.now parts.now.n) 0 7) 6 }
    ensures false_after { refused_by result ≡ 0 → (k : ℕ) → k < max_names → get_or marks.new (k + 1) false ≡ used_in parts.now.nodes.now parts.now.n k }
{
    let kinds = KINDS;
    if !steps::root_ok(&kinds, parts) {
        return Err(Refusal::Tree);
    }
    steps::mark(parts.nodes, 0, marks);
    let nexts = children::transitions();
    let mut stack = Stack {
        states: [0; Image::NODES],
        ends: [0; Image::NODES],
    };
    walk(&kinds, &nexts, parts, &mut stack, marks)
}

// Refusal 8: the marks of the m names are read.
fn used_ok(marks: &[bool; Image::NAMES + 1], m: usize) -> bool
    requires { m ≤ max_names }
    ensures { result ≡ every (mark_at marks.now) m }
{
    for k in 0..m {
        if !marks[k + 1] {
            return false;
        }
    }
    true
}

// Refusals 5 to 8 of the three parts of an image. Each is settled for the whole image before the next is looked at.
fn judge(nodes: &[u8], names: &[u8], text: &[u8], n: usize, m: usize) -> Result<(), Refusal>
    requires { (1 ≤ n) × (n ≤ max_nodes) × (16 * n ≤ length nodes.now) × (2 * m + 2 ≤ length names.now) × (m ≤ max_names) }
    ensures { refused_by result ≡ body_refusal nodes.now names.now text.now n m }
{
    if !name_table::names_ok(names, text, m) {
        return Err(Refusal::Names);
    }
    let mut marks = [false; Image::NAMES + 1];
    let parts = Parts {
        nodes,
        names,
        text,
        n,
        m,
    };
    tree(&parts, &mut marks)?;
    if !used_ok(&marks, m) {
        return Err(Refusal::Unused);
    }
    Ok(())
}

// Every byte slice is admitted, or refused by number.
pub fn admit(s: &[u8]) -> Result<Image, Refusal>
    ensures { result ≡ admission_of (refusal s.now) s.now }
{
    let image = Image::read(s)?;
    let a = image.names_at();
    let b = image.text_at();
    judge(
        &s[Image::HEADER..a],
        &s[a..b],
        &s[b..],
        image.nodes,
        image.names,
    )?;
    Ok(image)
}
