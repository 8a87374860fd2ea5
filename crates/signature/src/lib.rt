// The signature text of an entry (23 of document 01), written into a lent buffer where there is room, and counted.
// Code 23 itself, resolve_overloads, writes no text: `same-text-same-nodes` in proofs/Same.antt says that comparing the texts is comparing the nodes.
#![tactic(auto)]

ghost use Rattle.std.specs.Prelude.{◌≡◌, List, [], ◌∷◌, ◌++◌, ℕ, ◌+◌, ◌*◌, ◌-◌, ◌≤◌, length};
ghost use Rattle.image.specs.Text.{text_of, off_of};
ghost use Rattle.rules.specs.Resolve.{comma, type_text, signature};
ghost use Rattle.nodes.specs.Shown.{View, In, tree_of};
ghost use Rattle.signature.specs.Wrote.{Wrote, Room};
ghost use Rattle.signature.specs.Texts.{args_from, params_from, quorum_text, head_text, has_arguments, Texts, Carrying, CountingRoom, Heading, Typing, Arguing, Listing, Signing};

use nodes::{Children, TYPE};

// One byte, where there is room, and the next position.
fn put(out: &mut [u8], at: usize, b: u8) -> usize
    requires { Room at (b ∷ []) }
    ensures { Wrote out.old at (b ∷ []) out.new result }
{
    if out.len() <= at {
        return at + 1;
    }
    out[at] = b;
    at + 1
}

// The bytes of a slice.
fn put_all(src: &[u8], out: &mut [u8], at: usize) -> usize
    requires { Room at src.now }
    ensures { Wrote out.old at src.now out.new result }
{
    let mut o = at;
    for &b in src {
        o = put(out, o, b);
    }
    o
}

// A comma before all but the first, which stands at start.
fn put_comma(start: usize, i: usize, out: &mut [u8], at: usize) -> usize
    requires { Room at (comma start i) }
    ensures { Wrote out.old at (comma start i) out.new result }
{
    if i == start {
        return at;
    }
    put(out, at, b',')
}

// The text of name number x.
fn put_name(names: &[u8], text: &[u8], x: usize, out: &mut [u8], at: usize) -> usize
    requires { (1 ≤ x) × (2 * x + 2 ≤ length names.now) × (off_of names.now (x - 1) ≤ off_of names.now x) × (off_of names.now x ≤ length text.now) × Room at (text_of names.now text.now x) }
    ensures { Wrote out.old at (text_of names.now text.now x) out.new result }
{
    let lo = image::offset(names, x - 1);
    let hi = image::offset(names, x);
    put_all(&text[lo..hi], out, at)
}

// The text that node p carries.
fn put_text(
    nodes: &[u8],
    base: usize,
    names: &[u8],
    text: &[u8],
    p: usize,
    out: &mut [u8],
    at: usize,
) -> usize
    requires { Carrying nodes.now base names.now text.now p at }
    ensures { (T : Texts nodes.now base names.now text.now) → Wrote out.old at ((tree_of T.view).text p) out.new result }
{
    let x = nodes::name(nodes, base, p);
    put_name(names, text, x, out, at)
}

// The MofN at y: `m of n`.
fn put_quorum(
    nodes: &[u8],
    base: usize,
    names: &[u8],
    text: &[u8],
    y: usize,
    out: &mut [u8],
    at: usize,
) -> usize
    requires { CountingRoom nodes.now base names.now text.now y at }
    ensures { (T : Texts nodes.now base names.now text.now) → Wrote out.old at (quorum_text (tree_of T.view) y) out.new result }
{
    let after_m = put_text(nodes, base, names, text, y + 1, out, at);
    let after_of = put_all(b" of ", out, after_m);
    put_text(nodes, base, names, text, y + 2, out, after_of)
}

// What the type or type argument at y begins with: all of an IntLit or a MofN, the Name of a type.
fn put_head(
    nodes: &[u8],
    base: usize,
    names: &[u8],
    text: &[u8],
    y: usize,
    out: &mut [u8],
    at: usize,
) -> usize
    requires { Heading nodes.now base names.now text.now y at }
    ensures { (T : Texts nodes.now base names.now text.now) → Wrote out.old at (head_text (tree_of T.view) y) out.new result }
{
    let k = nodes::kind(nodes, base, y);
    if k == 12 {
        return put_text(nodes, base, names, text, y, out, at);
    }
    if k == 13 {
        return put_quorum(nodes, base, names, text, y, out, at);
    }
    put_text(nodes, base, names, text, y + 1, out, at)
}

// Whether the type or type argument at y is a type with arguments.
fn has_arguments(nodes: &[u8], base: usize, y: usize) -> bool
    requires { In nodes.now base y }
    ensures { (W : View nodes.now base) → result ≡ has_arguments (tree_of W) y }
{
    if nodes::kind(nodes, base, y) != TYPE {
        return false;
    }
    y + 2 < nodes::end(nodes, base, y)
}

// The type or type argument at y, of which so many levels are written.
#[cycle(types)]
fn write_type(
    nodes: &[u8],
    base: usize,
    names: &[u8],
    text: &[u8],
    y: usize,
    levels: usize,
    out: &mut [u8],
    at: usize,
) -> usize
    requires { Typing nodes.now base names.now text.now levels y at }
    ensures { (T : Texts nodes.now base names.now text.now) → Wrote out.old at (type_text levels (tree_of T.view) y) out.new result }
{
    if levels == 0 {
        return at;
    }
    let after_head = put_head(nodes, base, names, text, y, out, at);
    if !has_arguments(nodes, base, y) {
        return after_head;
    }
    let after_open = put(out, after_head, b'<');
    let after_args = write_args(nodes, base, names, text, y, levels - 1, out, after_open);
    put(out, after_args, b'>')
}

// The arguments of the type y, joined by commas.
#[cycle(types)]
fn write_args(
    nodes: &[u8],
    base: usize,
    names: &[u8],
    text: &[u8],
    y: usize,
    levels: usize,
    out: &mut [u8],
    at: usize,
) -> usize
    requires { Arguing nodes.now base names.now text.now levels y at }
    ensures { (T : Texts nodes.now base names.now text.now) → Wrote out.old at (args_from levels (tree_of T.view) y (y + 2)) out.new result }
{
    let mut o = at;
    for argument in Children::from(nodes, base, y, y + 2) {
        o = put_comma(y + 2, argument, out, o);
        o = write_type(nodes, base, names, text, argument, levels, out, o);
    }
    o
}

// The types of the parameters of the entry e, joined by commas.
fn write_params(
    nodes: &[u8],
    base: usize,
    names: &[u8],
    text: &[u8],
    e: usize,
    out: &mut [u8],
    at: usize,
) -> usize
    requires { Listing nodes.now base names.now text.now e at }
    ensures { (T : Texts nodes.now base names.now text.now) → Wrote out.old at (params_from (tree_of T.view) e (e + 2)) out.new result }
{
    let mut o = at;
    for param in Children::from(nodes, base, e, e + 2) {
        if nodes::kind(nodes, base, param) != 10 {
            return o;
        }
        o = put_comma(e + 2, param, out, o);
        o = write_type(nodes, base, names, text, param + 2, 64, out, o);
    }
    o
}

// The signature of the entry e.
pub fn write(
    nodes: &[u8],
    base: usize,
    names: &[u8],
    text: &[u8],
    e: usize,
    out: &mut [u8],
    at: usize,
) -> usize
    requires { Signing nodes.now base names.now text.now e at }
    ensures { ((T : Texts nodes.now base names.now text.now) → Wrote out.old at (signature (tree_of T.view) e) out.new result) × (result ≤ at + 534528) }
{
    let after_name = put_text(nodes, base, names, text, e + 1, out, at);
    let after_open = put(out, after_name, b'(');
    let after_params = write_params(nodes, base, names, text, e, out, after_open);
    put(out, after_params, b')')
}
