// An entry's Lets and what is named before its Let: codes 26 to 29 of document 01.
#![tactic(auto)]

ghost use Rattle.std.specs.Prelude.{◌≡◌, false, ◌*◌, ◌<◌, ◌^◌};
ghost use Rattle.records.specs.Records.{Adds, Asks};
ghost use Rattle.nodes.specs.Entries.{in_part};
ghost use Rattle.nodes.specs.Shown.{View, In, tree_of};
ghost use Rattle.nodes.specs.First.{Head};
ghost use Rattle.resolve_names.specs.Seen.{Among, seen_among};
ghost use Rattle.resolve_lets.specs.Scope.{Lets, NamingBody, at26, at27, at29, idents26, seen_lets, seen_body, swept26, NoLet, Scope, scoped, CleansLets};

use nodes::{Children, IDENT, LET, Marks};
use places::{Note, Places};

// 26 at a node of the statement s: an Ident naming a Let of this body with no such Let in an earlier statement.
fn rule26(nodes: &[u8], base: usize, s: usize, p: usize, lets: &Places) -> bool
    requires { Lets nodes.now base lets.now × In nodes.now base p × (0 < s) }
    ensures { Asks (seen_lets (at26 s p) nodes.now base lets.now) 26 p result }
{
    if nodes::kind(nodes, base, p) != IDENT {
        return false;
    }
    s <= places::at(lets, nodes, base, p)
}

// 26 in the statement s of the entry.
fn idents(
    nodes: &[u8],
    base: usize,
    entry: usize,
    s: usize,
    lets: &Places,
    out: &mut [u16],
    count: usize,
) -> usize
    requires { Lets nodes.now base lets.now × In nodes.now base s × (count < 2 ^ 50) × (entry < 2048) }
    ensures { Adds (in_part entry nodes.now base (seen_lets (idents26 s) nodes.now base lets.now)) 2048 out.old out.new count result }
{
    let end = nodes::end(nodes, base, s);
    let mut total = count;
    for p in s + 1..end {
        total = records::emit_if(rule26(nodes, base, s, p, lets), out, total, 26, p, entry);
    }
    total
}

// 29 at the statement s: a Let whose name is that of a parameter.
fn rule29(nodes: &[u8], base: usize, s: usize, params: &Places) -> bool
    requires { Among nodes.now base 10 s params.now × In nodes.now base s }
    ensures { Asks (seen_among (at29 s) nodes.now base 10 s params.now) 29 s result }
{
    if nodes::kind(nodes, base, s) != LET {
        return false;
    }
    0 < places::at(params, nodes, base, s + 1)
}

// 27, 28 and 29 at the statement s of the entry, if it is a Let.
fn let_names(
    nodes: &[u8],
    base: usize,
    entry: usize,
    s: usize,
    state: &Marks,
    params: &Places,
    lets: &Places,
    out: &mut [u16],
    count: usize,
) -> usize
    requires { NamingBody nodes.now base state.now params.now lets.now × In nodes.now base s × (count < 2 ^ 50) × (entry < 2048) }
    ensures { Adds (in_part entry nodes.now base (seen_body (at27 s) nodes.now base state.now params.now lets.now)) 3 out.old out.new count result }
{
    let earlier = records::emit_hit(
        resolve_names::met(LET, nodes, base, s, lets, 0),
        out,
        count,
        27,
        s,
        entry,
    );
    let named = records::emit_if(
        resolve_names::is_state(LET, nodes, base, s, state),
        out,
        earlier,
        28,
        s,
        entry,
    );
    records::emit_if(rule29(nodes, base, s, params), out, named, 29, s, entry)
}

// 26 to 29 in the statements of an entry, lent as their own part of the node area, which starts with number `base`.
fn statements(
    nodes: &[u8],
    base: usize,
    entry: usize,
    state: &Marks,
    params: &Places,
    lets: &Places,
    out: &mut [u16],
    count: usize,
) -> usize
    requires { NamingBody nodes.now base state.now params.now lets.now × (count < 2 ^ 48) × (entry < 2048) }
    ensures { Adds (in_part entry nodes.now base (swept26 nodes.now base state.now params.now lets.now)) (2051 * 2048) out.old out.new count result }
{
    let mut total = count;
    for s in Children::all(nodes, base) {
        total = idents(nodes, base, entry, s, lets, out, total);
        total = let_names(nodes, base, entry, s, state, params, lets, out, total);
    }
    total
}

// Whether an entry, whose first statement is `first`, has a Let.
fn has_let(nodes: &[u8], entry: usize, first: usize) -> bool
    requires { Head nodes.now 0 entry first }
    ensures { result ≡ false → (W : View nodes.now 0) → NoLet (tree_of W) entry }
{
    for s in Children::from(nodes, 0, entry, first) {
        if nodes::kind(nodes, 0, s) == LET {
            return true;
        }
    }
    false
}

// 26 to 29 in an entry, whose first statement is `first`; nothing where it has no Let. The first Let of each name is noted, and taken off again.
pub fn let_rules(
    nodes: &[u8],
    entry: usize,
    first: usize,
    state: &Marks,
    params: &Places,
    lets: &mut Places,
    out: &mut [u16],
    count: usize,
) -> usize
    requires { Scope nodes.now entry state.now params.now lets.old × Head nodes.now 0 entry first × (count < 2 ^ 48) }
    ensures adds { Adds (scoped entry nodes.now state.now params.now lets.old) (2051 * 2048) out.old out.new count result }
    ensures cleans_lets { CleansLets nodes.now entry state.now params.now lets.old lets.new }
{
    if !has_let(nodes, entry, first) {
        return count;
    }
    places::note_parts(Note::First, LET, nodes, entry, lets);
    let body = items::statements(nodes, 0, entry, first);
    let total = statements(body, first, entry, state, params, lets, out, count);
    places::note_parts(Note::Off, LET, nodes, entry, lets);
    total
}
