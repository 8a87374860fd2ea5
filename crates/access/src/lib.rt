// The access pass: codes 50 and 51 of document 01, as the pass's part of the list.
#![tactic(auto)]

ghost use Rattle.std.specs.Prelude.{◌≡◌, Bool, false, List, ℕ, ◌*◌, ◌<◌, ◌^◌};
ghost use Rattle.image.specs.Admit.{refusal};
ghost use Rattle.rules.specs.Sweep.{also, has};
ghost use Rattle.rules.specs.Tree.{writes};
ghost use Rattle.rules.specs.Access.{group50, is_write, group51, access};
ghost use Rattle.records.specs.Records.{Adds, Asks};
ghost use Rattle.nodes.specs.Shown.{View, In, tree_of};
ghost use Rattle.nodes.specs.Marks.{Marks, Turns};
ghost use Rattle.nodes.specs.First.{Head};
ghost use Rattle.nodes.specs.State.{State, seen};
ghost use Rattle.nodes.specs.Entries.{in_part};
ghost use Rattle.names.specs.Spelled.{MethodsOf, Looked, looked};
ghost use Rattle.access.specs.Seen.{AccessTables, Writing, WritingBody, seen_access, seen_in, swept51, CleansWritten, at50, item50, at51, item51, clause_has, written_in, is_writer};

use image::Image;
use names::{Methods, Words};
use nodes::{ASSIGN, CALL, Children, ENTRY, IDENT, INVARIANT, Marks, Past, WRITES};

// The tables that 51 only reads: the state names, and the words that write their base.
#[derive(Clone, Copy)]
struct Tables<'a> {
    state: &'a Marks,
    writer: &'a Marks,
}

// 50 at a node of an Invariant: an Ident that is no state name.
fn rule50(nodes: &[u8], p: usize, state: &Marks) -> bool
    requires { State nodes.now 0 state.now × In nodes.now 0 p }
    ensures { Asks (seen (at50 p) nodes.now 0 state.now) 50 p result }
{
    if nodes::kind(nodes, 0, p) != IDENT {
        return false;
    }
    !nodes::is_marked(state, nodes, 0, p)
}

// 50 in an item, if it is an Invariant.
fn invariant(nodes: &[u8], item: usize, state: &Marks, out: &mut [u16], count: usize) -> usize
    requires { State nodes.now 0 state.now × In nodes.now 0 item × (count < 2 ^ 50) × (0 < item) }
    ensures { Adds (seen (item50 item) nodes.now 0 state.now) 2048 out.old out.new count result }
{
    if nodes::kind(nodes, 0, item) != INVARIANT {
        return count;
    }
    let end = nodes::end(nodes, 0, item);
    let mut total = count;
    for p in item + 1..end {
        total = records::emit_if(rule50(nodes, p, state), out, total, 50, p, 0);
    }
    total
}

// 50: the Invariants in order.
fn group50(nodes: &[u8], state: &Marks, out: &mut [u16], count: usize) -> usize
    requires { State nodes.now 0 state.now × In nodes.now 0 0 × (count < 2 ^ 40) }
    ensures { Adds (seen group50 nodes.now 0 state.now) (2048 * 2048) out.old out.new count result }
{
    let mut total = count;
    for item in Children::of(nodes, 0, 0) {
        total = invariant(nodes, item, state, out, total);
    }
    total
}

// The marks of the names of a clause, if it is a Writes clause, are set, or taken off.
fn mark_clause(nodes: &[u8], clause: usize, on: bool, written: &mut Marks)
    requires { View nodes.now 0 × In nodes.now 0 clause }
    ensures { Turns on (λ (W : View nodes.now 0) w. also (has ((tree_of W).kind clause) writes) (clause_has (tree_of W) w) clause) written.old written.new }
{
    if nodes::kind(nodes, 0, clause) != WRITES {
        return;
    }
    let end = nodes::end(nodes, 0, clause);
    for p in clause + 1..end {
        nodes::mark(written, nodes, 0, p, on);
    }
}

// The marks of the names that the Writes clauses of an entry have are set, or taken off, by a walk over its children before `to`, its first statement.
fn declared_writes(nodes: &[u8], entry: usize, to: usize, on: bool, written: &mut Marks)
    requires { Head nodes.now 0 entry to }
    ensures { Turns on (λ (W : View nodes.now 0). written_in (tree_of W) entry) written.old written.new }
{
    for clause in Children::heads(nodes, entry, to) {
        mark_clause(nodes, clause, on, written);
    }
}

// Whether the root of x, peeled at each step, is a state name that the entry does not write.
fn is_write(nodes: &[u8], base: usize, x: usize, state: &Marks, written: &Marks) -> bool
    requires { Writing nodes.now base state.now written.now × In nodes.now base x }
    ensures { (T : Writing nodes.now base state.now written.now) → result ≡ is_write (tree_of T.view) T.entry x }
{
    let root = nodes::down(Past::Both, nodes, base, x);
    if nodes::end(nodes, base, x) <= root {
        return false;
    }
    if nodes::kind(nodes, base, root) != IDENT {
        return false;
    }
    if !nodes::is_marked(state, nodes, base, root) {
        return false;
    }
    !nodes::is_marked(written, nodes, base, root)
}

// 51 at a node of an entry's statements: the target of an Assign, or the base of a Call that writes it.
fn rule51(nodes: &[u8], base: usize, p: usize, tables: Tables, written: &Marks) -> bool
    requires { WritingBody nodes.now base tables written.now × In nodes.now base p }
    ensures { Asks (seen_in (at51 p) nodes.now base tables.entry written.now) 51 p result }
{
    match nodes::kind(nodes, base, p) {
        ASSIGN => is_write(nodes, base, p + 1, tables.state, written),
        CALL => {
            if !nodes::is_field(nodes, base, p + 1, tables.writer) {
                return false;
            }
            is_write(nodes, base, p + 2, tables.state, written)
        }
        _ => false,
    }
}

// 51 in the statements of an entry, lent as their own part of the node area, which starts with number `base`.
fn statements(
    nodes: &[u8],
    base: usize,
    entry: usize,
    tables: Tables,
    written: &Marks,
    out: &mut [u16],
    count: usize,
) -> usize
    requires { WritingBody nodes.now base tables written.now × (count < 2 ^ 50) × (entry < 2048) }
    ensures { Adds (in_part entry nodes.now base (swept51 nodes.now base tables.entry written.now)) 2048 out.old out.new count result }
{
    let end = base + nodes.len() / 16;
    let mut total = count;
    for p in base..end {
        let found = rule51(nodes, base, p, tables, written);
        total = records::emit_if(found, out, total, 51, p, entry);
    }
    total
}

// 51 in an item, if it is an Entry. The names that it writes are marked, and the marks taken off again.
fn entry(
    nodes: &[u8],
    item: usize,
    tables: Tables,
    written: &mut Marks,
    out: &mut [u16],
    count: usize,
) -> usize
    requires { AccessTables nodes.now tables written.old × In nodes.now 0 item × (0 < item) × (count < 2 ^ 50) }
    ensures adds { Adds (seen_access (item51 item) nodes.now tables.entry written.old) 2048 out.old out.new count result }
    ensures cleans_written { CleansWritten nodes.now tables.entry written.old written.new }
{
    if nodes::kind(nodes, 0, item) != ENTRY {
        return count;
    }
    let first = items::first_statement(nodes, 0, item);
    declared_writes(nodes, item, first, true, written);
    let body = items::statements(nodes, 0, item, first);
    let total = statements(body, first, item, tables, written, out, count);
    declared_writes(nodes, item, first, false, written);
    total
}

// 51: the entries in order.
fn group51(
    nodes: &[u8],
    tables: Tables,
    written: &mut Marks,
    out: &mut [u16],
    count: usize,
) -> usize
    requires { AccessTables nodes.now tables written.old × (count < 2 ^ 40) }
    ensures { Adds (seen_access group51 nodes.now tables.entry written.old) (2048 * 2048) out.old out.new count result }
{
    let mut total = count;
    for item in Children::of(nodes, 0, 0) {
        total = entry(nodes, item, tables, written, out, total);
    }
    total
}

// The marks of the words that write their base, by their numbers.
fn mark_writers(words: Methods, writer: &mut Marks)
    requires { (s : List ℕ) × (refusal s ≡ 0) × MethodsOf s words }
    ensures { (s : List ℕ) → refusal s ≡ 0 → MethodsOf s words → Marks s (λ w. false) writer.old → Marks s is_writer writer.new }
{
    names::mark_number(words.merge, writer);
    names::mark_number(words.split, writer);
    names::mark_number(words.credit, writer);
    names::mark_number(words.debit, writer);
    names::mark_number(words.insert, writer);
    names::mark_number(words.remove, writer);
    names::mark_number(words.set, writer);
}

// The records of the access pass, from the buffer's start: the words are looked up, and the state names marked.
pub fn list(nodes: &[u8], words: Words, state: &Marks, out: &mut [u16]) -> usize
    requires { Looked nodes.now words state.now }
    ensures { Adds (looked access nodes.now words state.now) (2 * 2048 * 2048) out.old out.new 0 result }
{
    let mut writer = [false; Image::NAMES];
    mark_writers(words.methods, &mut writer);
    let mut written = [false; Image::NAMES];
    let count = group50(nodes, state, out, 0);
    let tables = Tables {
        state,
        writer: &writer,
    };
    group51(nodes, tables, &mut written, out, count)
}
