// Codes 33 and 35 to 39 of document 01: the Assigns of a Genesis, an entry's signers and clauses; a rule about words, which 32 is too.
#![tactic(auto)]

ghost use Rattle.std.specs.Prelude.{◌≡◌, Bool, true, false, List, [], ◌∷◌, ℕ, ◌+◌, ◌*◌, ◌-◌, ◌<◌, ◌≤◌, ◌^◌};
ghost use Rattle.rules.specs.Sweep.{run};
ghost use Rattle.rules.specs.Tree.{assign, name, naming};
ghost use Rattle.rules.specs.Vocabulary.{below, signers};
ghost use Rattle.rules.specs.Resolve.{rule33};
ghost use Rattle.records.specs.Records.{Adds, Asks, within};
ghost use Rattle.nodes.specs.Entries.{in_node};
ghost use Rattle.nodes.specs.Shown.{View, In, Worded, tree_of};
ghost use Rattle.nodes.specs.Marks.{Marks};
ghost use Rattle.nodes.specs.First.{Head};
ghost use Rattle.nodes.specs.State.{State, seen};
ghost use Rattle.nodes.specs.Span.{Span};
ghost use Rattle.resolve_clauses.specs.Said.{OneTable, CarriesWord, AssetMarks, told, listed, at_word, at_node, at_signer, at33, unmarked, clause_rules, clause36};

use nodes::{
    ASSIGN, BURNS, CONSERVES, Children, IDENT, MINTS, Marks, NAME, PARAM, Past, READS, WRITES,
};

// A rule about words. At a node of its kind whose word is marked, or (off) is not, it finds its code.
#[derive(Clone, Copy)]
pub struct Rule {
    pub kind: usize,
    pub on: bool,
    pub code: u16,
}

// Whether the rule finds its offence in the word of node p.
fn is_hit(rule: Rule, nodes: &[u8], base: usize, p: usize, marks: &Marks) -> bool
    requires { Worded nodes.now base p }
    ensures { Asks (told (λ P t. at_word rule P t p) nodes.now base marks.now) rule.code p result }
{
    nodes::is_marked(marks, nodes, base, p) == rule.on
}

// Whether the rule finds its offence at node p.
fn finds(rule: Rule, nodes: &[u8], base: usize, p: usize, marks: &Marks) -> bool
    requires { View nodes.now base × CarriesWord rule.kind × In nodes.now base p }
    ensures { Asks (told (λ P t. at_node rule P t p) nodes.now base marks.now) rule.code p result }
{
    if nodes::kind(nodes, base, p) != rule.kind {
        return false;
    }
    is_hit(rule, nodes, base, p, marks)
}

// The rule at the nodes from `from` up to `end`, which stand in an entry (0: in none).
pub fn words(
    rule: Rule,
    nodes: &[u8],
    base: usize,
    from: usize,
    end: usize,
    entry: usize,
    marks: &Marks,
    out: &mut [u16],
    count: usize,
) -> usize
    requires { OneTable nodes.now base marks.now × CarriesWord rule.kind × Span nodes.now base from end × (count < 2 ^ 50) × (entry < 2048) }
    ensures { Adds (within entry from end (told (λ P t. run (at_node rule P t) from (end - from)) nodes.now base marks.now)) 2048 out.old out.new count result }
{
    let mut total = count;
    for p in from..end {
        total = records::emit_if(
            finds(rule, nodes, base, p, marks),
            out,
            total,
            rule.code,
            p,
            entry,
        );
    }
    total
}

// The rule below a node, which stands in an entry (0: in none): the Idents of an Invariant or a clause, the Names of a clause.
pub fn within(
    rule: Rule,
    nodes: &[u8],
    node: usize,
    entry: usize,
    marks: &Marks,
    out: &mut [u16],
    count: usize,
) -> usize
    requires { OneTable nodes.now 0 marks.now × CarriesWord rule.kind × In nodes.now 0 node × (count < 2 ^ 50) × (entry < 2048) }
    ensures { Adds (in_node entry nodes.now node (told (λ P t. below t (rule.kind ∷ []) node (at_word rule P t)) nodes.now 0 marks.now)) 2048 out.old out.new count result }
{
    let end = nodes::end(nodes, 0, node);
    words(rule, nodes, 0, node + 1, end, entry, marks, out, count)
}

// The rule at the signer of a parameter of the entry: the Name after its Type.
fn signer(
    rule: Rule,
    nodes: &[u8],
    entry: usize,
    p: usize,
    marks: &Marks,
    out: &mut [u16],
    count: usize,
) -> usize
    requires { OneTable nodes.now 0 marks.now × In nodes.now 0 p × (count < 2 ^ 60) × (entry < 2048) }
    ensures { Adds (in_node entry nodes.now p (told (λ P t. at_signer (at_word rule P t) t p) nodes.now 0 marks.now)) 1 out.old out.new count result }
{
    if nodes::kind(nodes, 0, p) != PARAM {
        return count;
    }
    let s = nodes::end(nodes, 0, p + 2);
    if nodes::end(nodes, 0, p) <= s {
        return count;
    }
    records::emit_if(
        is_hit(rule, nodes, 0, s, marks),
        out,
        count,
        rule.code,
        s,
        entry,
    )
}

// The rule at the signers of an entry, whose first statement is `to`: 32, 35.
pub fn signers(
    rule: Rule,
    nodes: &[u8],
    entry: usize,
    to: usize,
    marks: &Marks,
    out: &mut [u16],
    count: usize,
) -> usize
    requires { OneTable nodes.now 0 marks.now × Head nodes.now 0 entry to × (count < 2 ^ 50) }
    ensures { Adds (told (λ P t. signers t entry (at_word rule P t)) nodes.now 0 marks.now) 2048 out.old out.new count result }
{
    let mut total = count;
    for part in Children::heads(nodes, entry, to) {
        total = signer(rule, nodes, entry, part, marks, out, total);
    }
    total
}

// 33 at a node of a Genesis: an Assign whose root, by Fields only, is no state name.
fn rule33(nodes: &[u8], p: usize, state: &Marks) -> bool
    requires { View nodes.now 0 × In nodes.now 0 p }
    ensures { Asks (seen (at33 p) nodes.now 0 state.now) 33 p result }
{
    if nodes::kind(nodes, 0, p) != ASSIGN {
        return false;
    }
    let root = nodes::down(Past::Fields, nodes, 0, p + 1);
    if nodes::end(nodes, 0, p + 1) <= root {
        return false;
    }
    if nodes::kind(nodes, 0, root) != IDENT {
        return false;
    }
    !nodes::is_marked(state, nodes, 0, root)
}

// 33 in a Genesis, which stands in no entry, from statement to statement.
pub fn assigns(nodes: &[u8], genesis: usize, state: &Marks, out: &mut [u16], count: usize) -> usize
    requires { State nodes.now 0 state.now × In nodes.now 0 genesis × (0 < genesis) × (count < 2 ^ 50) }
    ensures { Adds (in_node 0 nodes.now genesis (seen (λ t. below t assign genesis (rule33 t)) nodes.now 0 state.now)) 2048 out.old out.new count result }
{
    let mut total = count;
    for statement in Children::of(nodes, 0, genesis) {
        total = records::emit_if(
            rule33(nodes, statement, state),
            out,
            total,
            33,
            statement,
            0,
        );
    }
    total
}

// The Names of a clause that the table does not mark.
fn unmarked(
    code: u16,
    nodes: &[u8],
    clause: usize,
    entry: usize,
    marks: &Marks,
    out: &mut [u16],
    count: usize,
) -> usize
    requires { OneTable nodes.now 0 marks.now × In nodes.now 0 clause × (count < 2 ^ 50) × (entry < 2048) }
    ensures { Adds (in_node entry nodes.now clause (told (λ P t. below t name clause (unmarked t P code)) nodes.now 0 marks.now)) 2048 out.old out.new count result }
{
    let rule = Rule {
        kind: NAME,
        on: false,
        code,
    };
    within(rule, nodes, clause, entry, marks, out, count)
}

// 36 to 39 in a child of the entry: the names that a clause may not name.
fn clause(
    nodes: &[u8],
    entry: usize,
    p: usize,
    state: &Marks,
    declared: &Marks,
    known: &Marks,
    out: &mut [u16],
    count: usize,
) -> usize
    requires { AssetMarks nodes.now state.now declared.now known.now × In nodes.now 0 p × (count < 2 ^ 50) × (entry < 2048) }
    ensures { Adds (in_node entry nodes.now p (listed (λ t. clause36 t p) nodes.now state.now declared.now known.now)) 2048 out.old out.new count result }
{
    match nodes::kind(nodes, 0, p) {
        WRITES..=READS => unmarked(36, nodes, p, entry, state, out, count),
        CONSERVES => unmarked(37, nodes, p, entry, known, out, count),
        MINTS => unmarked(38, nodes, p, entry, declared, out, count),
        BURNS => unmarked(39, nodes, p, entry, declared, out, count),
        _ => count,
    }
}

// 36 to 39: the clauses of an entry, whose first statement is `to`, in order.
pub fn clauses(
    nodes: &[u8],
    entry: usize,
    to: usize,
    state: &Marks,
    declared: &Marks,
    known: &Marks,
    out: &mut [u16],
    count: usize,
) -> usize
    requires { AssetMarks nodes.now state.now declared.now known.now × Head nodes.now 0 entry to × (count < 2 ^ 45) }
    ensures { Adds (listed (λ t. below t naming entry (clause_rules t)) nodes.now state.now declared.now known.now) (2048 * 2048) out.old out.new count result }
{
    let mut total = count;
    for part in Children::heads(nodes, entry, to) {
        total = clause(nodes, entry, part, state, declared, known, out, total);
    }
    total
}
