// Code 32 of document 01, `deployer`: the signers, statements and clauses of entries, and the Invariants.
#![tactic(auto)]

ghost use Rattle.std.specs.Prelude.{◌*◌, ◌<◌, ◌^◌};
ghost use Rattle.rules.specs.Tree.{limits_denies_after};
ghost use Rattle.rules.specs.Vocabulary.{below};
ghost use Rattle.rules.specs.Resolve.{deployer_in, group32};
ghost use Rattle.records.specs.Records.{Adds};
ghost use Rattle.nodes.specs.Entries.{in_node};
ghost use Rattle.nodes.specs.Shown.{In};
ghost use Rattle.nodes.specs.First.{Head};
ghost use Rattle.resolve_deployer.specs.Deployed.{Deployed, DeployerIs, IsEntry, deployed, by_deployer, ident_rules, clause32, item32};

use image::Image;
use nodes::{AFTER, Children, ENTRY, IDENT, INVARIANT, LIMITS, Marks, NAME};
use resolve_clauses::Rule;

// 32 in the Idents below a node, which stands in an entry (0: in none).
fn idents32(
    nodes: &[u8],
    node: usize,
    entry: usize,
    deployer: &Marks,
    out: &mut [u16],
    count: usize,
) -> usize
    requires { Deployed nodes.now 0 deployer.now × In nodes.now 0 node × (count < 2 ^ 50) × (entry < 2048) }
    ensures { Adds (in_node entry nodes.now node (deployed (λ t. ident_rules t node) nodes.now 0 deployer.now)) 2048 out.old out.new count result }
{
    let rule = Rule {
        kind: IDENT,
        on: true,
        code: 32,
    };
    resolve_clauses::within(rule, nodes, node, entry, deployer, out, count)
}

// 32 in a child of the entry, if it is a Limits, Denies or After clause.
fn clause32(
    nodes: &[u8],
    entry: usize,
    p: usize,
    deployer: &Marks,
    out: &mut [u16],
    count: usize,
) -> usize
    requires { Deployed nodes.now 0 deployer.now × In nodes.now 0 p × (count < 2 ^ 50) × (entry < 2048) }
    ensures { Adds (in_node entry nodes.now p (deployed (λ t. clause32 t p) nodes.now 0 deployer.now)) 2048 out.old out.new count result }
{
    match nodes::kind(nodes, 0, p) {
        LIMITS..=AFTER => idents32(nodes, p, entry, deployer, out, count),
        _ => count,
    }
}

// 32 in the clauses of an entry, whose first statement is `to`, that hold expressions.
fn clauses32(
    nodes: &[u8],
    entry: usize,
    to: usize,
    deployer: &Marks,
    out: &mut [u16],
    count: usize,
) -> usize
    requires { Deployed nodes.now 0 deployer.now × Head nodes.now 0 entry to × (count < 2 ^ 45) }
    ensures { Adds (deployed (λ t. below t limits_denies_after entry (ident_rules t)) nodes.now 0 deployer.now) (2048 * 2048) out.old out.new count result }
{
    let mut total = count;
    for part in Children::heads(nodes, entry, to) {
        total = clause32(nodes, entry, part, deployer, out, total);
    }
    total
}

// 32 in an entry: its signers, the Idents of its statements, lent as their own part of the node area, and of its clauses.
fn entry32(nodes: &[u8], entry: usize, deployer: &Marks, out: &mut [u16], count: usize) -> usize
    requires { Deployed nodes.now 0 deployer.now × IsEntry nodes.now entry × (count < 2 ^ 44) }
    ensures { Adds (deployed (λ t. deployer_in t entry) nodes.now 0 deployer.now) (2 ^ 23) out.old out.new count result }
{
    let first = items::first_statement(nodes, 0, entry);
    let names = Rule {
        kind: NAME,
        on: true,
        code: 32,
    };
    let signed = resolve_clauses::signers(names, nodes, entry, first, deployer, out, count);
    let body = items::statements(nodes, 0, entry, first);
    let end = nodes::end(nodes, 0, entry);
    let idents = Rule {
        kind: IDENT,
        ..names
    };
    let said = resolve_clauses::words(
        idents, body, first, first, end, entry, deployer, out, signed,
    );
    clauses32(nodes, entry, first, deployer, out, said)
}

// 32 in an item, if it is an Entry or an Invariant.
fn item32(nodes: &[u8], item: usize, deployer: &Marks, out: &mut [u16], count: usize) -> usize
    requires { Deployed nodes.now 0 deployer.now × In nodes.now 0 item × (0 < item) × (count < 2 ^ 44) }
    ensures { Adds (deployed (λ t. item32 t item) nodes.now 0 deployer.now) (2 ^ 23) out.old out.new count result }
{
    match nodes::kind(nodes, 0, item) {
        ENTRY => entry32(nodes, item, deployer, out, count),
        INVARIANT => idents32(nodes, item, 0, deployer, out, count),
        _ => count,
    }
}

// 32: the items in order.
fn items32(nodes: &[u8], deployer: &Marks, out: &mut [u16], count: usize) -> usize
    requires { Deployed nodes.now 0 deployer.now × In nodes.now 0 0 × (count < 2 ^ 40) }
    ensures { Adds (deployed group32 nodes.now 0 deployer.now) (2 ^ 34) out.old out.new count result }
{
    let mut total = count;
    for item in Children::of(nodes, 0, 0) {
        total = item32(nodes, item, deployer, out, total);
    }
    total
}

// 32, `deployer`, which has this number; nothing where that is 0, since then no name of the image is this word.
pub fn group32(nodes: &[u8], number: usize, out: &mut [u16], count: usize) -> usize
    requires { DeployerIs nodes.now number × In nodes.now 0 0 × (count < 2 ^ 40) }
    ensures { Adds (by_deployer group32 nodes.now number) (2 ^ 34) out.old out.new count result }
{
    if number == 0 {
        return count;
    }
    let mut deployer = [false; Image::NAMES];
    names::mark_number(number, &mut deployer);
    items32(nodes, &deployer, out, count)
}
