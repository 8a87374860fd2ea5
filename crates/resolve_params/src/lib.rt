// An entry's parameters, codes 24 and 25 of document 01; and 24 to 29, the entries in order.
#![tactic(auto)]

ghost use Rattle.std.specs.Prelude.{◌*◌, ◌<◌, ◌^◌};
ghost use Rattle.rules.specs.Resolve.{group24};
ghost use Rattle.records.specs.Records.{Adds, on};
ghost use Rattle.nodes.specs.Shown.{In, tree_of};
ghost use Rattle.nodes.specs.First.{Head};
ghost use Rattle.nodes.specs.State.{State, seen};
ghost use Rattle.resolve_lets.specs.Scope.{Params};
ghost use Rattle.resolve_params.specs.Entries.{NameTables, parameter_rules, item24, seen_names, CleansNoted};

use image::Image;
use nodes::{Children, ENTRY, Marks, PARAM};
use places::{Note, Places};

// 24 and 25: the parameters of an entry, whose first statement is `to`, in order.
fn parameters(
    nodes: &[u8],
    entry: usize,
    to: usize,
    state: &Marks,
    params: &Places,
    out: &mut [u16],
    count: usize,
) -> usize
    requires { Params nodes.now entry state.now params.now × Head nodes.now 0 entry to × (count < 2 ^ 50) }
    ensures { Adds (λ (T : Params nodes.now entry state.now params.now). on (λ t. parameter_rules t entry) (tree_of T.named.view)) (2 * 2048) out.old out.new count result }
{
    let mut total = count;
    for part in Children::heads(nodes, entry, to) {
        total = records::emit_if(
            resolve_names::is_state(PARAM, nodes, 0, part, state),
            out,
            total,
            24,
            part + 1,
            entry,
        );
        total = records::emit_hit(
            resolve_names::met(PARAM, nodes, 0, part, params, 1),
            out,
            total,
            25,
            part + 1,
            entry,
        );
    }
    total
}

// 24 to 29 in an item, if it is an Entry. The first parameter of each name is noted, and taken off again.
fn entry(
    nodes: &[u8],
    item: usize,
    state: &Marks,
    params: &mut Places,
    lets: &mut Places,
    out: &mut [u16],
    count: usize,
) -> usize
    requires { NameTables nodes.now state.now params.old lets.old × In nodes.now 0 item × (0 < item) × (count < 2 ^ 47) }
    ensures adds { Adds (seen_names (item24 item) nodes.now state.now params.old lets.old) (2053 * 2048) out.old out.new count result }
    ensures cleans_noted { CleansNoted nodes.now state.now params.old params.new lets.old lets.new }
{
    if nodes::kind(nodes, 0, item) != ENTRY {
        return count;
    }
    let first = items::first_statement(nodes, 0, item);
    places::note_heads(Note::First, PARAM, nodes, item, first, params);
    let named = parameters(nodes, item, first, state, params, out, count);
    let total = resolve_lets::let_rules(nodes, item, first, state, params, lets, out, named);
    places::note_heads(Note::Off, PARAM, nodes, item, first, params);
    total
}

// 24 to 29: the entries in order.
pub fn group24(nodes: &[u8], state: &Marks, out: &mut [u16], count: usize) -> usize
    requires { State nodes.now 0 state.now × In nodes.now 0 0 × (count < 2 ^ 40) }
    ensures { Adds (seen group24 nodes.now 0 state.now) (2053 * 2048 * 2048) out.old out.new count result }
{
    let mut params = [0u16; Image::NAMES];
    let mut lets = [0u16; Image::NAMES];
    let mut total = count;
    for item in Children::of(nodes, 0, 0) {
        total = entry(nodes, item, state, &mut params, &mut lets, out, total);
    }
    total
}
