// One Emit: codes 30 and 31 of document 01.
#![tactic(auto)]

ghost use Rattle.std.specs.Prelude.{◌≡◌, ◌<◌, ◌^◌, length};
ghost use Rattle.rules.specs.Tree.{event_param};
ghost use Rattle.rules.specs.Vocabulary.{alone, below, arguments};
ghost use Rattle.rules.specs.Resolve.{rule30, rule31};
ghost use Rattle.records.specs.Records.{Adds, Asks};
ghost use Rattle.nodes.specs.Shown.{View, In, tree_of};
ghost use Rattle.nodes.specs.Entries.{in_part};
ghost use Rattle.resolve_emits.specs.Emitted.{IsKind, EventNotes, Emitted, at30, emitting, emitted};

use nodes::{Children, EMIT};
use places::Places;

// The number of arguments of an Emit: its children after the Name.
fn arguments(area: &[u8], emit: usize) -> usize
    requires { View area.now 0 × IsKind area.now 0 emit 26 }
    ensures { (W : View area.now 0) → result ≡ length (arguments (tree_of W) emit alone) }
{
    let mut number = 0;
    for _argument in Children::from(area, 0, emit, emit + 2) {
        number += 1;
    }
    number
}

// The number of parameters of an event: each is one node, after the Name.
fn parameters(nodes: &[u8], event: usize) -> usize
    requires { View nodes.now 0 × IsKind nodes.now 0 event 5 }
    ensures { (W : View nodes.now 0) → result ≡ length (below (tree_of W) event_param event alone) }
{
    nodes::end(nodes, 0, event) - (event + 2)
}

// 30 at an Emit: its event is not declared.
fn rule30(nodes: &[u8], base: usize, emit: usize, last: &Places) -> bool
    requires { EventNotes nodes.now base last.now × IsKind nodes.now base emit 26 }
    ensures { Asks (emitting (λ t. rule30 t emit) nodes.now base last.now) 30 emit result }
{
    places::at(last, nodes, base, emit + 1) == 0
}

// 31 at an Emit: it has another number of arguments than the last event of its name has parameters.
fn rule31(nodes: &[u8], base: usize, emit: usize, area: &[u8], last: &Places) -> bool
    requires { Emitted nodes.now base area.now last.now × IsKind nodes.now base emit 26 }
    ensures { Asks (emitted (λ t. rule31 t emit) nodes.now base area.now last.now) 31 emit result }
{
    let event = places::at(last, nodes, base, emit + 1);
    if event == 0 {
        return false;
    }
    arguments(area, emit) != parameters(area, event)
}

// 30 and 31 at a node of an item's statements, if it is an Emit; they stand in this entry (0: in none).
pub fn emit(
    nodes: &[u8],
    base: usize,
    entry: usize,
    p: usize,
    area: &[u8],
    last: &Places,
    out: &mut [u16],
    count: usize,
) -> usize
    requires { Emitted nodes.now base area.now last.now × In nodes.now base p × (count < 2 ^ 55) × (entry < 2048) }
    ensures { Adds (in_part entry nodes.now base (emitted (at30 p) nodes.now base area.now last.now)) 2 out.old out.new count result }
{
    if nodes::kind(nodes, base, p) != EMIT {
        return count;
    }
    let total = records::emit_if(rule30(nodes, base, p, last), out, count, 30, p, entry);
    records::emit_if(rule31(nodes, base, p, area, last), out, total, 31, p, entry)
}
