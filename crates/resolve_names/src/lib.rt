// Names met before and state names: what is asked of a node's name, and codes 20 and 21 of document 01.
#![tactic(auto)]

ghost use Rattle.std.specs.Prelude.{◌≡◌, false, ◌⊎◌, [], ◌∷◌, ℕ, ◌+◌, ◌<◌, ◌≤◌, ◌^◌};
ghost use Rattle.rules.specs.Tree.{event};
ghost use Rattle.rules.specs.Vocabulary.{below};
ghost use Rattle.rules.specs.Resolve.{group20, group21};
ghost use Rattle.records.specs.Records.{Adds, Asks, AsksAt, on};
ghost use Rattle.nodes.specs.Shown.{View, In, tree_of};
ghost use Rattle.nodes.specs.First.{NameFirst, Declaring};
ghost use Rattle.nodes.specs.State.{State, seen};
ghost use Rattle.nodes.specs.Items.{NoItem};
ghost use Rattle.resolve_names.specs.Seen.{Among, met_rule, at_met, at_state, seen_among};

use image::Image;
use nodes::{Declarations, EVENT, FIELD_DECL, Marks};
use places::{Note, Places};

// 20, 21, 25 and 27 at a node, if it is of this kind: its name is met before. Related: the first of that name, or with `name` 1 its Name.
pub fn met(
    kind: usize,
    nodes: &[u8],
    base: usize,
    p: usize,
    firsts: &Places,
    name: usize,
) -> Option<u16>
    requires { NameFirst kind × Among nodes.now base kind p firsts.now × In nodes.now base p × (name ≤ 1) }
    ensures { (code : ℕ) → AsksAt (seen_among (at_met code (kind ∷ []) name p) nodes.now base kind p firsts.now) code (p + name) result }
{
    if nodes::kind(nodes, base, p) != kind {
        return None;
    }
    let first = places::at(firsts, nodes, base, p + 1);
    if p <= first {
        return None;
    }
    Some((first + name) as u16)
}

// The fields or the events whose name is met before: they stand in no entry.
fn repeated(kind: usize, code: u16, nodes: &[u8], out: &mut [u16], count: usize) -> usize
    requires { Declaring kind × View nodes.now 0 × In nodes.now 0 0 × (count < 2 ^ 50) × ((kind ≡ 4) ⊎ (kind ≡ 5)) }
    ensures { Adds (λ (W : View nodes.now 0). on (λ t. below t (kind ∷ []) 0 (met_rule code (kind ∷ []) 1 t 0)) (tree_of W)) 2048 out.old out.new count result }
{
    let mut firsts = [0u16; Image::NAMES];
    places::note_names(Note::First, kind, nodes, &mut firsts);
    let mut total = count;
    for p in Declarations::of(nodes) {
        total = records::emit_hit(
            met(kind, nodes, 0, p, &firsts, 1),
            out,
            total,
            code,
            p + 1,
            0,
        );
    }
    total
}

// 20: field name met before.
pub fn group20(nodes: &[u8], out: &mut [u16], count: usize) -> usize
    requires { View nodes.now 0 × In nodes.now 0 0 × (count < 2 ^ 50) }
    ensures { Adds (λ (W : View nodes.now 0). on group20 (tree_of W)) 2048 out.old out.new count result }
{
    repeated(FIELD_DECL, 20, nodes, out, count)
}

// 21: event name met before; nothing where the contract has no Event.
pub fn group21(has: bool, nodes: &[u8], out: &mut [u16], count: usize) -> usize
    requires { View nodes.now 0 × In nodes.now 0 0 × (count < 2 ^ 50) × (has ≡ false → NoItem event nodes.now) }
    ensures { Adds (λ (W : View nodes.now 0). on group21 (tree_of W)) 2048 out.old out.new count result }
{
    if !has {
        return count;
    }
    repeated(EVENT, 21, nodes, out, count)
}

// 24 and 28 at a node, if it is of this kind: its name is a state name.
pub fn is_state(kind: usize, nodes: &[u8], base: usize, p: usize, state: &Marks) -> bool
    requires { NameFirst kind × State nodes.now base state.now × In nodes.now base p }
    ensures { (code place : ℕ) → Asks (seen (at_state code place (kind ∷ []) p) nodes.now base state.now) code place result }
{
    if nodes::kind(nodes, base, p) != kind {
        return false;
    }
    nodes::is_marked(state, nodes, base, p + 1)
}
