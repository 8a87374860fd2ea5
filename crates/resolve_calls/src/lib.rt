// Calls: codes 34 and 40 of document 01, and the marks that they ask.
#![tactic(auto)]

ghost use Rattle.std.specs.Prelude.{◌≡◌, true, false, List, [], ℕ, ◌<◌, ◌^◌};
ghost use Rattle.image.specs.Admit.{refusal};
ghost use Rattle.rules.specs.Sweep.{also, has};
ghost use Rattle.rules.specs.Tree.{param, peels_fields};
ghost use Rattle.rules.specs.Words.{Q_Address};
ghost use Rattle.rules.specs.Vocabulary.{at_bottom};
ghost use Rattle.rules.specs.Model.{is_state_typed};
ghost use Rattle.rules.specs.Resolve.{is_address};
ghost use Rattle.records.specs.Records.{Adds, Asks};
ghost use Rattle.nodes.specs.Entries.{in_part};
ghost use Rattle.nodes.specs.Shown.{In, tree_of};
ghost use Rattle.nodes.specs.Marks.{Marks};
ghost use Rattle.nodes.specs.First.{Head};
ghost use Rattle.names.specs.Spelled.{BuiltinsOf, MethodsOf};
ghost use Rattle.resolve_calls.specs.Called.{is_builtin, is_method, param_at, param_typed, AddressTyping, CallWords, Calling, at34, at40, known, called, swept34, swept40, TypesField, TurnsTyped};

use names::{Builtins, Methods};
use nodes::{CALL, CALLER, Children, Declarations, FIELD_DECL, IDENT, Marks, PARAM, Past};

// 34 at a node of an item's statements: a Call of neither a word that may be called nor a method.
fn rule34(nodes: &[u8], base: usize, p: usize, builtin: &Marks, method: &Marks) -> bool
    requires { CallWords nodes.now base builtin.now method.now × In nodes.now base p }
    ensures { Asks (known (at34 p) nodes.now base builtin.now method.now) 34 p result }
{
    if nodes::kind(nodes, base, p) != CALL {
        return false;
    }
    if nodes::is_ident(nodes, base, p + 1, builtin) {
        return false;
    }
    !nodes::is_field(nodes, base, p + 1, method)
}

// 34 in the statements of an item, which stand in an entry (0: in none), lent as their own part of the node area, which starts with number `base`.
pub fn calls34(
    nodes: &[u8],
    base: usize,
    entry: usize,
    builtin: &Marks,
    method: &Marks,
    out: &mut [u16],
    count: usize,
) -> usize
    requires { CallWords nodes.now base builtin.now method.now × (count < 2 ^ 50) × (entry < 2048) }
    ensures { Adds (in_part entry nodes.now base (swept34 nodes.now base builtin.now method.now)) 2048 out.old out.new count result }
{
    let end = base + nodes.len() / 16;
    let mut total = count;
    for p in base..end {
        total = records::emit_if(
            rule34(nodes, base, p, builtin, method),
            out,
            total,
            34,
            p,
            entry,
        );
    }
    total
}

// Whether x, peeled at each step down Field bases, ends in Caller or in a `Q_Address` state field or parameter.
fn is_address(nodes: &[u8], base: usize, x: usize, fields: &Marks, params: &Marks) -> bool
    requires { Calling nodes.now base fields.now params.now × In nodes.now base x }
    ensures { (T : Calling nodes.now base fields.now params.now) → result ≡ at_bottom (tree_of T.view) peels_fields x (is_address (tree_of T.view) T.entry) }
{
    let bottom = nodes::down(Past::Both, nodes, base, x);
    if nodes::end(nodes, base, x) <= bottom {
        return false;
    }
    match nodes::kind(nodes, base, bottom) {
        CALLER => true,
        IDENT => {
            if nodes::is_marked(fields, nodes, base, bottom) {
                return true;
            }
            nodes::is_marked(params, nodes, base, bottom)
        }
        _ => false,
    }
}

// 40 at a node of an entry's statements: a Call on an address.
fn rule40(nodes: &[u8], base: usize, p: usize, fields: &Marks, params: &Marks) -> bool
    requires { Calling nodes.now base fields.now params.now × In nodes.now base p }
    ensures { Asks (called (at40 p) nodes.now base fields.now params.now) 40 p result }
{
    if nodes::kind(nodes, base, p) != CALL {
        return false;
    }
    is_address(nodes, base, p + 1, fields, params)
}

// 40 in the statements of an entry, lent as their own part of the node area.
pub fn calls40(
    nodes: &[u8],
    base: usize,
    entry: usize,
    fields: &Marks,
    params: &Marks,
    out: &mut [u16],
    count: usize,
) -> usize
    requires { Calling nodes.now base fields.now params.now × (count < 2 ^ 50) × (entry < 2048) }
    ensures { Adds (in_part entry nodes.now base (swept40 nodes.now base fields.now params.now)) 2048 out.old out.new count result }
{
    let end = base + nodes.len() / 16;
    let mut total = count;
    for p in base..end {
        total = records::emit_if(
            rule40(nodes, base, p, fields, params),
            out,
            total,
            40,
            p,
            entry,
        );
    }
    total
}

// Whether no Call in an entry's statements, lent as their own part of the node area, is one of 40 or of 34: where none is, one sweep does for both.
pub fn is_clean(
    nodes: &[u8],
    base: usize,
    fields: &Marks,
    params: &Marks,
    builtin: &Marks,
    method: &Marks,
) -> bool
    requires { Calling nodes.now base fields.now params.now × CallWords nodes.now base builtin.now method.now }
    ensures { result ≡ true → ((T : Calling nodes.now base fields.now params.now) → (swept40 nodes.now base fields.now params.now T).list ≡ []) × ((T : CallWords nodes.now base builtin.now method.now) → (swept34 nodes.now base builtin.now method.now T).list ≡ []) }
{
    let end = base + nodes.len() / 16;
    for p in base..end {
        if rule34(nodes, base, p, builtin, method) {
            return false;
        }
        if rule40(nodes, base, p, fields, params) {
            return false;
        }
    }
    true
}

// The marks of the words that a Call may call.
pub fn mark_builtins(words: Builtins, builtin: &mut Marks)
    requires { (s : List ℕ) × (refusal s ≡ 0) × BuiltinsOf s words }
    ensures { (s : List ℕ) → refusal s ≡ 0 → BuiltinsOf s words → Marks s (λ w. false) builtin.old → Marks s is_builtin builtin.new }
{
    names::mark_number(words.send, builtin);
    names::mark_number(words.send_asset, builtin);
    names::mark_number(words.mint, builtin);
    names::mark_number(words.mint_asset, builtin);
}

// The marks of the words that a Call may call of a base.
pub fn mark_methods(words: Methods, method: &mut Marks)
    requires { (s : List ℕ) × (refusal s ≡ 0) × MethodsOf s words }
    ensures { (s : List ℕ) → refusal s ≡ 0 → MethodsOf s words → Marks s (λ w. false) method.old → Marks s is_method method.new }
{
    names::mark_number(words.get, method);
    names::mark_number(words.contains, method);
    names::mark_number(words.split, method);
    names::mark_number(words.set, method);
    names::mark_number(words.remove, method);
    names::mark_number(words.merge, method);
    names::mark_number(words.insert, method);
    names::mark_number(words.debit, method);
    names::mark_number(words.credit, method);
}

// A FieldDecl: the mark of its Name says whether it is of type `Q_Address`, which has the number `address`.
fn mark_field(nodes: &[u8], p: usize, address: usize, fields: &mut Marks)
    requires { AddressTyping nodes.now address × In nodes.now 0 p }
    ensures { TypesField nodes.now p address fields.old fields.new }
{
    if nodes::kind(nodes, 0, p) == FIELD_DECL {
        let on = names::is_word(address, nodes, 0, p + 3);
        nodes::mark(fields, nodes, 0, p + 1, on);
    }
}

// The marks of the state fields that are of type `Q_Address` by their last declaration; none where the image has no such name.
pub fn mark_fields(nodes: &[u8], address: usize, fields: &mut Marks)
    requires { AddressTyping nodes.now address × In nodes.now 0 0 }
    ensures { (T : AddressTyping nodes.now address) → Marks T.view.image (λ w. false) fields.old → Marks T.view.image (is_state_typed (tree_of T.view) Q_Address) fields.new }
{
    if address < 1 {
        return;
    }
    for p in Declarations::of(nodes) {
        mark_field(nodes, p, address, fields);
    }
}

// A Param of type `Q_Address`: the mark of its Name is set, or taken off.
fn mark_param(nodes: &[u8], p: usize, address: usize, on: bool, params: &mut Marks)
    requires { AddressTyping nodes.now address × In nodes.now 0 p }
    ensures { TurnsTyped on nodes.now address (λ t w. also (has (t.kind p) param) (param_at t w) p) params.old params.new }
{
    if nodes::kind(nodes, 0, p) != PARAM {
        return;
    }
    if names::is_word(address, nodes, 0, p + 3) {
        nodes::mark(params, nodes, 0, p + 1, on);
    }
}

// The marks of an entry's parameters that are of type `Q_Address` are set, or taken off, by a walk over its children before `to`, its first statement; none where the image has no such name.
pub fn mark_params(
    nodes: &[u8],
    entry: usize,
    to: usize,
    address: usize,
    on: bool,
    params: &mut Marks,
)
    requires { AddressTyping nodes.now address × Head nodes.now 0 entry to }
    ensures { TurnsTyped on nodes.now address (λ t w. param_typed t entry w) params.old params.new }
{
    if address < 1 {
        return;
    }
    for part in Children::heads(nodes, entry, to) {
        mark_param(nodes, part, address, on, params);
    }
}
