// The resolve pass: codes 20 to 40 of document 01, as the pass's part of the list, the groups in order.
#![tactic(auto)]

ghost use Rattle.std.specs.Prelude.{◌≡◌, false, ◌++◌, ◌*◌, ◌<◌, ◌^◌};
ghost use Rattle.rules.specs.Tree.{genesis};
ghost use Rattle.rules.specs.Resolve.{group33, group35, resolve};
ghost use Rattle.records.specs.Records.{Adds};
ghost use Rattle.nodes.specs.Shown.{In};
ghost use Rattle.nodes.specs.First.{Head};
ghost use Rattle.nodes.specs.Items.{NoItem};
ghost use Rattle.items.specs.Found.{ItemsOf};
ghost use Rattle.names.specs.Spelled.{Looked, looked};
ghost use Rattle.resolve.specs.Tables.{LentFirst, CallTables, Called, ResolveTables, item33, entry_calls, item35, first_groups, lent_first, worded, of_entry, lent, CleansParams};

use image::Image;
use items::Items;
use names::Words;
use nodes::{Children, ENTRY, GENESIS, Marks, NAME};
use resolve_clauses::Rule;

// What 33 to 40 ask: the number of `Q_Address`; and by name number the state names, the declared assets, the known assets,
// the state fields of type `Q_Address`, and the words that a Call may call.
#[derive(Clone, Copy)]
struct Tables<'a> {
    address: usize,
    state: &'a Marks,
    declared: &'a Marks,
    known: &'a Marks,
    fields: &'a Marks,
    builtin: &'a Marks,
    method: &'a Marks,
}

// 20, 21, 22, 23, 24 to 29, 30 and 31; `mint_asset` has the number `mint`.
fn first_groups(nodes: &[u8], items: Items, mint: usize, state: &Marks, out: &mut [u16]) -> usize
    requires { LentFirst nodes.now mint state.now × ItemsOf nodes.now items }
    ensures { Adds (lent_first first_groups nodes.now mint state.now) (2 ^ 35) out.old out.new 0 result }
{
    let fields = resolve_names::group20(nodes, out, 0);
    let events = resolve_names::group21(items.event, nodes, out, fields);
    let mints = resolve_mints::group22(nodes, mint, out, events);
    let overloads = resolve_overloads::group23(nodes, out, mints);
    let names = resolve_params::group24(nodes, state, out, overloads);
    resolve_events::group30(nodes, items, out, names)
}

// 33, then 34, in an item, if it is a Genesis.
fn genesis(nodes: &[u8], item: usize, tables: Tables, out: &mut [u16], count: usize) -> usize
    requires { CallTables nodes.now tables × In nodes.now 0 item × (0 < item) × (count < 2 ^ 48) }
    ensures { Adds (worded (item33 item) nodes.now tables.entry) 4096 out.old out.new count result }
{
    if nodes::kind(nodes, 0, item) != GENESIS {
        return count;
    }
    let total = resolve_clauses::assigns(nodes, item, tables.state, out, count);
    let first = items::first_statement(nodes, 0, item);
    let body = items::statements(nodes, 0, item, first);
    resolve_calls::calls34(body, first, 0, tables.builtin, tables.method, out, total)
}

// 33 and 34: each Genesis; nothing where the contract has none.
fn group33(has: bool, nodes: &[u8], tables: Tables, out: &mut [u16], count: usize) -> usize
    requires { CallTables nodes.now tables × In nodes.now 0 0 × (count < 2 ^ 40) × (has ≡ false → NoItem genesis nodes.now) }
    ensures { Adds (worded group33 nodes.now tables.entry) (4096 * 2048) out.old out.new count result }
{
    if !has {
        return count;
    }
    let mut total = count;
    for item in Children::of(nodes, 0, 0) {
        total = genesis(nodes, item, tables, out, total);
    }
    total
}

// 40, then 34, in an entry's statements, from `first` on; where one sweep finds neither, nothing more is sought. Its parameters of type `Q_Address` are marked, and the marks taken off again.
fn entry_calls(
    nodes: &[u8],
    entry: usize,
    first: usize,
    tables: Tables,
    params: &mut Marks,
    out: &mut [u16],
    count: usize,
) -> usize
    requires { Called nodes.now tables params.old × Head nodes.now 0 entry first × (count < 2 ^ 48) }
    ensures adds { Adds (of_entry (entry_calls entry) nodes.now tables.entry params.old) 4096 out.old out.new count result }
    ensures cleans_params { CleansParams nodes.now tables.entry params.old params.new }
{
    let address = tables.address;
    resolve_calls::mark_params(nodes, entry, first, address, true, params);
    let body = items::statements(nodes, 0, entry, first);
    let (fields, builtin, method) = (tables.fields, tables.builtin, tables.method);
    if resolve_calls::is_clean(body, first, fields, params, builtin, method) {
        resolve_calls::mark_params(nodes, entry, first, address, false, params);
        return count;
    }
    let total = resolve_calls::calls40(body, first, entry, fields, params, out, count);
    resolve_calls::mark_params(nodes, entry, first, address, false, params);
    resolve_calls::calls34(body, first, entry, builtin, method, out, total)
}

// 35, 36 to 39, 40 and 34 in an item, if it is an Entry.
fn entry(
    nodes: &[u8],
    item: usize,
    tables: Tables,
    params: &mut Marks,
    out: &mut [u16],
    count: usize,
) -> usize
    requires { ResolveTables nodes.now tables params.old × In nodes.now 0 item × (0 < item) × (count < 2 ^ 44) }
    ensures adds { Adds (lent (item35 item) nodes.now tables.entry params.old) (2 ^ 23) out.old out.new count result }
    ensures cleans_params { CleansParams nodes.now tables.entry params.old params.new }
{
    if nodes::kind(nodes, 0, item) != ENTRY {
        return count;
    }
    let first = items::first_statement(nodes, 0, item);
    let rule = Rule {
        kind: NAME,
        on: false,
        code: 35,
    };
    let signed = resolve_clauses::signers(rule, nodes, item, first, tables.state, out, count);
    let listed = resolve_clauses::clauses(
        nodes,
        item,
        first,
        tables.state,
        tables.declared,
        tables.known,
        out,
        signed,
    );
    entry_calls(nodes, item, first, tables, params, out, listed)
}

// 35 to 40, and 34: the entries in order.
fn group35(nodes: &[u8], tables: Tables, params: &mut Marks, out: &mut [u16], count: usize) -> usize
    requires { ResolveTables nodes.now tables params.old × In nodes.now 0 0 × (count < 2 ^ 40) }
    ensures { Adds (lent group35 nodes.now tables.entry params.old) (2 ^ 34) out.old out.new count result }
{
    let mut total = count;
    for item in Children::of(nodes, 0, 0) {
        total = entry(nodes, item, tables, params, out, total);
    }
    total
}

// 33 to 40: the tables that these groups ask, and the groups. `has`: whether the contract has a Genesis.
fn last_groups(
    nodes: &[u8],
    words: Words,
    has: bool,
    state: &Marks,
    out: &mut [u16],
    count: usize,
) -> usize
    requires { Looked nodes.now words state.now × (count < 2 ^ 39) × (has ≡ false → NoItem genesis nodes.now) }
    ensures { Adds (looked (λ t. group33 t ++ group35 t) nodes.now words state.now) (2 ^ 35) out.old out.new count result }
{
    let mut declared = [false; Image::NAMES];
    model::mark_declared(nodes, &mut declared);
    let mut known = declared;
    model::mark_known(nodes, words.qtov, words.asset, &mut known);
    let mut fields = [false; Image::NAMES];
    resolve_calls::mark_fields(nodes, words.address, &mut fields);
    let mut builtin = [false; Image::NAMES];
    resolve_calls::mark_builtins(words.builtins, &mut builtin);
    let mut method = [false; Image::NAMES];
    resolve_calls::mark_methods(words.methods, &mut method);
    let mut params = [false; Image::NAMES];
    let tables = Tables {
        address: words.address,
        state,
        declared: &declared,
        known: &known,
        fields: &fields,
        builtin: &builtin,
        method: &method,
    };
    let total = group33(has, nodes, tables, out, count);
    group35(nodes, tables, &mut params, out, total)
}

// The records of the resolve pass, from the buffer's start; words and state names were looked up before.
pub fn list(nodes: &[u8], words: Words, state: &Marks, out: &mut [u16]) -> usize
    requires { Looked nodes.now words state.now }
    ensures { Adds (looked resolve nodes.now words state.now) (2 ^ 38) out.old out.new 0 result }
{
    let items = items::find_items(nodes);
    let builtins = words.builtins;
    let first = first_groups(nodes, items, builtins.mint_asset, state, out);
    let total = resolve_deployer::group32(nodes, words.deployer, out, first);
    last_groups(nodes, words, items.genesis, state, out, total)
}
