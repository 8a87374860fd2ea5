// Calls of `mint_asset` where there is over one Asset item: code 22 of document 01.
#![tactic(auto)]

ghost use Rattle.std.specs.Prelude.{◌≡◌, ◌*◌, ◌<◌, ◌^◌};
ghost use Rattle.rules.specs.Resolve.{many_assets, mint_calls, group22};
ghost use Rattle.records.specs.Records.{Adds, Asks};
ghost use Rattle.nodes.specs.Shown.{View, In, tree_of};
ghost use Rattle.nodes.specs.Entries.{in_part};
ghost use Rattle.resolve_mints.specs.Minted.{Minting, at22, item22, minted, swept22};

use nodes::{ASSET, CALL, Children, Declarations, IDENT};

// 22 at a node of an item's statements: a Call of Ident `mint_asset`, which has the number `mint`.
fn rule22(nodes: &[u8], base: usize, p: usize, mint: usize) -> bool
    requires { Minting nodes.now base mint × In nodes.now base p }
    ensures { Asks (minted (at22 p) nodes.now base mint) 22 p result }
{
    if nodes::kind(nodes, base, p) != CALL {
        return false;
    }
    if nodes::kind(nodes, base, p + 1) != IDENT {
        return false;
    }
    names::is_word(mint, nodes, base, p + 1)
}

// 22 in an item's statements, lent as their own part of the node area; they stand in this entry (0: in none).
fn calls22(
    nodes: &[u8],
    base: usize,
    entry: usize,
    mint: usize,
    out: &mut [u16],
    count: usize,
) -> usize
    requires { Minting nodes.now base mint × (count < 2 ^ 50) × (entry < 2048) }
    ensures { Adds (in_part entry nodes.now base (swept22 nodes.now base mint)) 2048 out.old out.new count result }
{
    let end = base + nodes.len() / 16;
    let mut total = count;
    for p in base..end {
        total = records::emit_if(rule22(nodes, base, p, mint), out, total, 22, p, entry);
    }
    total
}

// 22 in an item, if it holds statements.
fn item22(nodes: &[u8], item: usize, mint: usize, out: &mut [u16], count: usize) -> usize
    requires { Minting nodes.now 0 mint × In nodes.now 0 item × (0 < item) × (count < 2 ^ 50) }
    ensures { Adds (minted (item22 item) nodes.now 0 mint) 2048 out.old out.new count result }
{
    let kind = nodes::kind(nodes, 0, item);
    if !items::is_bodied(kind) {
        return count;
    }
    let first = items::first_statement(nodes, 0, item);
    let body = items::statements(nodes, 0, item, first);
    let entry = items::entry_of(kind, item);
    calls22(body, first, entry, mint, out, count)
}

// 22: the items in order.
fn mint_calls(nodes: &[u8], mint: usize, out: &mut [u16], count: usize) -> usize
    requires { Minting nodes.now 0 mint × In nodes.now 0 0 × (count < 2 ^ 40) }
    ensures { Adds (minted mint_calls nodes.now 0 mint) (2048 * 2048) out.old out.new count result }
{
    let mut total = count;
    for item in Children::of(nodes, 0, 0) {
        total = item22(nodes, item, mint, out, total);
    }
    total
}

// Whether there is over one Asset item: items are counted, not names.
fn many_assets(nodes: &[u8]) -> bool
    requires { View nodes.now 0 × In nodes.now 0 0 }
    ensures { (W : View nodes.now 0) → result ≡ many_assets (tree_of W) }
{
    let mut met = false;
    for p in Declarations::of(nodes) {
        if nodes::kind(nodes, 0, p) == ASSET {
            if met {
                return true;
            }
            met = true;
        }
    }
    false
}

// 22; nothing where the image has no name `mint_asset`.
pub fn group22(nodes: &[u8], mint: usize, out: &mut [u16], count: usize) -> usize
    requires { Minting nodes.now 0 mint × In nodes.now 0 0 × (count < 2 ^ 40) }
    ensures { Adds (minted group22 nodes.now 0 mint) (2048 * 2048) out.old out.new count result }
{
    if mint < 1 {
        return count;
    }
    if !many_assets(nodes) {
        return count;
    }
    mint_calls(nodes, mint, out, count)
}
