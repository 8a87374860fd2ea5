// The parts of an entry ("Linear" of document 01): which of them declare a tracked row, which Lets are another name of one (60), and where a row stands.
#![tactic(auto)]

ghost use Rattle.std.specs.Prelude.{◌≡◌, List, ℕ, ◌≤◌};
ghost use Rattle.rules.specs.Words.{Q_Asset, split, mint};
ghost use Rattle.rules.specs.Linear.{place_of};
ghost use Rattle.nodes.specs.Shown.{View, In, tree_of};
ghost use Rattle.names.specs.Found.{Numbered};
ghost use Rattle.names.specs.Spelled.{WordsOf};
ghost use Rattle.linear_parts.specs.Parts.{SaysOf, is_maker, PartAt, SaysPart, IsLet};

use nodes::{CALL, FIELD, IDENT, LET, PARAM, Past};
use places::Places;

// The numbers of `Q_Asset`, `split` and `mint`; 0 where the image has no such name.
#[derive(Clone, Copy)]
pub struct Words {
    pub asset: usize,
    pub split: usize,
    pub mint: usize,
}

// These three of all the words.
pub fn asset_words(words: names::Words) -> Words
    ensures { (s : List ℕ) → WordsOf s words → Numbered s Q_Asset result.asset × Numbered s split result.split × Numbered s mint result.mint }
{
    Words {
        asset: words.asset,
        split: words.methods.split,
        mint: words.builtins.mint,
    }
}

// Whether the callee x is Field `split` or Ident `mint`.
fn is_maker(words: Words, nodes: &[u8], x: usize) -> bool
    requires { View nodes.now 0 × In nodes.now 0 x }
    ensures { SaysOf (is_maker x) nodes.now words result }
{
    match nodes::kind(nodes, 0, x) {
        FIELD => names::is_word(words.split, nodes, 0, nodes::end(nodes, 0, x + 1)),
        IDENT => names::is_word(words.mint, nodes, 0, x),
        _ => false,
    }
}

// What a part of an entry is: the Param or the Let of an asset, which declares a row; a Let that is another name of an earlier row, a 60; or neither.
#[derive(Clone, Copy)]
pub enum Part {
    Row,
    Alias,
    Other,
}

// What a Let is, by its peeled value: a Call that makes an asset, or an Ident whose name has a row. The rows noted so far are the earlier ones.
fn let_part(words: Words, nodes: &[u8], p: usize, first: &Places) -> Part
    requires { PartAt nodes.now words p first.now × IsLet nodes.now p }
    ensures { SaysPart nodes.now words p first.now result }
{
    let value = nodes::down(Past::Peels, nodes, 0, p + 2);
    if nodes::end(nodes, 0, p + 2) <= value {
        return Part::Other;
    }
    match nodes::kind(nodes, 0, value) {
        CALL => {
            if is_maker(words, nodes, value + 1) {
                return Part::Row;
            }
            Part::Other
        }
        IDENT => {
            if places::at(first, nodes, 0, value) == 0 {
                return Part::Other;
            }
            Part::Alias
        }
        _ => Part::Other,
    }
}

// What part p of an entry is.
pub fn part_of(words: Words, nodes: &[u8], p: usize, first: &Places) -> Part
    requires { PartAt nodes.now words p first.now }
    ensures { SaysPart nodes.now words p first.now result }
{
    match nodes::kind(nodes, 0, p) {
        PARAM => {
            if names::is_word(words.asset, nodes, 0, p + 3) {
                return Part::Row;
            }
            Part::Other
        }
        LET => let_part(words, nodes, p, first),
        _ => Part::Other,
    }
}

// The place of the row that p declares: the Let, or the Name of the Param.
pub fn place_of(nodes: &[u8], p: usize) -> usize
    requires { View nodes.now 0 × In nodes.now 0 p }
    ensures { ((W : View nodes.now 0) → result ≡ place_of (tree_of W) p) × (result ≤ 2048) }
{
    if nodes::kind(nodes, 0, p) == LET {
        return p;
    }
    p + 1
}
