// "Model" of document 01: the tables of state names, declared assets and known assets, one mark for each name, and the three questions about a name.
#![tactic(auto)]

ghost use Rattle.std.specs.Prelude.{◌≡◌, true, false, [], ◌∷◌, ◌<◌};
ghost use Rattle.rules.specs.Tree.{tree};
ghost use Rattle.rules.specs.Vocabulary.{declares};
ghost use Rattle.rules.specs.Model.{is_state, is_declared_asset, is_known_asset};
ghost use Rattle.nodes.specs.Shown.{View, In, Admitted, tree_of};
ghost use Rattle.nodes.specs.Marks.{Marks, Turns, Makes};
ghost use Rattle.nodes.specs.First.{Declaring};
ghost use Rattle.model.specs.Questions.{question_of, of_no_name};
ghost use Rattle.model.specs.Assets.{Assets, AssetWords, TypesEnd, Inside, Gains, Knows, inside_at, inside_item, inside};

use image::Image;
use nodes::{ASSET, Children, Declarations, ENTRY, FIELD_DECL, Marks, TYPE};

// The questions about a name. A case and not a closure that is handed in: contracts say what each asks, by `question_of`, and no caller has a fourth.
#[derive(Clone, Copy)]
pub enum Question {
    State,
    Declared,
    Known,
}

// The marks of the Names of the items or fields of this kind, by a walk over the items and fields of the contract.
fn mark_names(kind: usize, nodes: &[u8], marks: &mut Marks)
    requires { Declaring kind × View nodes.now 0 × In nodes.now 0 0 }
    ensures { Turns true (λ (W : View nodes.now 0). declares (tree_of W) (kind ∷ []) 0) marks.old marks.new }
{
    for declaration in Declarations::of(nodes) {
        nodes::mark_name(kind, nodes, declaration, true, marks);
    }
}

// The marks of the state names: all fields of all State blocks.
pub fn mark_state(nodes: &[u8], state: &mut Marks)
    requires { View nodes.now 0 × In nodes.now 0 0 }
    ensures { Makes is_state nodes.now state.old state.new }
{
    mark_names(FIELD_DECL, nodes, state);
}

// The marks of the declared assets: Asset items.
pub fn mark_declared(nodes: &[u8], declared: &mut Marks)
    requires { View nodes.now 0 × In nodes.now 0 0 }
    ensures { Makes is_declared_asset nodes.now declared.old declared.new }
{
    mark_names(ASSET, nodes, declared);
}

// The Name inside a Type named `Q_Asset`, which has the number `asset`: that of its first argument, if that is a type; 0 of any other node.
pub fn inner_of(nodes: &[u8], y: usize, asset: usize) -> usize
    requires { Assets nodes.now asset × In nodes.now 0 y }
    ensures { (A : Assets nodes.now asset) → Inside A y result }
{
    if nodes::kind(nodes, 0, y) != TYPE {
        return 0;
    }
    if !names::is_word(asset, nodes, 0, y + 1) {
        return 0;
    }
    if nodes::end(nodes, 0, y) <= y + 2 {
        return 0;
    }
    if nodes::kind(nodes, 0, y + 2) != TYPE {
        return 0;
    }
    y + 3
}

// The mark of the name inside node y, if it has one.
fn mark_inner(nodes: &[u8], y: usize, asset: usize, known: &mut Marks)
    requires { Assets nodes.now asset × In nodes.now 0 y }
    ensures { Gains (λ (A : Assets nodes.now asset). inside_at y A) known.old known.new }
{
    let name = inner_of(nodes, y, asset);
    if 0 < name {
        nodes::mark(known, nodes, 0, name, true);
    }
}

// Up to where the types of an item stand: an entry's before its first statement, those of any other item before its end.
fn types_end(nodes: &[u8], item: usize) -> usize
    requires { View nodes.now 0 × In nodes.now 0 item × (0 < item) }
    ensures { (W : View nodes.now 0) → TypesEnd W item result }
{
    if nodes::kind(nodes, 0, item) == ENTRY {
        return items::first_statement(nodes, 0, item);
    }
    nodes::end(nodes, 0, item)
}

// The marks of the names that a `Q_Asset` has inside, at any level, in an item: by a walk over its types, which goes past an item that holds none.
fn mark_item(nodes: &[u8], item: usize, asset: usize, known: &mut Marks)
    requires { Assets nodes.now asset × In nodes.now 0 item × (0 < item) }
    ensures { Gains (λ (A : Assets nodes.now asset). inside_item item A) known.old known.new }
{
    let to = types_end(nodes, item);
    // A `while`, since this is the only walk over types: an iterator for one loop would be no plainer.
    let mut p = item;
    while p < to {
        mark_inner(nodes, p, asset, known);
        p = nodes::next_type(nodes, 0, p);
    }
}

// The marks of the names that a `Q_Asset` has inside, item by item.
fn mark_inners(nodes: &[u8], asset: usize, known: &mut Marks)
    requires { Assets nodes.now asset × In nodes.now 0 0 }
    ensures { Gains (λ (A : Assets nodes.now asset). inside A) known.old known.new }
{
    for item in Children::of(nodes, 0, 0) {
        mark_item(nodes, item, asset, known);
    }
}

// The marks of the known assets, where those declared are marked already: `QTOV`, and what a `Q_Asset` has inside. The numbers are those of the two words; no type is a `Q_Asset` where its number is 0.
pub fn mark_known(nodes: &[u8], qtov: usize, asset: usize, known: &mut Marks)
    requires { AssetWords nodes.now qtov asset × In nodes.now 0 0 }
    ensures { Knows nodes.now qtov asset known.old known.new }
{
    names::mark_number(qtov, known);
    if 0 < asset {
        mark_inners(nodes, asset, known);
    }
}

// The marks of the known assets of an image, with the two words looked up.
fn find_known(image: &[u8], head: Image, known: &mut Marks)
    requires { Admitted image.now head }
    ensures { Marks image.now (λ w. false) known.old → Marks image.now (is_known_asset (tree image.now)) known.new }
{
    let nodes = nodes::area(image, head);
    mark_declared(nodes, known);
    let qtov = names::number_of(image, head, b"QTOV");
    let asset = names::number_of(image, head, b"Q_Asset");
    mark_known(nodes, qtov, asset, known);
}

// The marks of the names of which the answer to a question is yes.
fn mark_yes(question: Question, image: &[u8], head: Image, marks: &mut Marks)
    requires { Admitted image.now head }
    ensures { Marks image.now (λ w. false) marks.old → Marks image.now (question_of question (tree image.now)) marks.new }
{
    match question {
        Question::State => mark_state(nodes::area(image, head), marks),
        Question::Declared => mark_declared(nodes::area(image, head), marks),
        Question::Known => find_known(image, head, marks),
    }
}

// The answer for bytes that are no name of the image: `QTOV` is known all the same.
fn of_no_name(question: Question, word: &[u8]) -> bool
    ensures { result ≡ of_no_name question word.now }
{
    match question {
        Question::State | Question::Declared => false,
        Question::Known => names::equal(word, b"QTOV"),
    }
}

// Whether the answer to a question about a word is yes: its mark, if it is a name of the image.
pub fn holds(question: Question, image: &[u8], head: Image, word: &[u8]) -> bool
    requires { Admitted image.now head }
    ensures { result ≡ question_of question (tree image.now) word.now }
{
    let x = names::number_of(image, head, word);
    if x == 0 {
        return of_no_name(question, word);
    }
    let mut marks = [false; Image::NAMES];
    mark_yes(question, image, head, &mut marks);
    marks[x - 1]
}
