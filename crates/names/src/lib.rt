// Words looked up by their bytes, and a mark by word: what "Model" and "Offences" of document 01 say of names that they spell out, such as `QTOV` or `deployer`.
#![tactic(auto)]

ghost use Rattle.std.specs.Prelude.{◌≡◌, Bool, List, ℕ, ◌+◌, ◌<◌, ◌≤◌};
ghost use Rattle.image.specs.Maxima.{max_names};
ghost use Rattle.rules.specs.Sweep.{same};
ghost use Rattle.nodes.specs.Shown.{View, Worded, Admitted, tree_of, name_text};
ghost use Rattle.nodes.specs.Marks.{Marks};
ghost use Rattle.names.specs.Found.{Parted, Numbered, MarksNumber};
ghost use Rattle.names.specs.Spelled.{BuiltinsOf, MethodsOf, WordsOf};

use image::Image;
use nodes::Marks;

// Whether two byte strings are equal: names are equal only when their bytes are.
pub fn equal(v: &[u8], w: &[u8]) -> bool
    ensures { result ≡ same v.now w.now }
{
    // Not `v == w`, which is a call: of these few tests the compiler makes a search of its own for each word of the rules.
    if v.len() != w.len() {
        return false;
    }
    for k in 0..v.len() {
        if v[k] != w[k] {
            return false;
        }
    }
    true
}

// The bytes of the name at place k, from 0.
fn name_at(image: &[u8], head: Image, k: usize) -> &[u8]
    requires { Admitted image.now head × (k < head.names) }
    ensures { result.now ≡ name_text image.now (k + 1) }
{
    let table = head.names_at();
    let texts = head.text_at();
    let from = image::offset(&image[table..texts], k);
    let to = image::offset(&image[table..texts], k + 1);
    let text = &image[texts..];
    &text[from..to]
}

// How many names are before a word: names ascend by their bytes, so a binary search.
fn count_before(image: &[u8], head: Image, name_text: &[u8]) -> usize
    requires { Admitted image.now head }
    ensures { Parted image.now name_text.now result }
{
    // A loop, since the searches of the library go over the elements of a slice, and the names are none.
    let mut low = 0;
    let mut high = head.names;
    while low < high {
        let middle = (low + high) / 2;
        if image::below(name_at(image, head, middle), name_text) {
            low = middle + 1;
        } else {
            high = middle;
        }
    }
    low
}

// The number of a word; 0 where no name of the image has these bytes. No `Option`: no node has name number 0, so rules compare numbers without a test for it.
pub fn number_of(image: &[u8], head: Image, name_text: &[u8]) -> usize
    requires { Admitted image.now head }
    ensures { Numbered image.now name_text.now result }
{
    let k = count_before(image, head, name_text);
    if head.names <= k {
        return 0;
    }
    if !equal(name_at(image, head, k), name_text) {
        return 0;
    }
    k + 1
}

// The mark of the word of this number; none where it is 0, since then no name of the image is this word.
pub fn mark_number(number: usize, marks: &mut Marks)
    requires { number ≤ max_names }
    ensures { MarksNumber number marks.old marks.new }
{
    if 0 < number {
        marks[number - 1] = true;
    }
}

// The words that a Call may call (34 of document 01), by their numbers; 0 where the image has no such name.
#[derive(Clone, Copy)]
pub struct Builtins {
    pub send: usize,
    pub send_asset: usize,
    pub mint: usize,
    pub mint_asset: usize,
}

// The words that a Call may call of a base (34).
#[derive(Clone, Copy)]
pub struct Methods {
    pub get: usize,
    pub contains: usize,
    pub split: usize,
    pub set: usize,
    pub remove: usize,
    pub merge: usize,
    pub insert: usize,
    pub debit: usize,
    pub credit: usize,
}

// All the words that the rules mention: these, `has`, `deployer`, `Q_Asset`, `Q_Address` and `QTOV`.
#[derive(Clone, Copy)]
pub struct Words {
    pub builtins: Builtins,
    pub methods: Methods,
    pub has: usize,
    pub deployer: usize,
    pub asset: usize,
    pub address: usize,
    pub qtov: usize,
}

fn find_builtins(image: &[u8], head: Image) -> Builtins
    requires { Admitted image.now head }
    ensures { BuiltinsOf image.now result }
{
    Builtins {
        send: number_of(image, head, b"send"),
        send_asset: number_of(image, head, b"send_asset"),
        mint: number_of(image, head, b"mint"),
        mint_asset: number_of(image, head, b"mint_asset"),
    }
}

fn find_methods(image: &[u8], head: Image) -> Methods
    requires { Admitted image.now head }
    ensures { MethodsOf image.now result }
{
    Methods {
        get: number_of(image, head, b"get"),
        contains: number_of(image, head, b"contains"),
        split: number_of(image, head, b"split"),
        set: number_of(image, head, b"set"),
        remove: number_of(image, head, b"remove"),
        merge: number_of(image, head, b"merge"),
        insert: number_of(image, head, b"insert"),
        debit: number_of(image, head, b"debit"),
        credit: number_of(image, head, b"credit"),
    }
}

// The words that the rules mention, each looked up once for all passes.
pub fn find_words(image: &[u8], head: Image) -> Words
    requires { Admitted image.now head }
    ensures { WordsOf image.now result }
{
    Words {
        builtins: find_builtins(image, head),
        methods: find_methods(image, head),
        has: number_of(image, head, b"has"),
        deployer: number_of(image, head, b"deployer"),
        asset: number_of(image, head, b"Q_Asset"),
        address: number_of(image, head, b"Q_Address"),
        qtov: number_of(image, head, b"QTOV"),
    }
}

// Whether the word of node p has this number.
pub fn is_word(number: usize, nodes: &[u8], base: usize, p: usize) -> bool
    requires { Worded nodes.now base p }
    ensures { (W : View nodes.now base) (w : List ℕ) → Numbered W.image w number → result ≡ same ((tree_of W).text p) w }
{
    nodes::name(nodes, base, p) == number
}
