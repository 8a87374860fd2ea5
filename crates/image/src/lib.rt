// The image of document 01: what its bytes hold, and how they are read: the image's type with its maxima, the header
// (refusals 1 to 4), the fields of a node, the offsets and the order of names. `admission` has the other refusals, over
// `children` (the table of children), `name_table` (the names) and `steps` (one step of the walk over the nodes).
#![tactic(auto)]

ghost use Rattle.std.specs.Prelude.{◌≡◌, MatchOption, ◌+◌, ◌*◌, ◌<◌, ◌≤◌, length};
ghost use Rattle.image.specs.Maxima.{max_nodes, max_names};
ghost use Rattle.image.specs.Node.{half, full_word, kind_of, name_of, end_of, from_of, to_of};
ghost use Rattle.image.specs.Text.{less, off_of};
ghost use Rattle.image.specs.Refusals.{number_of};
ghost use Rattle.image.specs.Admit.{names_at, text_at, layout_ok, header_refusal, admission_of};

// An image whose header is in order: its counts.
#[derive(Clone, Copy)]
pub struct Image {
    pub nodes: usize,
    pub names: usize,
}

// Why bytes are no image: document 01's refusals 1 to 8.
#[derive(Clone, Copy, PartialEq, Eq)]
pub enum Refusal {
    Length = 1,
    Version = 2,
    Counts = 3,
    Layout = 4,
    Names = 5,
    Tree = 6,
    Depth = 7,
    Unused = 8,
}

impl Refusal {
    pub fn number(self) -> usize
        ensures { result ≡ number_of self }
    {
        self as usize
    }

    // The refusal of this number, if it is one.
    pub fn of(number: usize) -> Option<Refusal>
        ensures { MatchOption result (number < 9 → number ≡ 0) (λ refusal. number_of refusal ≡ number) }
    {
        match number {
            1 => Some(Refusal::Length),
            2 => Some(Refusal::Version),
            3 => Some(Refusal::Counts),
            4 => Some(Refusal::Layout),
            5 => Some(Refusal::Names),
            6 => Some(Refusal::Tree),
            7 => Some(Refusal::Depth),
            8 => Some(Refusal::Unused),
            _ => None,
        }
    }
}

impl Image {
    // The maxima of the form, stated here and nowhere else in the code.
    pub const NODES: usize = 2048;

    pub const NAMES: usize = 1024;
    // Bytes of all names together.
    pub const TEXT: usize = 16384;
    // Bytes of one name.
    pub const NAME: usize = 128;
    // Ancestors of a node.
    pub const DEPTH: usize = 64;
    // The header.
    pub const HEADER: usize = 24;
    // The header, the nodes, the text offsets and the text, each at its longest.
    pub const LENGTH: usize = Image::HEADER
        + 16 * Image::NODES
        + 2 * (Image::NAMES + 1)
        + Image::TEXT;

    // The header, refusals 1 to 4.
    pub fn read(s: &[u8]) -> Result<Image, Refusal>
        ensures { result ≡ admission_of (header_refusal s.now) s.now }
    {
        if s.len() < Image::HEADER {
            return Err(Refusal::Length);
        }
        if Image::LENGTH < s.len() {
            return Err(Refusal::Length);
        }
        if half_at(s, 0) != 1 {
            return Err(Refusal::Version);
        }
        if half_at(s, 6) != 0 {
            return Err(Refusal::Version);
        }
        let n = half_at(s, 2);
        let m = half_at(s, 4);
        if n < 1 {
            return Err(Refusal::Counts);
        }
        if Image::NODES < n {
            return Err(Refusal::Counts);
        }
        if Image::NAMES < m {
            return Err(Refusal::Counts);
        }
        let image = Image { nodes: n, names: m };
        if !layout_ok(s, image) {
            return Err(Refusal::Layout);
        }
        Ok(image)
    }

    // The byte at which the names start: the nodes end there.
    pub fn names_at(self) -> usize
        requires { self.nodes ≤ max_nodes }
        ensures { result ≡ names_at self.nodes }
    {
        Image::HEADER + 16 * self.nodes
    }

    // The byte at which the text starts: the names end there.
    pub fn text_at(self) -> usize
        requires { (self.nodes ≤ max_nodes) × (self.names ≤ max_names) }
        ensures { result ≡ text_at self.nodes self.names }
    {
        self.names_at() + 2 * (self.names + 1)
    }
}

// Whether the four offsets of the header are those of an image.
fn layout_ok(s: &[u8], image: Image) -> bool
    requires { (24 ≤ length s.now) × (image.nodes ≤ max_nodes) × (image.names ≤ max_names) }
    ensures { result ≡ layout_ok s.now image.nodes image.names }
{
    let names = image.names_at();
    let text = image.text_at();
    if word_at(s, 8) != Image::HEADER {
        return false;
    }
    if word_at(s, 12) != names {
        return false;
    }
    if word_at(s, 16) != text {
        return false;
    }
    if word_at(s, 20) != s.len() {
        return false;
    }
    text <= s.len()
}

// The u16 at byte k.
pub fn half_at(s: &[u8], k: usize) -> usize
    requires { k + 1 < length s.now }
    ensures { (result ≡ half s.now k) × (result < 65536) }
{
    usize::from(s[k]) + 256 * usize::from(s[k + 1])
}

// The u32 at byte k.
pub fn word_at(s: &[u8], k: usize) -> usize
    requires { k + 3 < length s.now }
    ensures { (result ≡ full_word s.now k) × (result < 4294967296) }
{
    half_at(s, k) + 65536 * half_at(s, k + 2)
}

// The fields of node i, in a node area.
pub fn kind(nodes: &[u8], i: usize) -> usize
    requires { 16 * i + 16 ≤ length nodes.now }
    ensures { (result ≡ kind_of nodes.now i) × (result < 256) }
{
    usize::from(nodes[16 * i])
}

pub fn name(nodes: &[u8], i: usize) -> usize
    requires { 16 * i + 16 ≤ length nodes.now }
    ensures { (result ≡ name_of nodes.now i) × (result < 65536) }
{
    half_at(nodes, 16 * i + 2)
}

pub fn end(nodes: &[u8], i: usize) -> usize
    requires { 16 * i + 16 ≤ length nodes.now }
    ensures { (result ≡ end_of nodes.now i) × (result < 65536) }
{
    half_at(nodes, 16 * i + 4)
}

pub fn span_from(nodes: &[u8], i: usize) -> usize
    requires { 16 * i + 16 ≤ length nodes.now }
    ensures { (result ≡ from_of nodes.now i) × (result < 4294967296) }
{
    word_at(nodes, 16 * i + 8)
}

pub fn span_to(nodes: &[u8], i: usize) -> usize
    requires { 16 * i + 16 ≤ length nodes.now }
    ensures { (result ≡ to_of nodes.now i) × (result < 4294967296) }
{
    word_at(nodes, 16 * i + 12)
}

// Where in the text the name at place k starts, which is where the one before it ends.
pub fn offset(names: &[u8], k: usize) -> usize
    requires { 2 * k + 2 ≤ length names.now }
    ensures { (result ≡ off_of names.now k) × (result < 65536) }
{
    half_at(names, 2 * k)
}

// Whether t is before u, byte by byte, a prefix first.
pub fn below(t: &[u8], u: &[u8]) -> bool
    ensures { result ≡ less t.now u.now }
{
    // Not `t < u`: byte by byte an edit can fold their case (`name_folded`), and what it breaks is a fact.
    for k in 0..u.len() {
        if t.len() <= k {
            return true;
        }
        if t[k] != u[k] {
            return t[k] < u[k];
        }
    }
    false
}
