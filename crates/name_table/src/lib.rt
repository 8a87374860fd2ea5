// The names of an image in order: document 01's text forms and name table, refusal 5.
#![tactic(auto)]

ghost use Rattle.std.specs.Prelude.{◌≡◌, ◌+◌, ◌*◌, ◌<◌, ◌≤◌, true, length, leb};
ghost use Rattle.name_table.specs.Bytes.{all_words, Alike, four_of};
ghost use Rattle.image.specs.Pick.{among};
ghost use Rattle.image.specs.Text.{class_of, less, name_at, names_ok};

use image::Image;

// Whether b is one of the bytes from low to high.
fn among(low: u8, high: u8, b: u8) -> bool
    ensures { result ≡ among low high b }
{
    low <= b && b <= high
}

// The class of a byte: a letter or `_` 1, a digit 2, any other 0. Not a `match` over ranges, which is compiled to a
// jump for each: of these tests the compiler makes one subtraction and one comparison of each range, for many bytes at a time.
#[tactic(auto, unfolding(image::specs::Text::class_of))]
fn class(b: u8) -> u8
    ensures { result ≡ class_of b }
{
    if among(b'a', b'z', b) || among(b'A', b'Z', b) || b == b'_' {
        return 1;
    }
    if among(b'0', b'9', b) {
        return 2;
    }
    0
}

// The lowest class of a byte of the text (2 where it has none): 0 if one of them is of no class.
fn lowest(t: &[u8]) -> u8
    ensures { leb 1 result ≡ all_words t.now }
{
    let mut low = 2;
    for b in t {
        low = low.min(class(*b));
    }
    low
}

// How many bytes, counted in fours, two texts have in common at their start.
fn alike(t: &[u8], u: &[u8]) -> usize
    ensures { Alike t.now u.now result }
{
    // Not a `for`: the counter goes by fours, and where it stands at the end is the answer.
    let mut k = 0;
    while k + 4 <= u.len() {
        if t.len() < k + 4 {
            return k;
        }
        if image::word_at(t, k) != image::word_at(u, k) {
            return k;
        }
        k += 4;
    }
    k
}

// Four bytes from k on as one number, the first one highest.
fn four_at(s: &[u8], k: usize) -> usize
    requires { k + 3 < length s.now }
    ensures { result ≡ four_of s.now k }
{
    256 * (256 * (256 * usize::from(s[k]) + usize::from(s[k + 1])) + usize::from(s[k + 2]))
        + usize::from(s[k + 3])
}

// Whether t is before u, as `below` has it: where both go on, the first four bytes that are not alike decide.
fn rises(t: &[u8], u: &[u8]) -> bool
    ensures { result ≡ less t.now u.now }
{
    let k = alike(t, u);
    if k + 4 <= t.len() && k + 4 <= u.len() {
        return four_at(t, k) < four_at(u, k);
    }
    image::below(&t[k..], &u[k..])
}

// Whether the name from a up to b, in a text whose bytes are all of a class, is in order after the one from p up to a.
fn name_ok(text: &[u8], p: usize, a: usize, b: usize) -> bool
    requires { (p ≤ a) × (a ≤ length text.now) × (all_words text.now ≡ true) }
    ensures { result ≡ name_at text.now p a b }
{
    if b <= a {
        return false;
    }
    if text.len() < b {
        return false;
    }
    if Image::NAME < b - a {
        return false;
    }
    rises(&text[p..a], &text[a..b])
}

// Whether the m names are in order.
pub fn names_ok(names: &[u8], text: &[u8], m: usize) -> bool
    requires { 2 * m + 2 ≤ length names.now }
    ensures { result ≡ names_ok names.now text.now m }
{
    if image::offset(names, 0) != 0 {
        return false;
    }
    if image::offset(names, m) != text.len() {
        return false;
    }
    if Image::TEXT < text.len() {
        return false;
    }
    if lowest(text) < 1 {
        return false;
    }
    let mut p = 0;
    let mut a = 0;
    for k in 0..m {
        let b = image::offset(names, k + 1);
        if !name_ok(text, p, a, b) {
            return false;
        }
        p = a;
        a = b;
    }
    true
}
