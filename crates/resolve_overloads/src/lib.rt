// Code 23 of document 01: entries whose signature text an earlier entry has. No text is written: texts are equal exactly when the nodes are.
// Where no two entries have one name there is nothing to compare. Else an entry is compared with those before it that share its key,
// a number made of its name and its types, and only the first entry of each signature is kept to be compared with.
#![tactic(auto)]

ghost use Rattle.std.specs.Prelude.{◌≡◌, false, [], ℕ, ◌+◌, ◌*◌, ◌<◌, ◌≤◌, ◌^◌, get_or, set, MatchOption};
ghost use Rattle.rules.specs.Resolve.{signature, first_signed, group23};
ghost use Rattle.records.specs.Records.{Adds, on};
ghost use Rattle.nodes.specs.Shown.{View, In, tree_of};
ghost use Rattle.signature.specs.Alike.{same_node, same_type, signed_as};
ghost use Rattle.resolve_overloads.specs.Entries.{Entries, EntryAt, Seen, at23, Passes, NextParam, AtParam, AtNoParam};
ghost use Rattle.resolve_overloads.specs.Keys.{mix, token, type_key, key_of, slot, Chained, Likely, Sought, chained, Chaining};

use image::Image;
use nodes::{Children, ENTRY, Marks, PARAM};

// The entries kept: the last one of each slot, for each node the entry before it in its slot (0 is none), and its key.
#[derive(Drop)]
struct Kept {
    heads: [u16; 4096],
    links: [u16; Image::NODES],
    keys: [usize; Image::NODES],
}

// Whether the nodes p and q are of one kind, carry one name and are as long.
fn same_node(nodes: &[u8], p: usize, q: usize) -> bool
    requires { View nodes.now 0 × In nodes.now 0 p × In nodes.now 0 q }
    ensures { (W : View nodes.now 0) → result ≡ same_node (tree_of W) p q }
{
    if nodes::name(nodes, 0, p) != nodes::name(nodes, 0, q) {
        return false;
    }
    if nodes::kind(nodes, 0, p) != nodes::kind(nodes, 0, q) {
        return false;
    }
    nodes::end(nodes, 0, p) + q == nodes::end(nodes, 0, q) + p
}

// Whether the types i and j are the same, node by node.
fn same_type(nodes: &[u8], i: usize, j: usize) -> bool
    requires { View nodes.now 0 × In nodes.now 0 i × In nodes.now 0 j }
    ensures { (W : View nodes.now 0) → result ≡ same_type (tree_of W) i j }
{
    let e = nodes::end(nodes, 0, i);
    let f = nodes::end(nodes, 0, j);
    if e + j != f + i {
        return false;
    }
    let n = e - i;
    for d in 0..n {
        if !same_node(nodes, i + d, j + d) {
            return false;
        }
    }
    true
}

// The next child of an entry, if it is a parameter.
fn next_param(children: &mut Children) -> Option<usize>
    requires { children.old.rest.base ≡ 0 }
    ensures { NextParam children.old children.new × MatchOption result (AtNoParam children.old) (AtParam children.old children.new) }
{
    let p = children.next()?;
    if nodes::kind(children.nodes, 0, p) != PARAM {
        return None;
    }
    Some(p)
}

// Whether the entries g and e have one signature: one name, and the same types in order.
fn same_signature(nodes: &[u8], g: usize, e: usize) -> bool
    requires { Entries nodes.now g e }
    ensures { (W : View nodes.now 0) → result ≡ signed_as (tree_of W) e g }
{
    if nodes::name(nodes, 0, g + 1) != nodes::name(nodes, 0, e + 1) {
        return false;
    }
    let mut ours = Children::from(nodes, 0, g, g + 2);
    let mut theirs = Children::from(nodes, 0, e, e + 2);
    while let Some(p) = next_param(&mut ours) {
        let Some(q) = next_param(&mut theirs) else {
            return false;
        };
        if !same_type(nodes, p + 2, q + 2) {
            return false;
        }
    }
    next_param(&mut theirs).is_none()
}

// What node p adds to a key.
fn token(nodes: &[u8], p: usize) -> usize
    requires { In nodes.now 0 p }
    ensures { (result < 16777216) × ((W : View nodes.now 0) → result ≡ token W.image p) }
{
    image::name(nodes, p) + 65536 * image::kind(nodes, p)
}

// A key with one more node in it: two polynomials side by side, modulo primes below 2 ^ 31. How well it spreads is a matter of speed alone.
fn mix(key: usize, x: usize) -> usize
    requires { x < 16777216 }
    ensures { result ≡ mix key x }
{
    let low = (key % 2147483648 * 982451653 + x) % 2147483647;
    let high = (key / 2147483648 * 715827883 + x) % 2147483629;
    low + 2147483648 * high
}

// A key with the nodes of the type y in it.
fn type_key(nodes: &[u8], key: usize, y: usize) -> usize
    requires { View nodes.now 0 × In nodes.now 0 y }
    ensures { (W : View nodes.now 0) → result ≡ type_key W.image key y }
{
    let end = nodes::end(nodes, 0, y);
    let mut k = key;
    for p in y..end {
        k = mix(k, token(nodes, p));
    }
    k
}

// The key of the entry e, which entries of its signature share.
fn entry_key(nodes: &[u8], e: usize) -> usize
    requires { EntryAt nodes.now e }
    ensures { (W : View nodes.now 0) → result ≡ key_of W.image e }
{
    let mut key = nodes::name(nodes, 0, e + 1);
    for param in Children::from(nodes, 0, e, e + 2) {
        if nodes::kind(nodes, 0, param) != PARAM {
            return key;
        }
        key = type_key(nodes, key, param + 2);
    }
    key
}

// Where a key is looked up. The key of an entry without parameters, which takes only two nodes, is its name number and has a slot of its own: entries that crowd a slot take six nodes or more.
fn slot(key: usize) -> usize
    ensures { (result ≡ slot key) × (result < 4096) }
{
    if key < 2048 {
        return key;
    }
    2048 + key % 2048
}

impl Kept {
    // Whether the kept entry g and the entry e have one signature: entries of other keys are not compared.
    fn is_signed(&self, nodes: &[u8], g: usize, e: usize, key: usize) -> bool
        requires { Likely nodes.now g e key self.now }
        ensures { (L : Likely nodes.now g e key self.now) → result ≡ signed_as (tree_of L.pair.view) e g }
    {
        if self.keys[g] != key {
            return false;
        }
        same_signature(nodes, g, e)
    }

    // The first entry that has the signature of the entry e. The walk goes from link to link, not by a counter.
    fn first_signed(&self, nodes: &[u8], e: usize, key: usize) -> usize
        requires { Sought nodes.now e key self.now }
        ensures { (result ≤ e) × ((S : Sought nodes.now e key self.now) → result ≡ first_signed (tree_of S.it.view) (signature (tree_of S.it.view) e)) }
    {
        let at = slot(key);
        let mut g = usize::from(self.heads[at]);
        while 0 < g {
            if self.is_signed(nodes, g, e, key) {
                return g;
            }
            g = usize::from(self.links[g]);
        }
        e
    }

    // An entry is kept: it is the last one of its slot.
    fn enter(&mut self, entry: usize, key: usize)
        requires { entry < 2048 }
        ensures { (self.new.heads ≡ set self.old.heads (slot key) entry) × (self.new.links ≡ set self.old.links entry (get_or self.old.heads (slot key) 0)) × (self.new.keys ≡ set self.old.keys entry key) }
    {
        let at = slot(key);
        self.keys[entry] = key;
        self.links[entry] = self.heads[at];
        self.heads[at] = entry as u16;
    }
}

// 23 at an item, if it is an Entry. It is kept if no earlier one has its signature.
fn entry(nodes: &[u8], item: usize, kept: &mut Kept, out: &mut [u16], count: usize) -> usize
    requires { Chained nodes.now item kept.old × In nodes.now 0 item × (0 < item) × (count < 2 ^ 60) }
    ensures adds { Adds (chained (at23 item) nodes.now item kept.old) 1 out.old out.new count result }
    ensures chaining { Chaining nodes.now item kept.old kept.new }
{
    if nodes::kind(nodes, 0, item) != ENTRY {
        return count;
    }
    let key = entry_key(nodes, item);
    let first = kept.first_signed(nodes, item, key);
    if first < item {
        return records::emit(
            out,
            count,
            23,
            (item + 1) as u16,
            (first + 1) as u16,
            item as u16,
        );
    }
    kept.enter(item, key);
    count
}

// 23: the entries in order.
fn entries(nodes: &[u8], kept: &mut Kept, out: &mut [u16], count: usize) -> usize
    requires { Chained nodes.now 1 kept.old × In nodes.now 0 0 × (count < 2 ^ 40) }
    ensures { Adds (chained group23 nodes.now 1 kept.old) 2048 out.old out.new count result }
{
    let mut total = count;
    for item in Children::of(nodes, 0, 0) {
        total = entry(nodes, item, kept, out, total);
    }
    total
}

// The same with tables of its own.
fn compared(nodes: &[u8], out: &mut [u16], count: usize) -> usize
    requires { View nodes.now 0 × In nodes.now 0 0 × (count < 2 ^ 40) }
    ensures { Adds (λ (W : View nodes.now 0). on group23 (tree_of W)) 2048 out.old out.new count result }
{
    let mut kept = Kept {
        heads: [0u16; 4096],
        links: [0u16; Image::NODES],
        keys: [0usize; Image::NODES],
    };
    entries(nodes, &mut kept, out, count)
}

// Whether the item is an Entry whose name an earlier one has; else its name is marked.
fn meets(nodes: &[u8], item: usize, seen: &mut Marks) -> bool
    requires { Seen nodes.now item seen.old × In nodes.now 0 0 × In nodes.now 0 item × (0 < item) }
    ensures { Passes nodes.now item seen.old seen.new result }
{
    if nodes::kind(nodes, 0, item) != ENTRY {
        return false;
    }
    if nodes::is_marked(seen, nodes, 0, item + 1) {
        return true;
    }
    nodes::mark(seen, nodes, 0, item + 1, true);
    false
}

// Whether two entries have one name: if none have, nothing is to be compared.
fn repeats(nodes: &[u8], seen: &mut Marks) -> bool
    requires { Seen nodes.now 1 seen.old × In nodes.now 0 0 }
    ensures { (S : Seen nodes.now 1 seen.old) → result ≡ false → group23 (tree_of S.view) ≡ [] }
{
    for item in Children::of(nodes, 0, 0) {
        if meets(nodes, item, seen) {
            return true;
        }
    }
    false
}

// The records of group 23.
pub fn group23(nodes: &[u8], out: &mut [u16], count: usize) -> usize
    requires { View nodes.now 0 × In nodes.now 0 0 × (count < 2 ^ 40) }
    ensures { Adds (λ (W : View nodes.now 0). on group23 (tree_of W)) 2048 out.old out.new count result }
{
    let mut seen = [false; Image::NAMES];
    if !repeats(nodes, &mut seen) {
        return count;
    }
    compared(nodes, out, count)
}
