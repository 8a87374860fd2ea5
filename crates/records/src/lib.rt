// One record of a list: written where the buffer has room, and always counted ("List record" of document 01, with the entry of E8).
#![tactic(auto)]

ghost use Rattle.std.specs.Prelude.{◌≡◌, [], ◌∷◌, ℕ, ◌+◌, ◌*◌, ◌<◌, ◌≤◌, ◌^◌, length, set};
ghost use Rattle.rules.specs.Vocabulary.{rec, only};
ghost use Rattle.records.specs.Records.{Adds, under, hit_list};

// Stores x at i, if the buffer has such a place.
pub fn put<T: Copy>(out: &mut [T], i: usize, x: T)
    ensures { out.new ≡ set out.old i x }
{
    if i < out.len() {
        out[i] = x;
    }
}

// Writes a record after the `count` records before it, where there is room, and counts it.
pub fn emit(out: &mut [u16], count: usize, code: u16, place: u16, related: u16, entry: u16) -> usize
    requires { count < 2 ^ 60 }
    ensures { Adds (λ (_ : Unit {0}). under entry (rec code place related ∷ [])) 1 out.old out.new count result }
{
    put(out, 4 * count, code);
    put(out, 4 * count + 1, place);
    put(out, 4 * count + 2, related);
    put(out, 4 * count + 3, entry);
    count + 1
}

// The record of a rule that asks about node `place` of an entry (0: of none), if the answer is yes.
pub fn emit_if(
    hit: bool,
    out: &mut [u16],
    count: usize,
    code: u16,
    place: usize,
    entry: usize,
) -> usize
    requires { (count < 2 ^ 60) × (place < 65536) × (entry < 65536) }
    ensures { Adds (λ (_ : Unit {0}). under entry (only hit (rec code place 0))) 1 out.old out.new count result }
{
    if hit {
        return emit(out, count, code, place as u16, 0, entry as u16);
    }
    count
}

// The record of a rule that asks about node `place` of an entry (0: of none), if it answers one: its related word.
pub fn emit_hit(
    hit: Option<u16>,
    out: &mut [u16],
    count: usize,
    code: u16,
    place: usize,
    entry: usize,
) -> usize
    requires { (count < 2 ^ 60) × (place < 65536) × (entry < 65536) }
    ensures { Adds (λ (_ : Unit {0}). under entry (hit_list hit code place)) 1 out.old out.new count result }
{
    match hit {
        None => count,
        Some(related) => emit(out, count, code, place as u16, related, entry as u16),
    }
}
