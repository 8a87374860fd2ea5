// The cells of the tracked rows, and what is judged of each row by them: 61 and 62 of document 01.
#![tactic(auto)]

ghost use Rattle.std.specs.Prelude.{◌≡◌, ℕ, ◌+◌, ◌*◌, ◌<◌, ◌≤◌, ◌^◌, ltb, eqb, length, get_or, set};
ghost use Rattle.rules.specs.Vocabulary.{rec, only};
ghost use Rattle.rules.specs.Sweep.{run};
ghost use Rattle.records.specs.Records.{Adds, under, hit_list};
ghost use Rattle.linear_rows.specs.Tallies.{marks_at, count_at, related_at, judged_at, Blanks};

use linear_tracked::Cells;

// Three cells for each of the at most 511 rows of an entry: burn marks, counted occurrences, and that one of these which 62 is related to.
pub type Tallies = [u16; 1533];

pub const MARKS: usize = 0;

pub const COUNT: usize = 1;

pub const RELATED: usize = 2;

// A cell of a row.
pub fn cell(tallies: &Tallies, row: usize, field: usize) -> usize
    requires { (row < 511) × (field < 3) }
    ensures { (result ≡ get_or tallies.now (3 * row + field) 0) × (result < 65536) }
{
    usize::from(tallies[3 * row + field])
}

// 61 at a row: it has neither a mark nor a counted occurrence.
fn is_unused(tallies: &Tallies, row: usize) -> bool
    requires { row < 511 }
    ensures { result ≡ eqb (marks_at tallies.now row + count_at tallies.now row) 0 }
{
    cell(tallies, row, MARKS) + cell(tallies, row, COUNT) == 0
}

// 62 at a row: over one, with its related word.
fn used_twice(tallies: &Tallies, row: usize) -> Option<u16>
    requires { row < 511 }
    ensures { (p : ℕ) → only (ltb 1 (marks_at tallies.now row + count_at tallies.now row)) (rec 62 p (related_at tallies.now row)) ≡ hit_list result 62 p }
{
    if cell(tallies, row, MARKS) + cell(tallies, row, COUNT) <= 1 {
        return None;
    }
    Some(tallies[3 * row + RELATED])
}

// The cells of a row are blank again.
pub fn blank(tallies: &mut Tallies, row: usize)
    requires { row < 511 }
    ensures { tallies.new ≡ set (set (set tallies.old (3 * row) 0) (3 * row + 1) 0) (3 * row + 2) 0 }
{
    tallies[3 * row + MARKS] = 0;
    tallies[3 * row + COUNT] = 0;
    tallies[3 * row + RELATED] = 0;
}

// 61 or 62 at a row of an entry, which is blank again afterwards.
fn judge_row(
    entry: usize,
    row: usize,
    places: &Cells,
    tallies: &mut Tallies,
    out: &mut [u16],
    count: usize,
) -> usize
    requires { (entry < 2048) × (row < 511) × (count < 2 ^ 55) }
    ensures adds { Adds (λ (_ : Unit {0}). under entry (judged_at places.now tallies.old row)) 2 out.old out.new count result }
    ensures tallies_value { tallies.new ≡ set (set (set tallies.old (3 * row) 0) (3 * row + 1) 0) (3 * row + 2) 0 }
{
    let place = usize::from(places[row]);
    let first = records::emit_if(is_unused(tallies, row), out, count, 61, place, entry);
    let total = records::emit_hit(used_twice(tallies, row), out, first, 62, place, entry);
    blank(tallies, row);
    total
}

// 61 and 62: the first n rows of an entry in order, which are blank again afterwards.
pub fn judge(
    entry: usize,
    n: usize,
    places: &Cells,
    tallies: &mut Tallies,
    out: &mut [u16],
    count: usize,
) -> usize
    requires { (entry < 2048) × (n ≤ 511) × (count < 2 ^ 50) }
    ensures adds { Adds (λ (_ : Unit {0}). under entry (run (judged_at places.now tallies.old) 0 n)) 1022 out.old out.new count result }
    ensures blanks { Blanks n tallies.old tallies.new }
{
    let mut total = count;
    for row in 0..n {
        total = judge_row(entry, row, places, tallies, out, total);
    }
    total
}
