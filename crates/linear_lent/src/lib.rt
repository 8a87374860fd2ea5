// The linear pass in a table of rows that it is lent ("a table of tracked rows that the linear pass is lent" of document 01): the rows of a contract are stored there, then each is judged where it stands, and blanked.
// Two functions hold the rows, and a third lends its own; they call functions with plain parameters for all else.
#![tactic(auto)]

ghost use Rattle.std.specs.Prelude.{◌≡◌, Ok, ◌≤◌, length, replicate};
ghost use Rattle.image.specs.Admit.{refusal};
ghost use Rattle.rules.specs.Linear.{linear};
ghost use Rattle.typeck.specs.Face.{Judged, verdict_of};
ghost use Rattle.linear_table.specs.Table.{blank_row};
ghost use Rattle.linear_steps.specs.declared.Found.{Found};
ghost use Rattle.linear_lent.specs.Lent.{JudgedIn, ran, answered};

use image::{Image, Refusal};
use linear_steps::State;
use linear_table::Row;
use typeck::{Offence, Verdict};

// The steps, one after the other, in the rows that are lent.
fn drive(cells: &[u16], rows: &mut [Row]) -> State
    requires { (length cells.now ≡ 2046) × (length rows.old ≡ 511) }
    ensures { (result ≡ (ran cells.now rows.old).0) × (rows.new ≡ (ran cells.now rows.old).1) }
{
    let mut c = linear_steps::start(cells);
    while 0 < c.left {
        let i = c.at;
        let t = linear_steps::advance(cells, c, rows[i]);
        rows[i] = t.row;
        c = t.state;
    }
    c
}

// The verdict that was found.
fn answer(image: &[u8], c: State) -> Verdict
    requires { 9 ≤ c.found.number → refusal image.now ≡ 0 }
    ensures { result ≡ verdict_of (answered image.now c.found) }
{
    let found = c.found;
    if let Some(refusal) = Refusal::of(usize::from(found.number)) {
        return Err(refusal);
    }
    if found.number == 0 {
        return Ok(None);
    }
    Ok(refused_at(image, found.number, found.place))
}

// A code and its place, with the span words of the place.
fn refused_at(image: &[u8], code: u16, place: u16) -> Option<Offence>
    requires { (9 ≤ code) × (refusal image.now ≡ 0) }
    ensures { (f : Found) → f.number ≡ code → f.place ≡ place → Ok result ≡ verdict_of (answered image.now f) }
{
    let head = Image::read(image).ok()?;
    let span = spans::of_place(image, head, usize::from(place));
    Some(Offence {
        code,
        place,
        from: span.from as u32,
        to: span.to as u32,
    })
}

// The verdict of the linear pass, by the rows that are lent. They are as they were where the image is refused, and blank otherwise.
pub fn linear(image: &[u8], rows: &mut [Row]) -> Verdict
    requires { length rows.old ≡ 511 }
    ensures { JudgedIn image.now rows.old result rows.new }
{
    let cells = linear_table::table_of(image);
    let c = drive(&cells, rows);
    answer(image, c)
}

// A table of blank rows.
fn blank() -> [Row; 511]
    ensures { result ≡ replicate 511 blank_row }
{
    let row = linear_steps::blank_row();
    [row; 511]
}

// The same, lent a table of this function's own, for whoever has no rows: its parameters are plain.
pub fn linear_here(image: &[u8]) -> Verdict
    ensures { Judged linear image.now result }
{
    let mut rows = blank();
    linear(image, &mut rows)
}
