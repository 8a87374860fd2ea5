// One step of the linear pass in a table of rows that it is lent: a row of the contract is stored, or the one that stands there is judged and blanked.
#![tactic(auto)]

ghost use Rattle.std.specs.Prelude.{◌≡◌, ◌<◌, length};
ghost use Rattle.linear_table.specs.Table.{row_in, blank_row};
ghost use Rattle.linear_steps.specs.Step.{found_at, judge_row, row_before, next_of, step_of, state_with, start_of};

use linear_table::{ALIAS, REFUSED, Row};

// What was found, in document 01's numbers: 0 nothing, 1 to 8 the image's refusal, else a code with its place.
#[derive(Clone, Copy)]
pub struct Found {
    pub number: u16,
    pub place: u16,
}

// The row that the next step takes, how many steps are left, and what was found.
#[derive(Clone, Copy)]
pub struct State {
    pub at: usize,
    pub left: usize,
    pub found: Found,
}

// What a step gives: the row to store, and the state.
#[derive(Clone, Copy)]
pub struct Turn {
    pub row: Row,
    pub state: State,
}

// The state before the first step.
fn state_of(left: usize, number: u16, place: u16) -> State
    ensures { result ≡ state_with left (found_at number place) }
{
    let found = Found { number, place };
    State {
        at: 510,
        left,
        found,
    }
}

// Where the steps start: a refused image has none; else there are two for each row, from the last to the first, and the first 60 is found behind all rows.
pub fn start(cells: &[u16]) -> State
    requires { length cells.now ≡ 2046 }
    ensures { result ≡ start_of cells.now }
{
    let refused = cells[REFUSED];
    if refused != 0 {
        return state_of(0, refused, 0);
    }
    let alias = cells[ALIAS];
    if alias == 0 {
        return state_of(1022, 0, 0);
    }
    state_of(1022, 60, alias)
}

// A row of the cells.
fn row_in(cells: &[u16], i: usize) -> Row
    requires { (length cells.now ≡ 2046) × (i < 511) }
    ensures { result ≡ row_in cells.now i }
{
    Row {
        name: cells[4 * i],
        place: cells[4 * i + 1],
        marks: cells[4 * i + 2],
        count: cells[4 * i + 3],
    }
}

// 61 or 62 at a row, or what was found behind it. A blank row has place 0.
fn judge_row(row: Row, found: Found) -> Found
    ensures { result ≡ judge_row row found }
{
    let place = row.place;
    if place == 0 {
        return found;
    }
    let times = usize::from(row.marks) + usize::from(row.count);
    if times == 0 {
        return Found { number: 61, place };
    }
    if 1 < times {
        return Found { number: 62, place };
    }
    found
}

// The row that the step behind one on row `at` takes: the one before it, or the last one again.
fn row_before(at: usize) -> usize
    ensures { result ≡ row_before at }
{
    if at == 0 {
        return 510;
    }
    at - 1
}

// The state behind a step.
fn next(c: State, found: Found) -> State
    requires { 0 < c.left }
    ensures { result ≡ next_of c found }
{
    let at = row_before(c.at);
    State {
        at,
        left: c.left - 1,
        found,
    }
}

// A row of noughts.
pub fn blank_row() -> Row
    ensures { result ≡ blank_row }
{
    Row {
        name: 0,
        place: 0,
        marks: 0,
        count: 0,
    }
}

// One step: a row is stored, or the one that stands there is judged and blanked.
pub fn advance(cells: &[u16], c: State, row: Row) -> Turn
    requires { (0 < c.left) × (c.at < 511) × (length cells.now ≡ 2046) }
    ensures { result ≡ step_of cells.now c row }
{
    let found = c.found;
    if 512 <= c.left {
        let row = row_in(cells, c.at);
        let state = next(c, found);
        return Turn { row, state };
    }
    let state = next(c, judge_row(row, found));
    let cleared = blank_row();
    Turn {
        row: cleared,
        state,
    }
}
