// The kinds and their children: document 01's table, as the states that a row can be in and the step from one to the next.
#![tactic(auto)]

ghost use Rattle.std.specs.Prelude.{◌≡◌, ◌<◌};
ghost use Rattle.image.specs.Digits.{Leads, laid_below, next_states, next_state, kind_table, kind_facts};

// The families of kinds that the rows speak of. 23:
const NAME: usize = 1;
// 2, 3, 5, 7, 8, 9
const ITEM: usize = 2;
// 4
const FIELD_DECL: usize = 3;
// 6
const EVENT_PARAM: usize = 4;
// 24 to 28
const STATEMENT: usize = 5;
// 14 to 21
const CLAUSE: usize = 6;
// 10
const PARAM: usize = 7;
// 11
const TYPE: usize = 8;
// 12
const INT_LIT: usize = 9;
// 13
const M_OF_N: usize = 10;
// 22
const DURATION: usize = 11;
// 32 to 45
const EXPRESSION: usize = 12;
// 1
const CONTRACT: usize = 13;

// One number for each kind: its family, of which there are 16 numbers, plus the form of the text that it carries, plus the state that its row starts in.
// Not a struct of three fields: the definition `kind_table`, which the contracts speak of, is a list of these numbers, and a reader
// finds the table below equal to it by computation.
pub const TEXT: usize = 16;

pub const ROW: usize = 64;

const IDENTIFIER: usize = TEXT * 1;

const NUMBER: usize = TEXT * 2;

// The states of a row, by what may still come. In state 0 nothing fits, and in CHILDLESS nothing may come.
const NAME_ITEMS: usize = 1;

const ONE_NAME: usize = 2;

const NAME_TYPE_DEFAULT: usize = 3;

const NAME_EVENT_PARAMS: usize = 4;

const ONE_EXPRESSION: usize = 5;

const NAME_PARAMS_CLAUSES_STATEMENTS: usize = 6;

const NAME_TYPE_SIGNER: usize = 7;

const NAME_TYPE_ARGUMENTS: usize = 8;

const TWO_INT_LITS: usize = 9;

const PERIOD_EXPRESSION: usize = 10;

const NAME_EXPRESSION: usize = 11;

const NAME_EXPRESSIONS: usize = 12;

const TWO_EXPRESSIONS: usize = 13;

const EXPRESSION_NAME: usize = 14;

const EXPRESSION_ARGUMENTS: usize = 15;

const TYPE_DEFAULT: usize = 16;

const TYPE_SIGNER: usize = 17;

const ONE_INT_LIT: usize = 18;

// From this state on the row may end.
pub const MAY_END: usize = 19;

const FIELD_DECLS: usize = 19;

const CHILDLESS: usize = 20;

const STATEMENTS: usize = 21;

const NAMES: usize = 22;

const ITEMS: usize = 23;

const EVENT_PARAMS: usize = 24;

const PARAMS_CLAUSES_STATEMENTS: usize = 25;

const TYPE_ARGUMENTS: usize = 26;

const MAYBE_EXPRESSION: usize = 27;

const EXPRESSIONS: usize = 28;

const CLAUSES_STATEMENTS: usize = 29;

const SIGNER: usize = 30;

const STATES: usize = 31;

// For each state, the one after a child of each of 16 families. One array, as `next_states` of the definitions is one list.
pub type Nexts = [u8; TEXT * STATES];

// One number for each kind.
pub type Kinds = [usize; 46];

// The state of the contract, before its first child.
pub const START: usize = NAME_ITEMS;

const NO_KIND: usize = 0;

// Document 01's table of children, with the family and the text of each kind. It is copied into a local once for an image, and lent.
pub const KINDS: Kinds = [
    NO_KIND,
    // 1 Contract
    CONTRACT + ROW * NAME_ITEMS,
    // 2 Asset
    ITEM + ROW * ONE_NAME,
    // 3 State
    ITEM + ROW * FIELD_DECLS,
    // 4 FieldDecl
    FIELD_DECL + ROW * NAME_TYPE_DEFAULT,
    // 5 Event
    ITEM + ROW * NAME_EVENT_PARAMS,
    // 6 event parameter
    EVENT_PARAM + ROW * CHILDLESS,
    // 7 Genesis
    ITEM + ROW * STATEMENTS,
    // 8 Invariant
    ITEM + ROW * ONE_EXPRESSION,
    // 9 Entry
    ITEM + ROW * NAME_PARAMS_CLAUSES_STATEMENTS,
    // 10 Param
    PARAM + ROW * NAME_TYPE_SIGNER,
    // 11 Type
    TYPE + ROW * NAME_TYPE_ARGUMENTS,
    // 12 IntLit of a type
    INT_LIT + NUMBER + ROW * CHILDLESS,
    // 13 MofN
    M_OF_N + ROW * TWO_INT_LITS,
    // 14 Writes, 15 Reads
    CLAUSE + ROW * NAMES,
    CLAUSE + ROW * NAMES,
    // 16 Conserves, 17 Mints, 18 Burns
    CLAUSE + ROW * ONE_NAME,
    CLAUSE + ROW * ONE_NAME,
    CLAUSE + ROW * ONE_NAME,
    // 19 Limits, 20 Denies
    CLAUSE + ROW * ONE_EXPRESSION,
    CLAUSE + ROW * ONE_EXPRESSION,
    // 21 After
    CLAUSE + ROW * PERIOD_EXPRESSION,
    // 22 Duration, 23 Name
    DURATION + ROW * CHILDLESS,
    NAME + IDENTIFIER + ROW * CHILDLESS,
    // 24 Guard
    STATEMENT + ROW * ONE_EXPRESSION,
    // 25 Let
    STATEMENT + ROW * NAME_EXPRESSION,
    // 26 Emit
    STATEMENT + ROW * NAME_EXPRESSIONS,
    // 27 Assign
    STATEMENT + ROW * TWO_EXPRESSIONS,
    // 28 Stmt::Expr
    STATEMENT + ROW * ONE_EXPRESSION,
    // 29 to 31 are no kinds
    NO_KIND,
    NO_KIND,
    NO_KIND,
    // 32 Int, 33 Date, 34 Str, 35 Ident
    EXPRESSION + ROW * CHILDLESS,
    EXPRESSION + ROW * CHILDLESS,
    EXPRESSION + ROW * CHILDLESS,
    EXPRESSION + IDENTIFIER + ROW * CHILDLESS,
    // 36 Caller, 37 Native, 38 InAsset, 39 Now
    EXPRESSION + ROW * CHILDLESS,
    EXPRESSION + ROW * CHILDLESS,
    EXPRESSION + ROW * CHILDLESS,
    EXPRESSION + ROW * CHILDLESS,
    // 40 Unary
    EXPRESSION + ROW * ONE_EXPRESSION,
    // 41 Binary
    EXPRESSION + ROW * TWO_EXPRESSIONS,
    // 42 Field
    EXPRESSION + ROW * EXPRESSION_NAME,
    // 43 Call
    EXPRESSION + ROW * EXPRESSION_ARGUMENTS,
    // 44 Checked, 45 Wrapping
    EXPRESSION + ROW * ONE_EXPRESSION,
    EXPRESSION + ROW * ONE_EXPRESSION,
];

// A child of family f leads from state s to another.
fn leads(t: &mut Nexts, s: usize, f: usize, to: usize)
    requires { (s < 31) × (f < 16) × (to < 31) }
    ensures { Leads t.old t.new s f to }
{
    t[TEXT * s + f] = to as u8;
}

// Declarations: the rows of kinds 1 to 8.
fn declarations(t: &mut Nexts)
    requires { t.old ≡ laid_below 1 }
    ensures { t.new ≡ laid_below 9 }
{
    leads(t, NAME_ITEMS, NAME, ITEMS);
    leads(t, ITEMS, ITEM, ITEMS);
    leads(t, ONE_NAME, NAME, CHILDLESS);
    leads(t, FIELD_DECLS, FIELD_DECL, FIELD_DECLS);
    leads(t, NAME_TYPE_DEFAULT, NAME, TYPE_DEFAULT);
    leads(t, TYPE_DEFAULT, TYPE, MAYBE_EXPRESSION);
    leads(t, MAYBE_EXPRESSION, EXPRESSION, CHILDLESS);
    leads(t, NAME_EVENT_PARAMS, NAME, EVENT_PARAMS);
    leads(t, EVENT_PARAMS, EVENT_PARAM, EVENT_PARAMS);
    leads(t, STATEMENTS, STATEMENT, STATEMENTS);
    leads(t, ONE_EXPRESSION, EXPRESSION, CHILDLESS);
}

// Entries and their parameters, 9 and 10.
fn entries(t: &mut Nexts)
    requires { t.old ≡ laid_below 9 }
    ensures { t.new ≡ laid_below 11 }
{
    leads(
        t,
        NAME_PARAMS_CLAUSES_STATEMENTS,
        NAME,
        PARAMS_CLAUSES_STATEMENTS,
    );
    leads(
        t,
        PARAMS_CLAUSES_STATEMENTS,
        PARAM,
        PARAMS_CLAUSES_STATEMENTS,
    );
    leads(t, PARAMS_CLAUSES_STATEMENTS, CLAUSE, CLAUSES_STATEMENTS);
    leads(t, PARAMS_CLAUSES_STATEMENTS, STATEMENT, STATEMENTS);
    leads(t, CLAUSES_STATEMENTS, CLAUSE, CLAUSES_STATEMENTS);
    leads(t, CLAUSES_STATEMENTS, STATEMENT, STATEMENTS);
    leads(t, NAME_TYPE_SIGNER, NAME, TYPE_SIGNER);
    leads(t, TYPE_SIGNER, TYPE, SIGNER);
    leads(t, SIGNER, NAME, CHILDLESS);
}

// Types and their arguments, 11 to 13.
fn types(t: &mut Nexts)
    requires { t.old ≡ laid_below 11 }
    ensures { t.new ≡ laid_below 14 }
{
    leads(t, NAME_TYPE_ARGUMENTS, NAME, TYPE_ARGUMENTS);
    leads(t, TYPE_ARGUMENTS, TYPE, TYPE_ARGUMENTS);
    leads(t, TYPE_ARGUMENTS, INT_LIT, TYPE_ARGUMENTS);
    leads(t, TYPE_ARGUMENTS, M_OF_N, TYPE_ARGUMENTS);
    leads(t, TWO_INT_LITS, INT_LIT, ONE_INT_LIT);
    leads(t, ONE_INT_LIT, INT_LIT, CHILDLESS);
}

// Clauses, statements and expressions, 14 to 45.
fn bodies(t: &mut Nexts)
    requires { t.old ≡ laid_below 14 }
    ensures { t.new ≡ laid_below 46 }
{
    leads(t, NAMES, NAME, NAMES);
    leads(t, PERIOD_EXPRESSION, DURATION, MAYBE_EXPRESSION);
    leads(t, PERIOD_EXPRESSION, EXPRESSION, MAYBE_EXPRESSION);
    leads(t, NAME_EXPRESSION, NAME, ONE_EXPRESSION);
    leads(t, NAME_EXPRESSIONS, NAME, EXPRESSIONS);
    leads(t, EXPRESSIONS, EXPRESSION, EXPRESSIONS);
    leads(t, TWO_EXPRESSIONS, EXPRESSION, ONE_EXPRESSION);
    leads(t, EXPRESSION_NAME, EXPRESSION, ONE_NAME);
    leads(t, EXPRESSION_ARGUMENTS, EXPRESSION, EXPRESSIONS);
}

// For each state, the one after a child of each family, 0 to 15; a family that does not fit leads to 0. It is made once for an image, and lent.
pub fn transitions() -> Nexts
    ensures { result ≡ next_states }
{
    let mut t = [0u8; TEXT * STATES];
    declarations(&mut t);
    entries(&mut t);
    types(&mut t);
    bodies(&mut t);
    t
}

// What the table holds of kind k.
pub fn facts(kinds: &Kinds, k: usize) -> usize
    requires { kinds.now ≡ kind_table }
    ensures { result ≡ kind_facts k }
{
    if k < 46 { kinds[k] } else { NO_KIND }
}

// The state of a row after one more child, of family f.
pub fn next(nexts: &Nexts, s: usize, f: usize) -> usize
    requires { (s < 31) × (f < 16) × (nexts.now ≡ next_states) }
    ensures { (result ≡ next_state s f) × (result < 31) }
{
    usize::from(nexts[TEXT * s + f])
}
