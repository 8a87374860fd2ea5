// Bytes, numbers and the ends of lines, written into a lent buffer. What does not fit is not written; all of it is counted.
// Not `write!`: a writer over a lent buffer would end at the first byte that does not fit, and the rest would not be counted.
#![tactic(auto)]

ghost use Rattle.std.specs.Prelude.{◌≡◌, [], ◌∷◌, ◌+◌, ◌<◌, ◌≤◌, ◌^◌, length, set};
ghost use Rattle.lines.specs.Line.{digits, rest, Printed};

// One byte.
fn put(out: &mut [u8], at: usize, b: u8) -> usize
    requires { at < 2 ^ 60 }
    ensures { Printed out.old at (b ∷ []) out.new result × (result ≡ at + 1) }
{
    records::put(out, at, b);
    at + 1
}

// A digit as a byte.
fn digit(d: usize) -> u8
    requires { d < 10 }
    ensures { result ≡ 48 + d }
{
    48 + d as u8
}

// A number's digits, at most so many.
pub fn decimal(n: usize, most: usize, out: &mut [u8], at: usize) -> usize
    requires { at + most < 2 ^ 60 }
    ensures { Printed out.old at (digits most n) out.new result × (result ≤ at + most) }
{
    if most == 0 {
        return at;
    }
    if n < 10 {
        return put(out, at, digit(n));
    }
    let k = decimal(n / 10, most - 1, out, at);
    put(out, k, digit(n % 10))
}

// A space and a number.
pub fn number(n: usize, out: &mut [u8], at: usize) -> usize
    requires { at < 2 ^ 59 }
    ensures { Printed out.old at (32 ∷ digits 20 n) out.new result × (result ≤ at + 21) }
{
    let k = put(out, at, b' ');
    decimal(n, 20, out, k)
}

// The rest of a line: one number.
pub fn rest_one(n: usize, out: &mut [u8], at: usize) -> usize
    requires { at < 2 ^ 58 }
    ensures { Printed out.old at (rest (n ∷ [])) out.new result × (result ≤ at + 22) }
{
    let k = number(n, out, at);
    put(out, k, b'\n')
}

// The rest of a line: four numbers.
pub fn rest_four(a: usize, b: usize, c: usize, d: usize, out: &mut [u8], at: usize) -> usize
    requires { at < 2 ^ 57 }
    ensures { Printed out.old at (rest (a ∷ b ∷ c ∷ d ∷ [])) out.new result × (result ≤ at + 85) }
{
    let i = number(a, out, at);
    let j = number(b, out, i);
    let k = number(c, out, j);
    rest_one(d, out, k)
}

// Bytes as they stand.
pub fn text(t: &[u8], out: &mut [u8], at: usize) -> usize
    requires { at + length t.now < 2 ^ 60 }
    ensures { Printed out.old at t.now out.new result }
{
    let mut k = at;
    for b in t {
        k = put(out, k, *b);
    }
    k
}
