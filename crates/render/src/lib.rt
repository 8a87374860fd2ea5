// The report of document 01 as text, written into a lent buffer. What does not fit is not written; all of it is counted.
#![tactic(auto)]

ghost use Rattle.std.specs.Prelude.{◌≡◌, Ok, ◌+◌, ◌*◌, ◌<◌, ◌≤◌, ◌^◌, length};
ghost use Rattle.rules.specs.Sweep.{run};
ghost use Rattle.rules.specs.Answers.{list_answer};
ghost use Rattle.nodes.specs.Shown.{Admitted};
ghost use Rattle.typeck.specs.Face.{answer_of};
ghost use Rattle.lines.specs.Line.{Printed};
ghost use Rattle.render.specs.Report.{pass_line, list_lines, report_text, line_at, line_of};

use image::Image;
use passes::Offence;

// The line of a pass.
fn pass_line(name: &[u8], verdict: Option<Offence>, out: &mut [u8], at: usize) -> usize
    requires { (at < 2 ^ 50) × (length name.now < 2 ^ 10) }
    ensures { Printed out.old at (pass_line name.now (answer_of (Ok verdict))) out.new result × (result ≤ at + 2 ^ 11) }
{
    let k = lines::text(name, out, at);
    match verdict {
        None => lines::rest_four(0, 0, 0, 0, out, k),
        Some(offence) => lines::rest_four(
            usize::from(offence.code),
            usize::from(offence.place),
            offence.from as usize,
            offence.to as usize,
            out,
            k,
        ),
    }
}

// The line of a record.
fn record_line(
    image: &[u8],
    head: Image,
    code: usize,
    place: usize,
    related: usize,
    entry: usize,
    out: &mut [u8],
    at: usize,
) -> usize
    requires { Admitted image.now head × (at < 2 ^ 56) × (code < 65536) × (place < 65536) × (related < 65536) × (entry < 65536) }
    ensures { Printed out.old at (line_of image.now code place related entry) out.new result × (result ≤ at + 46) }
{
    let span = spans::of_place(image, head, place);
    let from = span.from;
    let to = span.to;
    let j = lines::decimal(code, 20, out, at);
    let k = lines::number(place, out, j);
    lines::rest_four(related, entry, from, to, out, k)
}

// The lines of the first `count` records of a list.
fn record_lines(
    image: &[u8],
    head: Image,
    words: &[u16],
    count: usize,
    out: &mut [u8],
    at: usize,
) -> usize
    requires { Admitted image.now head × (4 * count ≤ length words.now) × (length words.now ≤ 2 ^ 16) × (at < 2 ^ 52) }
    ensures { Printed out.old at (run (line_at image.now words.now) 0 count) out.new result × (result ≤ at + 46 * count) }
{
    let mut k = at;
    for i in 0..count {
        let code = usize::from(words[4 * i]);
        let place = usize::from(words[4 * i + 1]);
        let related = usize::from(words[4 * i + 2]);
        let entry = usize::from(words[4 * i + 3]);
        k = record_line(image, head, code, place, related, entry, out, k);
    }
    k
}

// The lines of the list.
fn list_lines(image: &[u8], head: Image, out: &mut [u8], at: usize) -> usize
    requires { Admitted image.now head × (at < 2 ^ 51) }
    ensures { Printed out.old at (list_lines image.now (list_answer image.now 32768)) out.new result × (result ≤ at + 437000) }
{
    let mut words = [0u16; 32768];
    match typeck::list(image, &mut words) {
        Err(unlisted) => {
            let k = lines::text(b"list refused", out, at);
            lines::rest_one(unlisted.number(), out, k)
        }
        Ok(count) => {
            let j = lines::text(b"list", out, at);
            let k = lines::rest_one(count, out, j);
            record_lines(image, head, &words, count, out, k)
        }
    }
}

// The report of an image; none is longer than 450,000 bytes.
pub fn render(image: &[u8], out: &mut [u8]) -> usize
    ensures printed { Printed out.old 0 (report_text image.now) out.new result }
    ensures upper_bound { result ≤ 450000 }
{
    match admission::admit(image) {
        Err(refusal) => {
            let k = lines::text(b"image", out, 0);
            lines::rest_one(refusal.number(), out, k)
        }
        Ok(head) => {
            let answers = passes::answer_all(image, head);
            let resolve = answers.resolve;
            let access = answers.access;
            let linear = answers.linear;
            let i = pass_line(b"resolve", resolve, out, 0);
            let j = pass_line(b"access", access, out, i);
            let k = pass_line(b"linear", linear, out, j);
            list_lines(image, head, out, k)
        }
    }
}
