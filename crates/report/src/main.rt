// The report program: reads an image from standard input and prints the report of document 01.
// A read or a write that fails ends it: that is told on standard error, and the exit status is 1.
#![tactic(auto)]

ghost use Rattle.std.specs.Prelude.{◌≡◌, length};

use image::Image;
use std::io;
use std::process::ExitCode;

// No report is longer.
const TEXT: usize = 450000;

// One byte more than the longest image: input that fills it is too long.
const ROOM: usize = Image::LENGTH + 1;

// Zeros for a report. Whoever takes them knows their number and not each of them, which spares counting.
fn blank_text() -> [u8; TEXT]
    ensures { 450000 ≡ length result }
{
    [0; TEXT]
}

// Zeros for an image.
fn blank_room() -> [u8; ROOM]
    ensures { 51227 ≡ length result }
{
    [0; ROOM]
}

// Prints the report of an image: all of it, or the answer is why not.
fn report(rt: &impl Print, image: &[u8]) -> io::Result<()> {
    let mut text = blank_text();
    let n = render::render(image, &mut text);
    rt.write_all(&text[..n])
}

// Why there is no report, or not all of it.
fn failed(rt: &impl Eprint, stream: &str, error: io::Error) -> ExitCode {
    // Where standard error does not take this either, the exit status still says so.
    let _ = eprintln!(rt; "report: {stream}: {error}");
    ExitCode::FAILURE
}

fn main(rt: HostRuntime) -> ExitCode {
    let mut room = blank_room();
    match input::read_full(&mut rt.stdin(), &mut room) {
        Err(error) => failed(&rt, "standard input", error),
        Ok(n) => match report(&rt, &room[..n]) {
            Err(error) => failed(&rt, "standard output", error),
            Ok(()) => ExitCode::SUCCESS,
        },
    }
}
