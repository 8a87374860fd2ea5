// The span words of a node of an admitted image: carried, never judged.
#![tactic(auto)]

ghost use Rattle.std.specs.Prelude.{◌≡◌, ◌<◌, ◌^◌};
ghost use Rattle.rules.specs.Answers.{span_from, span_to};
ghost use Rattle.nodes.specs.Shown.{Admitted};

use image::Image;

#[derive(Clone, Copy)]
pub struct Span {
    pub from: usize,
    pub to: usize,
}

// The two span words of the node at a place. Past the last node they are 0, as the definitions have it, so that no caller needs to show that its place is a node.
pub fn of_place(image: &[u8], head: Image, place: usize) -> Span
    requires { Admitted image.now head }
    ensures { (result.from ≡ span_from image.now place) × (result.to ≡ span_to image.now place) × (result.from < 2 ^ 32) × (result.to < 2 ^ 32) }
{
    let n = head.nodes;
    if n <= place {
        return Span { from: 0, to: 0 };
    }
    let end = head.names_at();
    let nodes = &image[Image::HEADER..end];
    let from = image::span_from(nodes, place);
    let to = image::span_to(nodes, place);
    Span { from, to }
}
