// Walks as iterators: the children of a node by a cursor, the items and the fields of a contract.
ghost use Rattle.std.specs.Prelude.{◌≡◌, ℕ, ◌+◌, ◌-◌, ◌<◌, MatchOption};
ghost use Rattle.std.specs.Iterator.{at_most};
ghost use Rattle.rules.specs.Tree.{state};
ghost use Rattle.nodes.specs.Chain.{Chain, Ended, Gave, Begun, Visited};
ghost use Rattle.nodes.specs.Walk.{onward};
ghost use Rattle.nodes.specs.Shown.{View, In, tree_of};
ghost use Rattle.nodes.specs.First.{Head, Until};

use crate::Cursor;

// Children one after another: the part of the node area that they stand in, and the cursor before those that are left.
#[derive(Drop)]
pub struct Children<'a> {
    pub nodes: &'a [u8],
    pub rest: Cursor,
    pub ghost chain: { Chain nodes.now rest.base rest.at rest.end },
}

impl<'a> Iterator for Children<'a> {
    type Item = usize;

    ghost next_gives = { λ s r t. (t.nodes.now ≡ s.nodes.now) × (t.rest.base ≡ s.rest.base) × (t.rest.end ≡ s.rest.end) × MatchOption r (Ended s.rest.at s.rest.end) (λ child. Gave s.nodes.now s.rest.base s.rest.at s.rest.end child t.rest.at) };

    ghost remaining = { λ s. at_most (s.rest.end - s.rest.at) };

    fn next(&mut self) -> Option<usize> {
        if self.rest.end <= self.rest.at {
            return None;
        }
        let step = self.rest.step(self.nodes);
        self.rest = step.rest;
        Some(step.child)
    }
}

impl<'a> Children<'a> {
    // The children of node a from node `from` on, which is past a.
    pub fn from(nodes: &'a [u8], base: usize, a: usize, from: usize) -> Children<'a>
        requires { View nodes.now base × In nodes.now base a × (a < from) }
        ensures { Begun nodes.now base from result.nodes.now result.rest.base result.rest.at × ((W : View nodes.now base) → result.rest.end ≡ (tree_of W).end a) }
    {
        let end = crate::end(nodes, base, a);
        Children {
            nodes,
            rest: Cursor {
                base,
                at: from,
                end,
            },
        }
    }

    // The children of node a.
    pub fn of(nodes: &'a [u8], base: usize, a: usize) -> Children<'a>
        requires { View nodes.now base × In nodes.now base a }
        ensures { Begun nodes.now base (a + 1) result.nodes.now result.rest.base result.rest.at × ((W : View nodes.now base) → result.rest.end ≡ (tree_of W).end a) }
    {
        Children::from(nodes, base, a, a + 1)
    }

    // The children of node a before node `to`, behind which none of a kind stands.
    pub fn until(nodes: &'a [u8], a: usize, to: usize) -> Children<'a>
        requires { (k : ℕ) × Until nodes.now 0 a to k }
        ensures { Begun nodes.now 0 (a + 1) result.nodes.now result.rest.base result.rest.at × (result.rest.end ≡ to) }
    {
        Children {
            nodes,
            rest: Cursor {
                base: 0,
                at: a + 1,
                end: to,
            },
        }
    }

    // The parameters and the clauses of an entry, whose first statement is `to`.
    pub fn heads(nodes: &'a [u8], entry: usize, to: usize) -> Children<'a>
        requires { Head nodes.now 0 entry to }
        ensures { Begun nodes.now 0 (entry + 1) result.nodes.now result.rest.base result.rest.at × (result.rest.end ≡ to) }
    {
        Children::until(nodes, entry, to)
    }

    // The nodes that a part shows, one after another: the statements of an item that is lent as its own part.
    pub fn all(nodes: &'a [u8], base: usize) -> Children<'a>
        requires { View nodes.now base }
        ensures { Begun nodes.now base base result.nodes.now result.rest.base result.rest.at × ((W : View nodes.now base) → result.rest.end ≡ W.upto) }
    {
        let end = base + nodes.len() / 16;
        Children {
            nodes,
            rest: Cursor {
                base,
                at: base,
                end,
            },
        }
    }
}

// The items and the fields of a contract that stand from `at` up to `to`: a walk that goes into a State, and past any other node.
#[derive(Drop)]
pub struct Declarations<'a> {
    pub nodes: &'a [u8],
    pub at: usize,
    pub to: usize,
    pub ghost chain: { Chain nodes.now 0 at to },
}

impl<'a> Iterator for Declarations<'a> {
    type Item = usize;

    ghost next_gives = { λ s r t. (t.nodes.now ≡ s.nodes.now) × (t.to ≡ s.to) × MatchOption r (Ended s.at s.to) (λ p. Visited s.nodes.now s.at s.to p t.at) };

    ghost remaining = { λ s. at_most (s.to - s.at) };

    fn next(&mut self) -> Option<usize> {
        if self.to <= self.at {
            return None;
        }
        let p = self.at;
        self.at = crate::next_declaration(self.nodes, 0, p);
        Some(p)
    }
}

impl<'a> Declarations<'a> {
    // All items and fields of the contract.
    pub fn of(nodes: &'a [u8]) -> Declarations<'a>
        requires { View nodes.now 0 × In nodes.now 0 0 }
        ensures { (result.nodes.now ≡ nodes.now) × (result.at ≡ 1) × ((W : View nodes.now 0) → result.to ≡ (tree_of W).end 0) }
    {
        let to = crate::end(nodes, 0, 0);
        Declarations { nodes, at: 1, to }
    }
}
