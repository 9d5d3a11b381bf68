// The walk over a sentence's text: which taxa have been met, and the edges that are not dropped. One pass, fixed memory. Document 02, §2.
#![tactic(auto)]

ghost use Rattle.std.specs.Prelude.{◌≡◌, ◌+◌, ◌<◌, ◌≤◌, min, drop};
ghost use Rattle.statement.specs.Decimal.{on_from, span};
ghost use Rattle.numerals.specs.Numerals.{number_limit};
ghost use Rattle.newick_walk.specs.Machine.{walk_in, begun, passing, opening, closing, leafing, weighing};
ghost use Rattle.newick_walk.specs.Tokens.{Walks};

use newick_edges::{Met, Table, mask, side};
use newick_text::peek;
use numerals::read_number;

// Where the walk is: the brackets open, the taxa met before each of them was opened, the taxa below the edge whose weight comes next, the taxa met,
// and the table of the edges.
#[derive(Clone, Copy)]
pub struct Walk {
    pub at: usize,
    pub depth: usize,
    pub opened: [u64; 131],
    pub below: u64,
    pub met: Met,
    pub table: Table,
}

impl Walk {
    // Before a text: no brackets, no taxa, no edges.
    pub fn new() -> Walk
        ensures { walk_in result ≡ begun }
    {
        Walk {
            at: 0,
            depth: 0,
            opened: [0; 131],
            below: 0,
            met: Met {
                seen: 0,
                stray: None,
            },
            table: Table::new(),
        }
    }

    // A comma.
    fn pass(&mut self)
        requires { self.old.at < 18446744073709551615 }
        ensures { walk_in self.new ≡ passing (walk_in self.old) }
    {
        self.at += 1;
    }

    // A bracket opens.
    fn open(&mut self)
        requires { self.old.at < 18446744073709551615 }
        ensures { walk_in self.new ≡ opening (walk_in self.old) }
    {
        self.at += 1;
        if self.depth < 131 {
            self.opened[self.depth] = self.met.seen;
            self.depth += 1;
        }
    }

    // A bracket closes: the taxa met since it was opened are below the next edge.
    fn close(&mut self)
        requires { self.old.at < 18446744073709551615 }
        ensures { walk_in self.new ≡ closing (walk_in self.old) }
    {
        self.at += 1;
        if 0 < self.depth && self.depth <= 131 {
            self.depth -= 1;
            self.below = self.met.seen.saturating_sub(self.opened[self.depth]);
        }
    }

    // A leaf, with the place behind it.
    fn leaf(&mut self, n: usize, x: usize, next: usize)
        requires { n ≤ 64 }
        ensures { walk_in self.new ≡ leafing n (walk_in self.old) x next }
    {
        self.below = mask(n, self.met.seen, x);
        self.met.meet(n, self.at, x);
        self.at = next;
    }

    // A weight, with the place behind it.
    fn weigh(&mut self, n: usize, x: u32, next: usize)
        requires { (n ≤ 64) × (self.old.at < 18446744073709551615) }
        ensures { walk_in self.new ≡ weighing n (walk_in self.old) x next }
    {
        let below = side(n, self.below);
        self.table.enter(self.at + 1, below, x);
        self.at = next;
    }
}

// The number at a place in 32 bits, and the place behind it. One that is larger reads as the largest, which no taxon and no weight reaches.
fn number(t: &[u8], at: usize) -> (u32, usize)
    ensures { (result.0 ≡ min (on_from 0 (drop at t.now)) number_limit) × (result.1 ≡ at + span (drop at t.now)) }
{
    let x = read_number(t, at);
    (u32::try_from(x.value).unwrap_or(u32::MAX), x.behind)
}

// The walk over the tokens that a text begins with, from a start whose arrays, table and marks may be any.
pub fn walk_on(n: usize, t: &[u8], start: Walk) -> Walk
    requires { (n ≤ 64) × (start.at ≡ 0) × (start.depth ≡ 0) }
    ensures { Walks n t.now (walk_in start) (walk_in result) }
{
    let mut w = start;
    loop {
        match peek(t, w.at) {
            Some(b'(') => w.open(),
            Some(b')') => w.close(),
            Some(b',') => w.pass(),
            Some(b':') => {
                let (x, next) = number(t, w.at + 1);
                w.weigh(n, x, next);
            }
            Some(b'0'..=b'9') => {
                let (x, next) = number(t, w.at);
                w.leaf(n, x as usize, next);
            }
            _ => return w,
        }
    }
}

// The walk over the tokens that a text begins with.
pub fn walk_over(n: usize, t: &[u8]) -> Walk
    requires { n ≤ 64 }
    ensures { Walks n t.now begun (walk_in result) }
{
    walk_on(n, t, Walk::new())
}
