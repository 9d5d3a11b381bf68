// Taxa met in a sentence's text, the side of an edge without taxon 0, and the table of the edges that are not dropped, each cluster once.
// Document 02, §2.
#![tactic(auto)]

ghost use Rattle.std.specs.Prelude.{◌≡◌, ◌-◌, ◌^◌, ◌≤◌};
ghost use Rattle.newick_edges.specs.Marks.{fresh as fresh·of, meet as meet·of, mask_of, side as side·of};

use bits::single;

mod kept;

// The taxa met so far, and the place of the first leaf whose taxon was met before or is not below n.
#[derive(Clone, Copy)]
pub struct Met {
    pub seen: u64,
    pub stray: Option<usize>,
}

// The edges so far: the places of the first that is too heavy and of the first with an empty cluster, and the other clusters. Each of these has
// one row, with its first edge's weight and place, and whether another edge had it.
#[derive(Clone, Copy)]
pub struct Table {
    pub heavy: Option<usize>,
    pub bare: Option<usize>,
    pub rows: usize,
    pub clusters: [u64; 125],
    pub weights: [u32; 125],
    pub places: [usize; 125],
    pub many: [bool; 125],
    pub ghost room: { rows ≤ 125 },
}

// The taxon x is below n and not met.
fn fresh(n: usize, seen: u64, x: usize) -> bool
    requires { n ≤ 64 }
    ensures { result ≡ fresh·of n seen x }
{
    x < n && (seen >> x) % 2 == 0
}

// The taxon alone, where it is below n and not met.
pub fn mask(n: usize, seen: u64, x: usize) -> u64
    requires { n ≤ 64 }
    ensures { result ≡ mask_of n seen x }
{
    if fresh(n, seen, x) { single(x) } else { 0 }
}

// All n taxa.
pub fn full(n: usize) -> u64
    requires { n ≤ 64 }
    ensures { result ≡ 2 ^ n - 1 }
{
    if n == 64 { u64::MAX } else { single(n) - 1 }
}

// The side of an edge without taxon 0.
pub fn side(n: usize, below: u64) -> u64
    requires { n ≤ 64 }
    ensures { result ≡ side·of n below }
{
    if below % 2 == 0 {
        below
    } else {
        full(n).saturating_sub(below)
    }
}

impl Met {
    // A leaf, with the taxon x.
    pub fn meet(&mut self, n: usize, place: usize, x: usize)
        requires { n ≤ 64 }
        ensures { self.new ≡ meet·of n self.old place x }
    {
        if fresh(n, self.seen, x) {
            self.seen += single(x);
        } else {
            self.stray = self.stray.or(Some(place));
        }
    }
}
