// Small pseudo-random inputs for tests: matrices of up to 7 taxa in five shapes, and tables made from such matrices by the four-point rule
// or of random bytes.
#![tactic(auto)]

ghost use Rattle.std.specs.Prelude.{◌≡◌, ◌*◌, ◌<◌, ◌≤◌, length};

// How a matrix's distances are drawn.
#[derive(Clone, Copy, PartialEq, Eq, Debug)]
pub enum Shape {
    // Few values and so many ties.
    Ties,
    // Many values.
    Values,
    TreeLike,
    // Tree-like, with duplicates in twos.
    Duplicates,
    // The triangle rule is broken.
    Broken,
}

impl Shape {
    // The shapes in turn.
    pub fn turn(i: u64) -> Shape {
        match i % 5 {
            0 => Shape::Ties,
            1 => Shape::Values,
            2 => Shape::TreeLike,
            3 => Shape::Duplicates,
            _ => Shape::Broken,
        }
    }
}

// A matrix of n taxa: its first n * n entries, row by row.
#[derive(Clone, Copy)]
pub struct Matrix {
    pub n: usize,
    d: [u32; 49],
    ghost few: { n ≤ 7 },
}

// A table of n taxa: its first C(n,4) bytes.
#[derive(Clone, Copy)]
pub struct Table {
    pub n: usize,
    fours: [u8; 35],
    ghost few: { n ≤ 7 },
}

// The next number of a sequence that looks random, below 2,147,483,647.
fn next(seed: u64) -> u64
    ensures { result < 2147483647 }
{
    seed % 2147483647 * 48271 % 2147483647
}

// A number drawn for the taxa i and j.
fn drawn(seed: u64, i: usize, j: usize) -> u64
    requires { (i < 16) × (j < 16) }
    ensures { result < 2147483647 }
{
    next(next(next(seed) + 16 * (i as u64) + (j as u64)))
}

// A tree-like distance: taxon i hangs on a stem from a place on a line.
fn tree_like(seed: u64, i: usize, j: usize) -> u64
    requires { (i < 7) × (j < 7) }
    ensures { result < 100 }
{
    let p = drawn(seed, i, 8) % 40;
    let q = drawn(seed, j, 8) % 40;
    p.abs_diff(q) + drawn(seed, i, 9) % 9 + drawn(seed, j, 9) % 9
}

// The distance of two taxa, by shape.
fn distance_of(shape: Shape, seed: u64, i: usize, j: usize) -> u64
    requires { (i < 7) × (j < 7) }
    ensures { result ≤ 1000000 }
{
    match shape {
        Shape::Ties => drawn(seed, i, j) % 4,
        Shape::Values => drawn(seed, i, j) % 1000,
        Shape::TreeLike => tree_like(seed, i, j),
        Shape::Duplicates if i / 2 == j / 2 => 0,
        Shape::Duplicates => tree_like(seed, i / 2, j / 2),
        Shape::Broken if drawn(seed, i, j) % 4 == 0 => 1000000,
        Shape::Broken => drawn(seed, j, i) % 10,
    }
}

impl Matrix {
    // A matrix of this shape.
    pub fn drawn(shape: Shape, n: usize, seed: u64) -> Matrix
        requires { n ≤ 7 }
        ensures { result.n ≡ n }
    {
        let mut d = [0; 49];
        for i in 0..n {
            for j in 0..i {
                let v = distance_of(shape, seed, i, j) as u32;
                d[i * n + j] = v;
                d[j * n + i] = v;
            }
        }
        Matrix { n, d }
    }

    // Its entries.
    pub fn entries(&self) -> &[u32]
        ensures { length result.now ≡ self.now.n * self.now.n }
    {
        &self.d[..self.n * self.n]
    }

    // The distance of two taxa.
    pub fn distance(&self, i: usize, j: usize) -> u32
        requires { (i < self.now.n) × (j < self.now.n) }
    {
        self.d[i * self.n + j]
    }

    // The sum of two distances.
    fn sum(&self, i: usize, j: usize, k: usize, l: usize) -> u64
        requires { (i < self.now.n) × (j < self.now.n) × (k < self.now.n) × (l < self.now.n) }
    {
        u64::from(self.distance(i, j)) + u64::from(self.distance(k, l))
    }

    // What the four-point rule says of a<b<x<y: the pairing with the strictly least sum, 0 where two tie.
    fn resolved(&self, a: usize, b: usize, x: usize, y: usize) -> u8
        requires { (a < self.now.n) × (b < self.now.n) × (x < self.now.n) × (y < self.now.n) }
    {
        let first = self.sum(a, b, x, y);
        let second = self.sum(a, x, b, y);
        let third = self.sum(a, y, b, x);
        if first < second && first < third {
            1
        } else if second < first && second < third {
            2
        } else if third < first && third < second {
            3
        } else {
            0
        }
    }
}

impl Table {
    // The table of a matrix, by the four-point rule. Fours come in the order of their places.
    pub fn of(m: &Matrix) -> Table
        ensures { result.n ≡ m.now.n }
    {
        let mut fours = [0; 35];
        let mut places = fours.iter_mut();
        for y in 0..m.n {
            for x in 0..y {
                for b in 0..x {
                    for a in 0..b {
                        if let Some(byte) = places.next() {
                            *byte = m.resolved(a, b, x, y);
                        }
                    }
                }
            }
        }
        Table { n: m.n, fours }
    }

    // A table of bytes drawn from 0 to 3.
    pub fn drawn(n: usize, seed: u64) -> Table
        requires { n ≤ 7 }
        ensures { result.n ≡ n }
    {
        let mut fours = [0; 35];
        for (p, byte) in fours.iter_mut().enumerate() {
            *byte = (drawn(seed, p / 6, p % 6) % 4) as u8;
        }
        Table { n, fours }
    }

    // Its bytes.
    pub fn bytes(&self) -> &[u8] {
        let count = match self.n {
            4 => 1,
            5 => 5,
            6 => 15,
            7 => 35,
            _ => 0,
        };
        &self.fours[..count]
    }
}
