// The nearest neighbour of a taxon, and the fours of a split that hold it: a look whether one of them ends a trial.
// Document 02 §3 and §7.
#![tactic(auto)]

ghost use Rattle.std.specs.Prelude.{◌+◌, ◌≤◌, ◌<◌, ◌≡◌, ◌≢◌, true, false, length, IfSome};
ghost use Rattle.statement.specs.Growing.{alone};
ghost use Rattle.bits.specs.Members.{Members};
ghost use Rattle.matrix.specs.Distances.{distances};
ghost use Rattle.neighbours.specs.Reach.{Own, Pull, Pulls, Reach};
ghost use Rattle.neighbours.specs.Near.{Nearest};

use bits::{beside, is_alone, is_pair, same_side, side_of};
use matrix::{Matrix, less, supports};

// The nearest neighbour of the taxon k among the earlier ones.
pub fn nearest(m: &Matrix, k: usize) -> usize
    requires { (0 < k) × (k < m.now.n) }
    ensures { Nearest (distances m.now) k k result }
{
    let mut near = 0;
    for i in 1..k {
        if m.at(k, i) < m.at(k, near) {
            near = i;
        }
    }
    near
}

// Whether a, x is a pair that a's group gives, where `single` says whether a is alone there.
fn is_own(k: usize, a: usize, c: u64, single: bool, x: usize) -> bool
    requires { (k ≤ 64) × (a < 64) × (x < 64) × (single ≡ alone k c a) }
    ensures { (result ≡ true → Own k a c x) × (result ≡ false → Own k a c x → ⊥) }
{
    same_side(c, a, x) && is_pair(single, a, x)
}

// A million less ax where a, x is a pair of its group; three million, which no least comes to, where it is not.
fn pull(m: &Matrix, k: usize, a: usize, c: u64, single: bool, x: usize) -> u32
    requires { (k ≤ m.now.n) × (a < m.now.n) × (x < m.now.n) × (single ≡ alone k c a) }
    ensures { Pull (distances m.now) k a c x result }
{
    let ax = m.at(a, x);
    if is_own(k, a, c, single, x) {
        1000000 - ax
    } else {
        3000000
    }
}

// The same for each of the first k taxa.
pub fn pulls(m: &Matrix, k: usize, a: usize, c: u64, single: bool) -> [u32; 64]
    requires { (k ≤ m.now.n) × (a < m.now.n) × (single ≡ alone k c a) }
    ensures { Pulls (distances m.now) k k a c result }
{
    let mut all = [0; 64];
    for x in 0..k {
        all[x] = pull(m, k, a, c, single, x);
    }
    all
}

// The least of xz less ax over the x that are a pair with a, raised by a million.
pub fn reach(m: &Matrix, k: usize, a: usize, c: u64, z: usize, pull: &[u32; 64]) -> u32
    requires { (k ≤ m.now.n) × (z < m.now.n) × Pulls (distances m.now) k k a c pull.now }
    ensures { Reach (distances m.now) k k a c z result }
{
    let mut low = 2000000;
    for (xz, p) in m.row(z)[..k].iter().zip(pull) {
        low = low.min(xz + p);
    }
    low
}

// A split c of the first k taxa of a matrix, as it is seen from taxon a, with the taxa of the other side, ascending.
#[derive(Clone, Copy)]
pub struct Seen<'a> {
    pub matrix: Matrix<'a>,
    pub k: usize,
    pub a: usize,
    pub c: u64,
    pub others: &'a [usize],
    pub ghost few: { k ≤ matrix.n },
    pub ghost within: { a < k },
    pub ghost all: { ∥ Members k a c others.now (length others.now) ∥₁ },
}

impl<'a> Seen<'a> {
    ghost use Rattle.neighbours.specs.Seen.{IsOwn, IsOther, AreOthers, SomeFails, AllPulls, Reaches};

    // What each of the first k taxa pulls.
    pub fn pulls(&self) -> [u32; 64]
        ensures { AllPulls self.now result }
    {
        let single = is_alone(self.k, self.c, self.a);
        pulls(&self.matrix, self.k, self.a, self.c, single)
    }

    // The reach of z by these pulls.
    pub fn reach(&self, z: usize, pull: &[u32; 64]) -> u32
        requires { (z < self.now.matrix.n) × AllPulls self.now pull.now }
        ensures { Reaches self.now z result }
    {
        reach(&self.matrix, self.k, self.a, self.c, z, pull)
    }

    // Another taxon of a's group, if there is one below a.
    fn companion(&self) -> Option<usize>
        ensures { IfSome result (λ x. (x < self.now.k) × IsOwn self.now x) }
    {
        let x = side_of(self.a, self.c).trailing_zeros() as usize;
        (x < self.k && beside(self.c, self.a, x)).then_some(x)
    }

    // Whether the four ax|yz is not supported, for different y and z.
    fn fails_four(&self, x: usize, y: usize, z: usize) -> bool
        requires { (x < self.now.k) × IsOwn self.now x × IsOther self.now y × IsOther self.now z }
        ensures { result ≡ true → SomeFails self.now }
    {
        let score = self.matrix.score(self.a, x, y, z);
        y != z && !supports(score)
    }

    // Whether such a four with this x and y, and z of these taxa, is not supported.
    fn fails_with_xy(&self, x: usize, y: usize, zs: &[usize]) -> bool
        requires { (x < self.now.k) × IsOwn self.now x × IsOther self.now y × AreOthers self.now zs.now }
        ensures { result ≡ true → SomeFails self.now }
    {
        let seen = *self;
        zs.iter().any(|z| seen.fails_four(x, y, *z))
    }

    // A first look, at fours that hold the nearest neighbour, on the other side, and one more taxon of a's group: whether one of them is not supported.
    pub fn fails_first(&self, near: usize) -> bool
        requires { near < self.now.k }
        ensures { result ≡ true → SomeFails self.now }
    {
        if same_side(self.c, self.a, near) {
            return false;
        }
        match self.companion() {
            Some(x) => self.fails_with_xy(x, near, self.others),
            None => false,
        }
    }

    // Whether a four ax|yz with this x, and y and z two of the other side, is not supported.
    fn fails_with_x(&self, x: usize) -> bool
        requires { (x < self.now.k) × IsOwn self.now x }
        ensures { result ≡ true → SomeFails self.now }
    {
        (0..self.others.len()).any(|i| self.fails_with_xy(x, self.others[i], &self.others[..i]))
    }

    // Whether a four ax|yz with these different y and z is not supported by the half of its score that z reaches.
    fn fails_with_yz(&self, y: usize, z: usize, rz: u32) -> bool
        requires { IsOther self.now y × IsOther self.now z × Reaches self.now z rz }
        ensures { result ≡ true → SomeFails self.now }
    {
        let ay_z = self.matrix.at(self.a, y) + rz;
        let zy = 1000000 + self.matrix.at(z, y);
        y != z && !supports(less(ay_z, zy))
    }

    // Whether a four ax|yz with this z, and y another of the other side, is not supported by the half of its score that z reaches.
    fn fails_with_z(&self, z: usize, pull: &[u32; 64]) -> bool
        requires { IsOther self.now z × AllPulls self.now pull.now }
        ensures { result ≡ true → SomeFails self.now }
    {
        let rz = self.reach(z, pull);
        let seen = *self;
        seen.others.iter().any(|y| seen.fails_with_yz(*y, z, rz))
    }

    // A look at the fours that hold the nearest neighbour: whether one of them is not supported.
    pub fn fails_near(&self, near: usize, pull: &[u32; 64]) -> bool
        requires { (near < self.now.k) × AllPulls self.now pull.now }
        ensures { result ≡ true → SomeFails self.now }
    {
        if near == self.a {
            return false;
        }
        if same_side(self.c, self.a, near) {
            self.fails_with_x(near)
        } else {
            self.fails_with_z(near, pull)
        }
    }
}
