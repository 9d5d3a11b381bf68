// The weights of the splits of one taxon by itself, kept from taxon to taxon within a call: worked out once, then lowered by each newcomer's fours.
// Document 02 §3 and §7.
#![tactic(auto)]

ghost use Rattle.std.specs.Prelude.{◌+◌, ◌≤◌, ◌<◌, ◌≡◌, length};
ghost use Rattle.statement.specs.Matrix.{weight_limit};
ghost use Rattle.matrix.specs.Distances.{distances};
ghost use Rattle.lone_weights.specs.Lone.{Lone, Kept};
ghost use Rattle.lone_weights.specs.Lowering.{Term, Row, Lowered};

use matrix::{Matrix, lowered_by};

// vy less zy, raised by a million; three million, which no least comes to, where y is v.
fn term(m: &Matrix, v: usize, z: usize, y: usize) -> u32
    requires { (v < m.now.n) × (z < m.now.n) × (y < m.now.n) }
    ensures { Term (distances m.now) v z y result }
{
    let vy = m.at(v, y);
    let zy = m.at(z, y);
    if y == v { 3000000 } else { vy + 1000000 - zy }
}

// The least of these over the first `count` taxa y.
fn row(m: &Matrix, v: usize, z: usize, count: usize) -> u32
    requires { (v < m.now.n) × (z < m.now.n) × (count ≤ m.now.n) }
    ensures { Row (distances m.now) v z count result }
{
    let mut low = 3000000;
    for y in 0..count {
        low = low.min(term(m, v, z, y));
    }
    low
}

// A weight lowered by the scores of vv|yz over the first `count` taxa y but v. Once it is 0 it stays so.
fn lower(m: &Matrix, v: usize, z: usize, count: usize, best: u32) -> u32
    requires { (v < m.now.n) × (z < m.now.n) × (count ≤ m.now.n) × (best ≤ weight_limit) }
    ensures { Lowered (distances m.now) v z count best result }
{
    if best == 0 {
        return 0;
    }
    lowered_by(best, row(m, v, z, count) + m.at(v, z), 1000000)
}

// The weight of the taxon j by itself among the first j and it: each two of them once.
fn newcomer(m: &Matrix, j: usize) -> u32
    requires { j < m.now.n }
    ensures { Lone (distances m.now) (j + 1) j result }
{
    let mut best = 2000000;
    for z in 0..j {
        best = lower(m, j, z, z, best);
    }
    best
}

// The kept weights of the first j taxa, with the taxon j taken in.
fn take_in(m: &Matrix, j: usize, lone: &mut [u32; 64])
    requires { (j < m.now.n) × Kept (distances m.now) j j lone.old }
    ensures { (length lone.new ≡ 64) × Kept (distances m.now) (j + 1) (j + 1) lone.new }
{
    for v in 0..j {
        lone[v] = lower(m, v, j, j, lone[v]);
    }
    lone[j] = newcomer(m, j);
}

// The kept weights of the first `from` taxa, with those up to k taken in.
pub fn prepare(m: &Matrix, from: usize, k: usize, lone: &mut [u32; 64])
    requires { (from ≤ k) × (k < m.now.n) × Kept (distances m.now) from from lone.old }
    ensures { (length lone.new ≡ 64) × Kept (distances m.now) (k + 1) (k + 1) lone.new }
{
    for j in from..=k {
        take_in(m, j, lone);
    }
}
