// The trial of a split on a matrix, by its fours that include one taxon: over all fours where a taxon is alone in its group, from the kept weights;
// else in separated form, given up at the first score that is not above zero. Document 01, "Growing and the allowance"; document 02 §3 and §7.
#![tactic(auto)]

ghost use Rattle.std.specs.Prelude.{ℕ, ◌+◌, ◌^◌, ◌≤◌, ◌<◌, min, ◌≡◌, ◌≢◌, get_or, length, IfSome};
ghost use Rattle.std.proofs.Math.IntN.{sub_ℕ};
ghost use Rattle.statement.specs.Growing.{above, pair_trial, matrix_trial};
ghost use Rattle.matrix.specs.Distances.{distances};
ghost use Rattle.neighbours.specs.Seen.{AllPulls};
ghost use Rattle.lone_weights.specs.Lone.{Kept};
ghost use Rattle.matrix_trial.specs.Separated.{Pairs, Paired, Partners};

use bits::{others, single};
use matrix::{Matrix, lowered_by};
use neighbours::Seen;

// The least score of ax|yz over the x that are a pair with a, raised by two million, by the reaches of y and of z.
fn pair(m: &Matrix, a: usize, y: usize, z: usize, ry: u32, rz: u32) -> u32
    requires { (a < m.now.n) × (y < m.now.n) × (z < m.now.n) × (ry ≤ 2000000) × (rz ≤ 2000000) }
    ensures { Pairs (distances m.now) a y z ry rz result }
{
    let ay_z = m.at(a, y) + rz;
    let az_y = m.at(a, z) + ry;
    ay_z.min(az_y) + 1000000 - m.at(z, y)
}

// The same, its least over the listed taxa y, each with its reach.
fn pairs(m: &Matrix, a: usize, z: usize, rz: u32, taxa: &[usize], reaches: &[u32]) -> u32
    requires within { (a < m.now.n) × (z < m.now.n) × (rz ≤ 2000000) × (length taxa.now ≡ length reaches.now) }
    requires by_index { (j : ℕ) → j < length taxa.now → (get_or taxa.now j 0 < m.now.n) × (get_or reaches.now j 0 ≤ 2000000) }
    ensures { Paired (distances m.now) a z rz taxa.now reaches.now (length taxa.now) result }
{
    let mut low = 4000000;
    for (y, ry) in taxa.iter().zip(reaches) {
        low = low.min(pair(m, a, *y, z, *ry, rz));
    }
    low
}

// How many of the listed taxa are tried with the one at i: those before it, and itself where it is alone.
fn partners(count: usize, i: usize) -> usize
    requires { i < 64 }
    ensures { Partners count i result }
{
    if count == 1 { i + 1 } else { i }
}

// The lesser of a weight and the least score of m fours, which is raised by two million.
fn lowered_over(best: u32, m: usize, low: u32) -> u32
    ensures { (m ≡ 0 → result ≡ best) × (m ≢ 0 → result ≡ min (above (sub_ℕ low 2000000)) best) }
{
    if m == 0 {
        best
    } else {
        lowered_by(best, low, 2000000)
    }
}

// A trial over the taxa of the other side: the scores of ax|yz for each z and the y listed before it (a lone z with itself), given up at the first
// that is not above zero. It stays a function by itself, as `listed_trial` does, for speed: drawn into their callers, their loops ran slower at every
// second place where a linker may put them.
#[inline(never)]
fn sweep(seen: &Seen, pull: &[u32; 64], w: u32) -> u32
    requires { AllPulls seen.now pull.now }
    ensures { result ≡ pair_trial (distances seen.now.matrix) seen.now.k seen.now.a seen.now.c w }
{
    let mut reaches = [0; 64];
    let mut best = w;
    for (i, z) in seen.others.iter().enumerate() {
        let rz = seen.reach(*z, pull);
        reaches[i] = rz;
        let m = partners(seen.others.len(), i);
        let low = pairs(
            &seen.matrix,
            seen.a,
            *z,
            rz,
            &seen.others[..m],
            &reaches[..m],
        );
        best = lowered_over(best, m, low);
        if best == 0 {
            return 0;
        }
    }
    best
}

// A trial of a split over its fours ax|yz that include a: 0 where some score is zero or below, else the least of w and the scores. Out of line for
// speed, as `sweep` is.
#[inline(never)]
fn listed_trial(seen: &Seen, near: usize, w: u32) -> u32
    requires { near < seen.now.k }
    ensures { result ≡ pair_trial (distances seen.now.matrix) seen.now.k seen.now.a seen.now.c w }
{
    if seen.fails_first(near) {
        return 0;
    }
    let pull = seen.pulls();
    if seen.fails_near(near, &pull) {
        return 0;
    }
    sweep(seen, &pull, w)
}

// The taxon that is the whole cluster c, of three taxa or more.
fn lone_of(k: usize, c: u64) -> Option<usize>
    requires { k ≤ 64 }
    ensures { IfSome result (λ v. (v < k) × (3 ≤ k) × (c ≡ 2 ^ v)) }
{
    let v = c.trailing_zeros() as usize;
    (k > 2 && v < k && c == single(v)).then_some(v)
}

// A trial: over all fours of the split where a taxon is alone in its group, which its kept weight tells; else over those that include a.
pub fn trial(m: &Matrix, k: usize, a: usize, near: usize, lone: &[u32; 64], c: u64, w: u32) -> u32
    requires { (k ≤ m.now.n) × (a < k) × (near < k) × Kept (distances m.now) k k lone.now }
    ensures { result ≡ matrix_trial (distances m.now) k a c w }
{
    if let Some(v) = lone_of(k, c) {
        return lone[v].min(w);
    }
    let mut taxa = [0; 64];
    let others = others(k, a, c, &mut taxa);
    if k > 2 && others.len() == 1 {
        return lone[others[0]].min(w);
    }
    let seen = Seen {
        matrix: *m,
        k,
        a,
        c,
        others,
    };
    listed_trial(&seen, near, w)
}
