// Brute force from the definitions, for tests: every split of up to 7 taxa and every four of it, sharing no code with growth; the full answer, and one
// taxon more of a list from elsewhere (document 02 §7).
#![tactic(auto)]

ghost use Rattle.std.specs.Prelude.{◌≡◌, ◌≤ℤ◌, true, pos, ◌<◌, ◌≤◌};

use samples::{Matrix, Table};
use statement::Splits;

// Whether taxon i is in the group c.
fn inside(c: u64, i: usize) -> bool
    requires { i < 7 }
{
    (c >> i) % 2 == 1
}

// The sum of two distances.
fn sum(m: &Matrix, i: usize, j: usize, k: usize, l: usize) -> i64
    requires { (i < m.now.n) × (j < m.now.n) × (k < m.now.n) × (l < m.now.n) }
    ensures { (pos 0 ≤ℤ result) × (result ≤ℤ pos 8589934590) }
{
    i64::from(m.distance(i, j)) + i64::from(m.distance(k, l))
}

// The score of wx|yz.
fn score(m: &Matrix, w: usize, x: usize, y: usize, z: usize) -> i64
    requires { (w < m.now.n) × (x < m.now.n) × (y < m.now.n) × (z < m.now.n) }
{
    sum(m, w, y, x, z).min(sum(m, w, z, x, y)) - sum(m, w, x, y, z)
}

// Whether u has company: another of the n taxa is in its group, in the split c.
fn company(n: usize, c: u64, u: usize) -> bool
    requires { (n ≤ 7) × (u < 7) }
{
    (0..n).any(|i| i != u && inside(c, i) == inside(c, u))
}

// Whether the split c of n taxa is trivial: some taxon has no company.
fn trivial(n: usize, c: u64) -> bool
    requires { n ≤ 7 }
{
    (0..n).any(|i| !company(n, c, i))
}

// Whether uu'|vv' is a four of the split c of n taxa, u and u' outside the cluster and v and v' in it; a taxon is taken twice only where it has no
// company.
fn is_four(n: usize, c: u64, u: usize, u2: usize, v: usize, v2: usize) -> bool
    requires { (n ≤ 7) × (u < 7) × (u2 < 7) × (v < 7) × (v2 < 7) }
{
    !inside(c, u)
        && !inside(c, u2)
        && inside(c, v)
        && inside(c, v2)
        && (u != u2 || !company(n, c, u))
        && (v != v2 || !company(n, c, v))
}

// The least of `start` and the scores of the split c over its fours, over those that hold a taxon where one is given; 0 where it is below.
fn weight_by(m: &Matrix, c: u64, held: Option<usize>, start: i64) -> u64 {
    let mut least = start;
    for u in 0..m.n {
        for u2 in 0..m.n {
            for v in 0..m.n {
                for v2 in 0..m.n {
                    let counts = match held {
                        Some(t) => [u, u2, v, v2].contains(&t),
                        None => true,
                    };
                    if counts && is_four(m.n, c, u, u2, v, v2) {
                        least = least.min(score(m, u, u2, v, v2));
                    }
                }
            }
        }
    }
    u64::try_from(least).unwrap_or(0)
}

// Whether the four a<b<x<d of a split, of which the table says `byte`, is parted by the split as the table says or not by two and two.
fn agrees(c: u64, a: usize, b: usize, x: usize, d: usize, byte: u8) -> bool
    requires { (a < 7) × (b < 7) × (x < 7) × (d < 7) }
{
    let first = inside(c, a);
    match (
        inside(c, b) == first,
        inside(c, x) == first,
        inside(c, d) == first,
    ) {
        (true, false, false) => byte == 1,
        (false, true, false) => byte == 2,
        (false, false, true) => byte == 3,
        _ => true,
    }
}

// Whether every four of the split c that is parted by two and two stands in the table so.
fn table_supports(t: &Table, c: u64) -> bool {
    let mut bytes = t.bytes().iter();
    for d in 0..t.n {
        for x in 0..d {
            for b in 0..x {
                for a in 0..b {
                    if let Some(byte) = bytes.next() {
                        if !agrees(c, a, b, x, d, *byte) {
                            return false;
                        }
                    }
                }
            }
        }
    }
    true
}

// The weight of the split c by a matrix, over all its fours; 0 where it is not supported or goes beyond the taxa.
pub fn matrix_weight(m: &Matrix, c: u64) -> u64 {
    if c >> m.n != 0 {
        0
    } else {
        weight_by(m, c, None, i64::MAX)
    }
}

// The weight of the split c by a table: 1 where it is supported and does not go beyond the taxa.
pub fn table_weight(t: &Table, c: u64) -> u64 {
    u64::from(c >> t.n == 0 && table_supports(t, c))
}

// The weight that a list gives the cluster c; 0 where it is not listed.
fn weight_in(list: &Splits, c: u64) -> u32 {
    let mut rows = list.clusters.iter().zip(&list.weights).take(list.rows);
    match rows.find(|(cluster, _)| **cluster == c) {
        Some((_, weight)) => *weight,
        None => 0,
    }
}

// The weight of the split c by the growth rule, the list covering all taxa of the matrix but the last; 0 where it is not listed. The newcomer by itself,
// and what extends a trivial split, listed or not, are weighed over all fours; a listed split that is not trivial by its old weight and the newcomer's fours.
pub fn grown_weight(m: &Matrix, old: &Splits, c: u64) -> u64
    requires { 2 ≤ m.now.n }
{
    if c >> m.n != 0 {
        return 0;
    }
    let newcomer = m.n - 1;
    let parent = c << (64 - newcomer) >> (64 - newcomer);
    if parent == 0 || trivial(newcomer, parent) {
        return matrix_weight(m, c);
    }
    let w = weight_in(old, parent);
    if w == 0 {
        0
    } else {
        weight_by(m, c, Some(newcomer), i64::from(w))
    }
}

// Whether the list is the answer by a weight for each split: each split of weight above zero in turn, ascending, with its weight, and no other.
pub fn is_answer<W: Fn(u64) -> u64>(n: usize, list: &Splits, weight: W) -> bool
    requires { W.IsAlwaysCallable weight }
    ensures { result ≡ true → list.now.taxa ≡ n }
{
    let (Some(clusters), Some(weights)) = (
        list.clusters.get(..list.rows),
        list.weights.get(..list.rows),
    ) else {
        return false;
    };
    let mut rows = clusters.iter().zip(weights);
    for c in (2..128u64).step_by(2) {
        let w = weight(c);
        if w == 0 {
            continue;
        }
        match rows.next() {
            Some((cluster, weight)) if *cluster == c && u64::from(*weight) == w => {}
            _ => return false,
        }
    }
    list.taxa == n && rows.next().is_none()
}

// How many trivial splits k taxa have.
fn trivials(k: usize) -> u64
    requires { k ≤ 7 }
    ensures { result ≤ 7 }
{
    match k {
        0 | 1 => 0,
        2 => 1,
        _ => k as u64,
    }
}

// What the next taxon costs on a matrix: both extensions of every trivial split of k taxa, and of each listed one that is not trivial, plus one.
pub fn next_cost(k: usize, old: &Splits) -> u64
    requires { k ≤ 7 }
    ensures { (1 ≤ result) × (result ≤ 265) }
{
    let listed = old
        .clusters
        .iter()
        .take(old.rows)
        .filter(|c| !trivial(k, **c))
        .count();
    2 * (trivials(k) + listed as u64) + 1
}

// Whether two lists are the same: k, the row count and the rows.
pub fn same(a: &Splits, b: &Splits) -> bool
    ensures { result ≡ true → a.now.rows ≡ b.now.rows }
{
    let used = a.rows.min(125);
    a.taxa == b.taxa
        && a.rows == b.rows
        && a.clusters[..used] == b.clusters[..used]
        && a.weights[..used] == b.weights[..used]
}
