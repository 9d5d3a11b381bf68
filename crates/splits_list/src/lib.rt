// Lists of splits: made empty, the test that a given list is well-formed, and the checks of a list with k = n.
// Document 01, "Growing and the allowance": the list has fixed room for 125 rows; well-formed.
#![tactic(auto)]

ghost use Rattle.std.specs.Prelude.{◌≡◌, [], ℕ, ◌*◌, ◌-◌, ◌^◌, ◌<◌, ◌≤◌, ltb, get_or};
ghost use Rattle.statement.specs.Cluster.{Split};
ghost use Rattle.statement.specs.Lowest.{somewhere, nowhere};
ghost use Rattle.statement.specs.Rows.{list_of, conflicts, fits, clashes, bad_row, well_formed};
ghost use Rattle.statement.specs.Refusals.{outcome_of, list_checks};
ghost use Rattle.statement.specs.Replies.{said};
ghost use Rattle.splits_list.specs.Pushed.{pushed};

use statement::{Reason, Refusal, Splits};

// The empty list, over k taxa: zeros throughout.
pub fn empty(k: usize) -> Splits
    ensures { result ≡ list_of k [] }
{
    Splits {
        taxa: k,
        rows: 0,
        clusters: [0; 125],
        weights: [0; 125],
    }
}

// The most rows that a list over k taxa may have.
fn row_limit(k: usize) -> usize
    requires { k ≤ 64 }
    ensures { result ≡ 2 * k - 3 }
{
    (2 * k).saturating_sub(3)
}

// The cluster c is within the first k taxa, which every number of 64 bits is for k = 64.
fn within(k: usize, c: u64) -> bool
    requires { k ≤ 64 }
    ensures { result ≡ ltb c (2 ^ k) }
{
    k == 64 || c >> k == 0
}

// A row by itself: a non-empty cluster without taxon 0, within the first k taxa, and a weight from 1 to `most`.
fn row_fits(most: u32, k: usize, c: u64, w: u32) -> bool
    requires { k ≤ 64 }
    ensures { result ≡ fits most k c w }
{
    c != 0 && within(k, c) && c % 2 == 0 && w != 0 && w <= most
}

// Two splits conflict, the lesser number first. Neither cluster has taxon 0, so one intersection of their groups is never empty; and a greater number is
// never within a lesser one, so another isn't either. What is left: they share some taxa, and not all of the lesser. One test asks both: 0, less one,
// wraps round to the greatest number, which is below nothing. Two tests would jump by what the clusters share, which changes from pair to pair, and the
// processor often guesses such jumps wrong.
fn conflict(a: u64, b: u64) -> bool
    ensures { (k : ℕ) → 0 < k → a < b → Split k a → Split k b → result ≡ conflicts k a b }
{
    let both = a & b;
    both.wrapping_sub(1) < a.wrapping_sub(1)
}

// Row i against the rows before it: one of them is not below it, or conflicts with it. All are splits of the first k taxa.
fn row_clashes(k: usize, clusters: &[u64; 125], i: usize) -> bool
    requires i_bound { (i < 125) × (0 < k) }
    requires by_index { (j : ℕ) → j ≤ i → Split k (get_or clusters.now j 0) }
    ensures { result ≡ somewhere (clashes k clusters.now i) i }
{
    let c = clusters[i];
    places::somewhere(i, |j| c <= clusters[j] || conflict(clusters[j], c))
}

// Every row is good, by itself and against the rows before it.
fn rows_fit(most: u32, s: &Splits) -> bool
    requires { (0 < s.now.taxa) × (s.now.taxa ≤ 64) × (s.now.rows ≤ 125) }
    ensures { result ≡ nowhere (bad_row most s.now) s.now.rows }
{
    for i in 0..s.rows {
        if !row_fits(most, s.taxa, s.clusters[i], s.weights[i])
            || row_clashes(s.taxa, &s.clusters, i)
        {
            return false;
        }
    }
    true
}

// The list is well-formed, for n taxa and weights up to `most`; spare rows aren't looked at.
pub fn well_formed(most: u32, n: usize, s: Splits) -> bool
    requires { n ≤ 64 }
    ensures { result ≡ well_formed most n s }
{
    1 <= s.taxa && s.taxa <= n && s.rows <= row_limit(s.taxa) && rows_fit(most, &s)
}

// The checks of a call that takes n and a list with k = n: 1 and 8.
pub fn check_whole(n: usize, s: Splits) -> Result<(), Refusal>
    ensures { said result ≡ outcome_of (list_checks n s) }
{
    if n < 2 || 64 < n {
        return Err(Reason::Taxa.at(0));
    }
    if !well_formed(2000000, n, s) || s.taxa != n {
        return Err(Reason::List.at(0));
    }
    Ok(())
}

// One row more, at the first spare place.
pub fn push(list: &mut Splits, c: u64, w: u32)
    requires { list.old.rows < 125 }
    ensures { list.new ≡ pushed list.old c w }
{
    list.clusters[list.rows] = c;
    list.weights[list.rows] = w;
    list.rows += 1;
}
