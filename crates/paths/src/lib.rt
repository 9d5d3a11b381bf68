// Path sums: the sum of weights on the path between the homes of two taxa, for each two, in a lent slice of n by n, row by row.
// Each is summed by rows: the edges on the path are the rows that part the two taxa. Document 01, "The tree".
#![tactic(auto)]

ghost use Rattle.std.specs.Prelude.{◌≡◌, ℕ, ◌*◌, ◌<◌, ◌≤◌, length};
ghost use Rattle.statement.specs.Matrix.{weight_limit};
ghost use Rattle.statement.specs.Rows.{row, weights, Mem, rows_of, WellFormed};
ghost use Rattle.statement.specs.Tree.{tree_of, path_sums};
ghost use Rattle.statement.specs.Calls.{sum_paths, paths_written};
ghost use Rattle.statement.specs.Replies.{said};
ghost use Rattle.paths.specs.RowSum.{parting, row_sum};

use splits_list::check_whole;
use statement::{Reason, Refusal, Splits};

// What a row adds to the path between taxa i and j: its weight, where its cluster holds exactly one of them.
fn parting_weight(cluster: u64, weight: u32, i: usize, j: usize) -> u64
    requires { (i < 64) × (j < 64) }
    ensures { result ≡ parting i j (row cluster weight) }
{
    if (cluster >> i) % 2 == (cluster >> j) % 2 {
        0
    } else {
        u64::from(weight)
    }
}

// The path between taxa i and j: the rows that part them, summed.
fn row_sum(s: &Splits, i: usize, j: usize) -> u64
    requires i_bound { (i < 64) × (j < 64) × (s.now.rows ≤ 125) }
    requires by_index { (w : ℕ) → Mem w (weights (rows_of s.now)) → w ≤ weight_limit }
    ensures { result ≡ row_sum (rows_of s.now) i j }
{
    let mut sum: u64 = 0;
    for k in 0..s.rows {
        sum += parting_weight(s.clusters[k], s.weights[k], i, j);
    }
    sum
}

// The path sums of a well-formed list, in a slice of their number.
fn put_sums(n: usize, s: &Splits, out: &mut [u64])
    requires { (2 ≤ n) × (n ≤ 64) × WellFormed weight_limit n s.now × (s.now.taxa ≡ n) × (length out.old ≡ n * n) }
    ensures { out.new ≡ path_sums n (tree_of n (rows_of s.now)) }
{
    for e in 0..n * n {
        out[e] = row_sum(s, e / n, e % n);
    }
}

// The path sums of a list with k = n: 1, 8, 7, or the slice filled.
pub fn sum_paths(n: usize, s: Splits, out: &mut [u64]) -> Result<(), Refusal>
    ensures value { said result ≡ sum_paths n s out.old }
    ensures out_after { out.new ≡ paths_written n s out.old }
{
    check_whole(n, s)?;
    if out.len() != n * n {
        return Err(Reason::Output.at(0));
    }
    put_sums(n, &s, out);
    Ok(())
}
