// The tree of a list, written into a lent slice: m, m links, n homes (a byte each), then m weights of four bytes.
// Document 01, "The tree" and "Records in a file".
#![tactic(auto)]

ghost use Rattle.std.specs.Prelude.{◌≡◌, List, ℕ, ◌+◌, ◌*◌, ◌^◌, ◌<◌, ◌≤◌, length, get_or};
ghost use Rattle.std.proofs.Math.Seq.{paste};
ghost use Rattle.statement.specs.Rows.{Row, weights, rows_of, WellFormed};
ghost use Rattle.statement.specs.Matrix.{weight_limit};
ghost use Rattle.statement.specs.Tree.{strictly_in, link_of, home_of, tree_of};
ghost use Rattle.statement.specs.Bytes.{four_bytes, to_bytes, tree_body, tree_length};
ghost use Rattle.statement.specs.Calls.{write_tree, tree_written};
ghost use Rattle.statement.specs.Replies.{said};
ghost use Rattle.tree_write.specs.Vertices.{ClustersOf, vertices};

use splits_list::check_whole;
use statement::{Reason, Refusal, Splits};

// The cluster a is strictly in the cluster b.
fn strictly_in(a: u64, b: u64) -> bool
    ensures { (n : ℕ) → a < 2 ^ n → result ≡ strictly_in n a b }
{
    a != b && a & b == a
}

// The link of row i of m: the smallest cluster that strictly contains its own, which is the lowest, else m.
pub fn link_of(n: usize, clusters: &[u64; 125], m: usize, i: usize) -> usize
    requires { (i < m) × (m ≤ 125) × (get_or clusters.now i 0 < 2 ^ n) }
    ensures upper_bound { result ≤ m }
    ensures value { (rows : List Row) → ClustersOf rows clusters.now m → result ≡ link_of n rows i }
{
    let own = clusters[i];
    places::lowest(m, |j| strictly_in(own, clusters[j]))
}

// The home of a taxon: the smallest cluster that contains it, which is the lowest, else m.
pub fn home_of(clusters: &[u64; 125], m: usize, taxon: usize) -> usize
    requires { (m ≤ 125) × (taxon < 64) }
    ensures upper_bound { result ≤ m }
    ensures value { (rows : List Row) → ClustersOf rows clusters.now m → result ≡ home_of rows taxon }
{
    places::lowest(m, |j| (clusters[j] >> taxon) % 2 == 1)
}

// What stands at a place of the body's m links and n homes, as a byte.
fn vertex_at(n: usize, clusters: &[u64; 125], m: usize, i: usize) -> u8
    requires i_bound { (i < m + n) × (m ≤ 125) × (n ≤ 64) }
    requires by_index { (j : ℕ) → j < m → get_or clusters.now j 0 < 2 ^ n }
    ensures { (rows : List Row) → ClustersOf rows clusters.now m → result ≡ get_or (vertices (tree_of n rows)) i 0 }
{
    if i < m {
        link_of(n, clusters, m, i) as u8
    } else {
        home_of(clusters, m, i - m) as u8
    }
}

// The links and the homes, behind the first byte of the slice.
fn put_vertices(n: usize, s: &Splits, out: &mut [u8])
    requires { (n ≤ 64) × WellFormed weight_limit n s.now × (1 + s.now.rows + n ≤ length out.old) }
    ensures { out.new ≡ paste out.old 1 (vertices (tree_of n (rows_of s.now))) (s.now.rows + n) }
{
    for i in 0..s.rows + n {
        out[1 + i] = vertex_at(n, &s.clusters, s.rows, i);
    }
}

// A number in four bytes, little-endian, from a place on.
pub fn put_four(w: u32, at: usize, out: &mut [u8])
    requires { at + 4 ≤ length out.old }
    ensures { out.new ≡ paste out.old at (four_bytes w) 4 }
{
    out[at..at + 4].copy_from_slice(&w.to_le_bytes());
}

// The weights, from a place on.
fn put_weights(s: &Splits, at: usize, out: &mut [u8])
    requires { (s.now.rows ≤ 125) × (at + 4 * s.now.rows ≤ length out.old) }
    ensures { out.new ≡ paste out.old at (to_bytes (weights (rows_of s.now))) (4 * s.now.rows) }
{
    for i in 0..s.rows {
        put_four(s.weights[i], at + 4 * i, out);
    }
}

// The body of the tree of a well-formed list, in a slice of its length.
fn put_tree(n: usize, s: &Splits, out: &mut [u8])
    requires { (n ≤ 64) × WellFormed weight_limit n s.now × (length out.old ≡ tree_length n s.now.rows) }
    ensures { out.new ≡ tree_body (tree_of n (rows_of s.now)) }
{
    out[0] = s.rows as u8;
    put_vertices(n, s, out);
    put_weights(s, 1 + s.rows + n, out);
}

// The tree of a list with k = n: 1, 8, 7, or the slice filled.
pub fn write_tree(n: usize, s: Splits, out: &mut [u8]) -> Result<(), Refusal>
    ensures value { said result ≡ write_tree n s out.old }
    ensures out_after { out.new ≡ tree_written n s out.old }
{
    check_whole(n, s)?;
    if out.len() != 1 + n + 5 * s.rows {
        return Err(Reason::Output.at(0));
    }
    put_tree(n, &s, out);
    Ok(())
}
