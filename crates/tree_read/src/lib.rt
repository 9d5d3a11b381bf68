// A tree read from its body, in any numbering of its vertices: the clusters of its edges, the checks of them, and the list of its rows.
// Document 01, "The tree"; "Refusal numbers", 12 and 13.
#![tactic(auto)]

ghost use Rattle.std.specs.Prelude.{◌≡◌, ℕ, suc, ◌*◌, ◌^◌, ◌<◌, ◌≤◌, length, get_or};
ghost use Rattle.statement.specs.Outcomes.{Done};
ghost use Rattle.statement.specs.Refusals.{outcome_of};
ghost use Rattle.statement.specs.Calls.{read_tree};
ghost use Rattle.statement.specs.Replies.{said, reading_said};
ghost use Rattle.tree_check.specs.Parts.{first_checks};
ghost use Rattle.tree_read.specs.Columns.{Marked, Clusters, Weights, twinned, cluster_checks};

use bits::single;
use row_sort::sorted;
use statement::{Reason, Refusal, Splits};
use tree_body::{homes_in, links_in, weights_in, word_at};
use tree_check::{check, step_up};

// A taxon's group added to the cluster of each edge on the walk up from its home, once.
fn mark(links: &[u8], clusters: &mut [u64; 125], home: usize, group: u64)
    requires links_len_bound { (length links.now ≤ 125) × (group ≤ 2 ^ 63) }
    requires by_index { (v : ℕ) → v < length links.now → get_or clusters.old v 0 < group }
    ensures { Marked links.now home group (suc (length links.now)) clusters.old clusters.new }
{
    let m = links.len();
    let mut at = home;
    for _ in 0..=m {
        if at < m && clusters[at] < group {
            clusters[at] += group;
        }
        at = step_up(links, at);
    }
}

// The clusters of all the edges, a taxon at a time.
fn clusters_of(links: &[u8], homes: &[u8]) -> [u64; 125]
    requires { (length links.now ≤ 125) × (length homes.now ≤ 64) }
    ensures { Clusters links.now homes.now result }
{
    let mut clusters = [0u64; 125];
    for i in 0..homes.len() {
        mark(links, &mut clusters, usize::from(homes[i]), single(i));
    }
    clusters
}

// Another edge has the cluster of the edge v.
fn has_twin(clusters: &[u64], v: usize) -> bool
    requires { v < length clusters.now }
    ensures { result ≡ twinned clusters.now v }
{
    places::somewhere(clusters.len(), |w| v != w && clusters[v] == clusters[w])
}

// The checks of the clusters of the edges: 12 at the lowest with no taxon beyond it, 13 at the lowest whose cluster another one has.
fn check_clusters(clusters: &[u64]) -> Result<(), Refusal>
    ensures { said result ≡ outcome_of (cluster_checks clusters.now) }
{
    places::refuse(Reason::Edge, clusters.len(), |v| clusters[v] == 0)?;
    places::refuse(Reason::Twin, clusters.len(), |v| has_twin(clusters, v))
}

// The weights of m edges, from their bytes.
fn weights_of(m: usize, bytes: &[u8]) -> [u32; 125]
    requires { (m ≤ 125) × (4 * m ≤ length bytes.now) }
    ensures { Weights bytes.now m result }
{
    let mut weights = [0u32; 125];
    for v in 0..m {
        weights[v] = word_at(bytes, 4 * v);
    }
    weights
}

// Where the checks before the clusters are passed: those of the clusters, and the list.
fn read_checked(n: usize, body: &[u8]) -> Result<Splits, Refusal>
    requires { outcome_of (first_checks n body.now) ≡ Done }
    ensures { reading_said result ≡ read_tree n body.now }
{
    let m = usize::from(body[0]);
    let clusters = clusters_of(links_in(m, body), homes_in(n, m, body));
    check_clusters(&clusters[..m])?;
    let weights = weights_of(m, weights_in(n, m, body));
    Ok(sorted(n, m, &clusters, &weights))
}

// A tree read, or refused.
pub fn read_tree(n: usize, body: &[u8]) -> Result<Splits, Refusal>
    ensures { reading_said result ≡ read_tree n body.now }
{
    check(n, body)?;
    read_checked(n, body)
}
