// A Newick text read: its checks, and the list of its rows. Document 02, §2.
#![tactic(auto)]

ghost use Rattle.std.specs.Prelude.{◌≡◌, List, ℕ, ◌≤◌};
ghost use Rattle.statement.specs.Replies.{reading_said};
ghost use Rattle.newick_text.specs.Automaton.{run, start, good};
ghost use Rattle.newick_meaning.specs.Parse.{read_newick};

use newick_edges::full;
use newick_text::accepts;
use newick_walk::walk_over;
use row_sort::sorted;
use statement::{Reason, Refusal, Splits};

// A text that begins with a sentence.
fn read_sentence(n: usize, text: &[u8]) -> Result<Splits, Refusal>
    requires { (2 ≤ n) × (n ≤ 64) × ((rest : List ℕ) × (run text.now (start 130) ≡ good rest)) }
    ensures { reading_said result ≡ read_newick n text.now }
{
    let w = walk_over(n, text);
    if let Some(place) = w.met.stray {
        return Err(Reason::Taxon.at(place));
    }
    if w.met.seen != full(n) {
        return Err(Reason::Taxon.at(w.at));
    }
    let t = &w.table;
    if let Some(place) = t.heavy {
        return Err(Reason::Weight.at(place));
    }
    if let Some(place) = t.bare {
        return Err(Reason::Edge.at(place));
    }
    if let Some(place) = t.twin() {
        return Err(Reason::Twin.at(place));
    }
    Ok(sorted(n, t.rows, &t.clusters, &t.weights))
}

// A Newick text read, or refused.
pub fn read_newick(n: usize, text: &[u8]) -> Result<Splits, Refusal>
    ensures { reading_said result ≡ read_newick n text.now }
{
    if n < 2 || 64 < n {
        return Err(Reason::Taxa.at(0));
    }
    match accepts(text) {
        Ok(_) => read_sentence(n, text),
        Err(place) => Err(Reason::Text.at(place)),
    }
}
