// The Newick text of a list with k = n, written into a lent slice of its exact length. Document 02, §2.
#![tactic(auto)]

ghost use Rattle.std.specs.Prelude.{◌≡◌, true, ℕ, ◌<◌, ◌≤◌, length, get_or, IfOk};
ghost use Rattle.std.proofs.lemmas.List.Edits.{sets};
ghost use Rattle.statement.specs.Rows.{rows_of, well_formed};
ghost use Rattle.statement.specs.Matrix.{weight_limit};
ghost use Rattle.newick_write.specs.Linked.{Linked};
ghost use Rattle.statement.specs.NewickText.{newick_of, newick_length};
ghost use Rattle.statement.specs.Calls.{measure_newick, write_newick, newick_written};
ghost use Rattle.statement.specs.Replies.{said};

use newick_digits::Pen;
use newick_vertex::Arrays;
use splits_list::check_whole;
use statement::{Reason, Refusal, Splits};

// What a rule gives for the numbers 0 to m - 1, and 0 behind them.
fn filled<const N: usize, F: Fn(usize) -> usize>(m: usize, rule: F) -> [usize; N]
    requires few { m ≤ N }
    requires callable { (i : ℕ) → i < m → F.pre rule i }
    ensures { (f : ℕ → ℕ) → ((i : ℕ) → i < m → (r : ℕ) → F.post rule i r → r ≡ f i) → (j : ℕ) → j < m → get_or result j 0 ≡ f j }
{
    let mut numbers = [0; N];
    for i in 0..m {
        numbers[i] = rule(i);
    }
    numbers
}

// A well-formed list over all its n taxa, with the links and the homes of its tree.
#[derive(Drop)]
struct Tree<'a> {
    n: usize,
    list: &'a Splits,
    links: [usize; 125],
    homes: [usize; 64],
    ghost few: { n ≤ 64 },
    ghost sized: { (length list.now.clusters ≡ 125) × (length list.now.weights ≡ 125) },
    ghost well: { well_formed weight_limit n list.now ≡ true },
    ghost whole: { list.now.taxa ≡ n },
    ghost linked: { Linked n list.now links homes },
}

impl<'a> Tree<'a> {
    fn of(n: usize, list: &'a Splits) -> Tree<'a>
        requires { (n ≤ 64) × (well_formed weight_limit n list.now ≡ true) × (list.now.taxa ≡ n) }
        ensures { (result.n ≡ n) × (result.list.now ≡ list.now) }
    {
        let m = list.rows;
        Tree {
            n,
            list,
            links: filled(m, |i| tree_write::link_of(n, &list.clusters, m, i)),
            homes: filled(n, |i| tree_write::home_of(&list.clusters, m, i)),
        }
    }

    // Its text, as far as there is room for it, and its length.
    fn put(&self, out: &mut [u8]) -> usize
        ensures { (out.new ≡ sets out.old 0 (newick_of self.now.n (rows_of self.now.list.now))) × (result ≡ newick_length self.now.n (rows_of self.now.list.now)) }
    {
        let m = self.list.rows;
        let arrays = Arrays {
            homes: &self.homes[..self.n],
            links: &self.links[..m],
            weights: &self.list.weights[..m],
        };
        let mut pen = Pen { out, at: 0 };
        arrays.vertex(m, &mut pen);
        pen.put(b';');
        pen.at
    }

    // The length of its text: nothing has room in one byte but the first.
    fn length(&self) -> usize
        ensures { result ≡ newick_length self.now.n (rows_of self.now.list.now) }
    {
        self.put(&mut [0])
    }
}

// The length of the text of a list with k = n, or 1, 8.
pub fn newick_length(n: usize, s: Splits) -> Result<usize, Refusal>
    ensures said { said result ≡ measure_newick n s }
    ensures ok { IfOk result (λ len. len ≡ newick_length n (rows_of s)) }
{
    check_whole(n, s)?;
    Ok(Tree::of(n, &s).length())
}

// The text of a list with k = n: 1, 8, 7, or the slice filled.
pub fn write_newick(n: usize, s: Splits, out: &mut [u8]) -> Result<(), Refusal>
    ensures value { said result ≡ write_newick n s out.old }
    ensures out_after { out.new ≡ newick_written n s out.old }
{
    check_whole(n, s)?;
    let tree = Tree::of(n, &s);
    let len = tree.length();
    if out.len() != len {
        return Err(Reason::Output.at(0));
    }
    tree.put(out);
    Ok(())
}
