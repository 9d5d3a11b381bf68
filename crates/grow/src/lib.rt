// Growth of a list, a taxon at a time: one piece of code for every kind of source. Document 01, "Growing and the allowance".
#![tactic(auto)]

ghost use Rattle.std.specs.Prelude.{◌≡◌, [], ◌∷◌, ℕ, suc, ◌+◌, ◌-◌, ◌^◌, ◌<◌, ◌≤◌, Ok, length, get_or};
ghost use Rattle.statement.specs.Matrix.{distance};
ghost use Rattle.statement.specs.Rows.{row, clusters, rows_of, Ascending, WellFormed};
ghost use Rattle.statement.specs.Growing.{Manner, by_matrix, by_table, kept, enlarged, grown};
ghost use Rattle.statement.specs.Replies.{growth_said};
ghost use Rattle.splits_list.specs.Pushed.{appended};
ghost use Rattle.lone_weights.specs.Lone.{Kept};
ghost use Rattle.table_trial.specs.Sets.{Prepared};
ghost use Rattle.grow.specs.Source.{Grows, Extended, with_taxon, most_by};
ghost use Rattle.grow.specs.Lawful.{matrix_grows, table_grows};
ghost use Rattle.grow.specs.Raised.{raised};

use bits::single;
use matrix::Matrix;
use parents::with_trivial;
use splits_list::{empty, push};
use statement::{Ending, Grown, Splits};
use table::Table;
use table_trial::Sets;

// The most that a split can weigh in a source of this kind (document 01's record kinds: 1 matrix, else table).
pub fn most(kind: u8) -> u32
    ensures { result ≡ most_by kind }
{
    if kind == 1 { 2000000 } else { 1 }
}

// What growth goes by: its taxa, its trials and what it extends.
pub trait Source {
    // What is made ready for the trials of a newcomer, and kept for the next one.
    type Ready: Drop;

    // The number of its taxa.
    ghost taxa: { Self → ℕ };

    // How it grows.
    ghost manner: { Self → Manner };

    // What is kept can be made ready for any newcomer from k on.
    ghost IsEarly: { Self → ℕ → Self.Ready → Type 0 };

    // It is ready for the newcomer k.
    ghost IsReady: { Self → ℕ → Self.Ready → Type 0 };

    // The number of its taxa.
    fn taxa(&self) -> usize
        ensures { result ≡ taxa self.now };

    // The most that a split can weigh: what the newcomer alone starts from.
    fn most(&self) -> u32
        ensures { result ≡ (manner self.now).most };

    // What the next taxon extends.
    fn parents(&self, s: Splits) -> Splits
        requires { (s.taxa < taxa self.now) × WellFormed (manner self.now).most (taxa self.now) s }
        ensures { Extended (manner self.now) s result };

    // What is kept before the first newcomer.
    fn start(&self) -> Self::Ready
        ensures { (k : ℕ) → IsEarly self.now k result };

    // Makes what is kept ready for the newcomer k.
    fn prepare(&self, k: usize, ready: &mut Self::Ready)
        requires { (0 < k) × (k < taxa self.now) × IsEarly self.now k ready.old }
        ensures { IsReady self.now k ready.new × IsEarly self.now (suc k) ready.new };

    // A trial: the split c of the earlier taxa and the newcomer k, by its fours that include k.
    fn trial(&self, k: usize, ready: &Self::Ready, c: u64, w: u32) -> u32
        requires { (0 < k) × (k < taxa self.now) × IsReady self.now k ready.now }
        ensures { result ≡ (manner self.now).trial (suc k) k c w };

    // It grows within the list's room.
    ghost grows: { (x : Self) → Grows (taxa x) (manner x) };
}

// What a matrix keeps: the weights of the splits of one taxon by itself, worked out for the first `taxa` taxa; and the newcomer's nearest neighbour, by
// which its trials look first.
#[derive(Drop)]
pub struct Singles {
    pub lone: [u32; 64],
    pub taxa: usize,
    pub near: usize,
}

impl<'a> Source for Matrix<'a> {
    type Ready = Singles;

    ghost taxa = { λ m. m.n };

    ghost manner = { λ m. by_matrix (distance m.n m.entries.now) };

    ghost IsEarly = { λ m k ready. (ready.taxa ≤ k) × Kept (distance m.n m.entries.now) ready.taxa ready.taxa ready.lone };

    ghost IsReady = { λ m k ready. (ready.near < k) × Kept (distance m.n m.entries.now) (k + 1) (k + 1) ready.lone };

    ghost grows = { λ m. matrix_grows m.n m.entries.now m.accepted };

    fn taxa(&self) -> usize {
        self.n
    }

    fn most(&self) -> u32 {
        2000000
    }

    // Every trivial split is put in (document 02 §7).
    fn parents(&self, s: Splits) -> Splits {
        with_trivial(&s, 2000000)
    }

    fn start(&self) -> Singles {
        Singles {
            lone: [0; 64],
            taxa: 0,
            near: 0,
        }
    }

    fn prepare(&self, k: usize, ready: &mut Singles) {
        lone_weights::prepare(self, ready.taxa, k, &mut ready.lone);
        ready.taxa = k + 1;
        ready.near = neighbours::nearest(self, k);
    }

    fn trial(&self, k: usize, ready: &Singles, c: u64, w: u32) -> u32 {
        matrix_trial::trial(self, k + 1, k, ready.near, &ready.lone, c, w)
    }
}

impl<'a> Source for Table<'a> {
    type Ready = Sets;

    ghost taxa = { λ t. t.n };

    ghost manner = { λ t. by_table t.bytes.now };

    ghost IsEarly = { λ t k ready. Unit {0} };

    ghost IsReady = { λ t k ready. Prepared t.bytes.now k ready.pairs };

    ghost grows = { λ t. table_grows t.n t.bytes.now t.accepted };

    fn taxa(&self) -> usize {
        self.n
    }

    fn most(&self) -> u32 {
        1
    }

    fn parents(&self, s: Splits) -> Splits {
        s
    }

    fn start(&self) -> Sets {
        Sets::new()
    }

    fn prepare(&self, k: usize, ready: &mut Sets) {
        ready.prepare(self, k);
    }

    fn trial(&self, k: usize, ready: &Sets, c: u64, w: u32) -> u32 {
        ready.trial(k, c, w)
    }
}

// One candidate with the newcomer k, of the weight w: a row more at what its trial says, where that is above zero.
fn offer<S: Source>(source: &S, k: usize, ready: &S::Ready, c: u64, w: u32, list: &mut Splits)
    requires source { (0 < k) × (k < S.taxa source.now) × S.IsReady source.now k ready.now }
    requires room { list.old.rows + length (kept ((S.manner source.now).trial (suc k) k) (row c w ∷ [])) ≤ 125 }
    ensures { list.new ≡ appended list.old (kept ((S.manner source.now).trial (suc k) k) (row c w ∷ [])) }
{
    let v = source.trial(k, ready, c, w);
    if 0 < v {
        push(list, c, v);
    }
}

// One pass over the old rows, with b added to each cluster: 0 leaves the newcomer out, its own bit takes it in.
fn pass<S: Source>(source: &S, k: usize, ready: &S::Ready, old: &Splits, b: u64, list: &mut Splits)
    requires source { (0 < k) × (k < S.taxa source.now) × S.IsReady source.now k ready.now × (old.now.rows ≤ 125) }
    requires by_index { (i : ℕ) → i < old.now.rows → b + get_or old.now.clusters i 0 < 2 ^ 64 }
    requires room { list.old.rows + length (kept ((S.manner source.now).trial (suc k) k) (raised b (rows_of old.now))) ≤ 125 }
    ensures { list.new ≡ appended list.old (kept ((S.manner source.now).trial (suc k) k) (raised b (rows_of old.now))) }
{
    for i in 0..old.rows {
        offer(source, k, ready, b + old.clusters[i], old.weights[i], list);
    }
}

// One taxon more, of a list of what is extended: each split without the newcomer, the newcomer by itself, each split with it.
fn add_taxon<S: Source>(source: &S, ready: &S::Ready, s: &Splits) -> Splits
    requires source { (0 < s.now.taxa) × (s.now.taxa < S.taxa source.now) × S.IsReady source.now s.now.taxa ready.now }
    requires rows { (s.now.rows ≤ 125) × Ascending 1 (2 ^ s.now.taxa) (clusters (rows_of s.now)) }
    requires room { length (enlarged (S.manner source.now).trial (S.manner source.now).most s.now.taxa (rows_of s.now)) ≤ 125 }
    ensures { result ≡ with_taxon (S.manner source.now) s.now }
{
    let k = s.taxa;
    let mut list = empty(k + 1);
    pass(source, k, ready, s, 0, &mut list);
    offer(source, k, ready, single(k), source.most(), &mut list);
    pass(source, k, ready, s, single(k), &mut list);
    list
}

// Taxa are added while what remains of the allowance covers the next one.
pub fn grow_taxa<S: Source>(source: &S, s: Splits, allowance: u64) -> Grown
    requires { WellFormed (S.manner source.now).most (S.taxa source.now) s }
    ensures { growth_said s (Ok result) ≡ grown (S.manner source.now) (S.taxa source.now - s.taxa) allowance 0 s }
{
    let n = source.taxa();
    let mut ready = source.start();
    let mut t = s;
    let mut left = allowance;
    let mut spent = 0;
    while t.taxa < n {
        let p = source.parents(t);
        let cost = 2 * (p.rows as u64) + 1;
        if left < cost {
            return Grown {
                ending: Ending::Short,
                list: t,
                trials: spent,
            };
        }
        left -= cost;
        spent += cost;
        source.prepare(p.taxa, &mut ready);
        t = add_taxon(source, &ready, &p);
    }
    Grown {
        ending: Ending::Done,
        list: t,
        trials: spent,
    }
}
