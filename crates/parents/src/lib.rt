// What the next taxon extends on a matrix: a list's rows with every trivial split put in, listed or not. Document 02 §7.
// The trivial splits' clusters ascend, so one pass over the rows puts them all in.
#![tactic(auto)]

ghost use Rattle.std.specs.Prelude.{◌≡◌, ◌+◌, ◌≤◌, ◌<◌, length, get_or, drop};
ghost use Rattle.statement.specs.Rows.{row, rows_of, list_of};
ghost use Rattle.statement.specs.Growing.{put_in, with_trivial};
ghost use Rattle.splits_list.specs.Pushed.{appended};
ghost use Rattle.parents.specs.Merging.{first_of, trivial_at, Passed, Put};

use bits::single;
use splits_list::{empty, push};
use statement::Splits;

// The rows of a list from one on, pushed onto another.
fn push_rest(old: &Splits, from: usize, list: &mut Splits)
    requires { (old.now.rows ≤ 125) × (from ≤ old.now.rows) × (list.old.rows + length (drop from (rows_of old.now)) ≤ 125) }
    ensures { list.new ≡ appended list.old (drop from (rows_of old.now)) }
{
    for i in from..old.rows {
        push(list, old.clusters[i], old.weights[i]);
    }
}

// The rows of a list from one on whose clusters are below c, pushed onto another. Gives the next row.
fn pass_below(old: &Splits, from: usize, c: u64, list: &mut Splits) -> usize
    requires { (old.now.rows ≤ 125) × (from ≤ old.now.rows) × (list.old.rows + length (drop from (rows_of old.now)) ≤ 125) }
    ensures { Passed old.now list.old list.new c from result × (result < old.now.rows → c ≤ get_or old.now.clusters result 0) }
{
    let mut at = from;
    while at < old.rows && old.clusters[at] < c {
        push(list, old.clusters[at], old.weights[at]);
        at += 1;
    }
    at
}

// The row c, w put in among the rows of a list from one on, and those before it pushed; a row of the same cluster gives way. Gives the next row.
fn put_next(old: &Splits, from: usize, c: u64, w: u32, list: &mut Splits) -> usize
    requires { (old.now.rows ≤ 125) × (from ≤ old.now.rows) × (list.old.rows + length (put_in (row c w) (drop from (rows_of old.now))) ≤ 125) }
    ensures { Put old.now list.old list.new c w from result }
{
    let at = pass_below(old, from, c, list);
    push(list, c, w);
    if at < old.rows && old.clusters[at] == c {
        at + 1
    } else {
        at
    }
}

// The number of the first trivial split of k taxa, of which there are k but for two taxa, which have one.
fn first(k: usize) -> usize
    ensures { result ≡ first_of k }
{
    if k == 2 { 2 } else { 1 }
}

// The cluster of the trivial split numbered i.
fn trivial(k: usize, i: usize) -> u64
    requires { (k < 64) × (1 ≤ k) × (i ≤ k) }
    ensures { result ≡ trivial_at k i }
{
    if i == k { single(k) - 2 } else { single(i) }
}

// A list with every trivial split put in, at the weight `most`.
pub fn with_trivial(s: &Splits, most: u32) -> Splits
    requires taxa_bound { (s.now.taxa < 64) × (s.now.rows ≤ 125) × (s.now.taxa < 2 → s.now.rows ≡ 0) }
    requires s_len_bound { length (with_trivial most s.now.taxa (rows_of s.now)) ≤ 125 }
    ensures { result ≡ list_of s.now.taxa (with_trivial most s.now.taxa (rows_of s.now)) }
{
    let k = s.taxa;
    let mut list = empty(k);
    if k < 2 {
        return list;
    }
    let mut at = 0;
    for i in first(k)..k + 1 {
        at = put_next(s, at, trivial(k, i), most, &mut list);
    }
    push_rest(s, at, &mut list);
    list
}
