// The trial of a split on a table of resolved fours: what the table says of a newcomer's fours, as sets of taxa, and the trial by them (document 01,
// "Growing and the allowance"; document 02 §3).
#![tactic(auto)]

ghost use Rattle.std.specs.Prelude.{◌≡◌, true, false, List, ℕ, suc, ◌+◌, ◌*◌, ◌≤◌, ◌<◌, length, get_or};
ghost use Rattle.statement.specs.Table.{choose};
ghost use Rattle.statement.specs.Growing.{table_trial};
ghost use Rattle.table_trial.specs.Sets.{put, marked, Filled, Prepared, RowHolds, RowsHold};

use bits::{others, side_of, single};
use table::{Table, binomial, fours};

// The sets of a newcomer x: for each pair of earlier taxa i<j the taxa that the table joins with x against the two, as a number, at C(j,2) + i.
#[derive(Drop)]
pub struct Sets {
    pub pairs: [u64; 2016],
}

impl Sets {
    // Empty sets.
    pub fn new() -> Sets {
        Sets { pairs: [0; 2016] }
    }

    // Takes the taxon u into the set at a place.
    fn put(&mut self, at: usize, u: usize)
        requires { (at < 2016) × (u < 64) }
        ensures { self.new.pairs ≡ put self.old.pairs at u }
    {
        self.pairs[at] |= single(u);
    }

    // What the byte of the four i<j<l<x says. The sets of j with a lower taxon are from the place `below` on, those of l from `above`.
    fn mark(&mut self, byte: u8, i: usize, j: usize, l: usize, below: usize, above: usize)
        requires { (i < j) × (j < l) × (l < 64) × (below ≡ choose j 2) × (above ≡ choose l 2) }
        ensures { self.new.pairs ≡ marked byte i j l self.old.pairs }
    {
        match byte {
            1 => self.put(below + i, l),
            2 => self.put(above + i, j),
            3 => self.put(above + j, i),
            _ => {}
        }
    }

    // The bytes of the fours i<j<l<x for each i. Those with this l and x begin at the place `from`.
    fn mark_row(&mut self, table: &Table, x: usize, j: usize, l: usize, from: usize)
        requires { (j < l) × (l < x) × (x < table.now.n) × (from ≡ choose l 3 + choose x 4) × Filled table.now.bytes.now x (l * 4096 + j * 64) self.old.pairs }
        ensures { Filled table.now.bytes.now x (l * 4096 + (j + 1) * 64) self.new.pairs }
    {
        let below = binomial(j, 2);
        let above = binomial(l, 2);
        for i in 0..j {
            self.mark(table.bytes[from + below + i], i, j, l, below, above);
        }
    }

    // The same for each j.
    fn mark_rows(&mut self, table: &Table, x: usize, l: usize)
        requires { (2 ≤ l) × (l < x) × (x < table.now.n) × Filled table.now.bytes.now x (l * 4096 + 64) self.old.pairs }
        ensures { Filled table.now.bytes.now x ((l + 1) * 4096 + 64) self.new.pairs }
    {
        let from = binomial(l, 3) + fours(x);
        for j in 1..l {
            self.mark_row(table, x, j, l, from);
        }
    }

    // The sets of the newcomer x, from its stretch of the table.
    pub fn prepare(&mut self, table: &Table, x: usize)
        requires { x < table.now.n }
        ensures { Prepared table.now.bytes.now x self.new.pairs }
    {
        self.pairs = [0; 2016];
        for l in 2..x {
            self.mark_rows(table, x, l);
        }
    }

    // Whether the whole side is in the set of q and each of the listed taxa.
    fn row_holds(&self, side: u64, q: usize, taxa: &[usize]) -> bool
        requires { (q < 64) × ((j : ℕ) → j < length taxa.now → get_or taxa.now j 0 < q) }
        ensures { (result ≡ true → RowHolds side q (length taxa.now) taxa.now self.now.pairs) × (result ≡ false → RowHolds side q (length taxa.now) taxa.now self.now.pairs → ⊥) }
    {
        let from = binomial(q, 2);
        let row = &self.pairs[from..from + q];
        taxa.iter().all(|&p| side & row[p] == side)
    }

    // Whether it is in the set of each two of the listed taxa.
    fn rows_hold(&self, side: u64, taxa: &[usize]) -> bool
        requires { ((j : ℕ) → j < length taxa.now → get_or taxa.now j 0 < 64) × ((i j : ℕ) → i < length taxa.now → j < i → get_or taxa.now j 0 < get_or taxa.now i 0) }
        ensures { (result ≡ true → RowsHold side (length taxa.now) taxa.now self.now.pairs) × (result ≡ false → RowsHold side (length taxa.now) taxa.now self.now.pairs → ⊥) }
    {
        (0..taxa.len()).all(|i| self.row_holds(side, taxa[i], &taxa[..i]))
    }

    // A trial of the split c of the earlier taxa and the newcomer x, over its fours with x in the table that the sets were prepared from: 0 where some
    // four of different taxa does not stand, else the lesser of w and 1; w where there is no such four.
    pub fn trial(&self, x: usize, c: u64, w: u32) -> u32
        requires { x < 64 }
        ensures { (bytes : List ℕ) → Prepared bytes x self.now.pairs → result ≡ table_trial bytes (suc x) x c w }
    {
        let mut room = [0; 64];
        let taxa = others(x, x, c, &mut room);
        let side = side_of(x, c);
        if !self.rows_hold(side, taxa) {
            return 0;
        }
        if taxa.len() < 2 || side == 0 {
            return w;
        }
        w.min(1)
    }
}
