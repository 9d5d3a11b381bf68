// The table of edges: what an edge more leaves of it.
// Document 02, §2.

ghost use Rattle.std.specs.Prelude.{◌≡◌};
ghost use Rattle.newick_edges.specs.Table.{table_in, no_table, note_heavy as note_heavy·of, added, enter as enter·of, twin as twin·of};

use crate::Table;

impl Table {
    // No edge yet.
    pub fn new() -> Table
        ensures { table_in result ≡ no_table }
    {
        Table {
            heavy: None,
            bare: None,
            rows: 0,
            clusters: [0; 125],
            weights: [0; 125],
            places: [0; 125],
            many: [false; 125],
        }
    }

    fn note_heavy(&mut self, place: usize, w: u32)
        ensures { table_in self.new ≡ note_heavy·of (table_in self.old) place w }
    {
        if w > 2000000 {
            self.heavy = self.heavy.or(Some(place));
        }
    }

    // One edge more, with a cluster that is not empty.
    fn add(&mut self, place: usize, c: u64, w: u32)
        ensures { table_in self.new ≡ added (table_in self.old) place c w }
    {
        let rows = self.rows;
        let j = places::lowest(rows, |j| self.clusters[j] == c);
        if j < rows {
            self.many[j] = true;
        } else if rows < 125 {
            self.clusters[rows] = c;
            self.weights[rows] = w;
            self.places[rows] = place;
            self.rows = rows + 1;
        }
    }

    // One edge more. An edge of length 0 is dropped.
    pub fn enter(&mut self, place: usize, c: u64, w: u32)
        ensures { table_in self.new ≡ enter·of (table_in self.old) place c w }
    {
        if w == 0 {
            return;
        }
        self.note_heavy(place, w);
        if c == 0 {
            self.bare = self.bare.or(Some(place));
        } else {
            self.add(place, c, w);
        }
    }

    // The place of the first edge whose cluster another edge has too.
    pub fn twin(&self) -> Option<usize>
        ensures { result ≡ twin·of (table_in self.now) }
    {
        let j = places::lowest(self.rows, |j| self.many[j]);
        if j < self.rows {
            Some(self.places[j])
        } else {
            None
        }
    }
}
